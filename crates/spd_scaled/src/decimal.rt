//! Decimals: numbers as a text writes them, and as whole numbers of a unit.

ghost use Rattle.std.specs.Prelude.{◌≡◌, ℕ, ◌+◌, ◌<◌, ◌≤◌, ◌^◌, ◌++◌, ◌∷◌, [], length, IsTrue, Bool, true, false, List, Option, Some, None, option_map, IfSome, nat_lt, if◌then◌else◌, ℤ, pos, ◌≤ℤ◌, IsSome};
ghost use Rattle.std.specs.Str.Parse.{AllDigits, digits_value, digits_value_after};
ghost use Rattle.std.specs.List.{prefix_len};
ghost use Rattle.std.specs.Char.{is_ascii_digit};
ghost use Rattle.spd_scaled.specs.declared.decimal.Decimal.{Decimal as DecimalValue};
ghost use Rattle.spd_scaled.specs.Scaled.{IsWithin};
ghost use Rattle.spd_scaled.specs.Decimal.{Writes};
ghost use Rattle.spd_scaled.specs.DecimalReading.{sign_at, digits_at, fraction_at, exponent_at, exponent_step, without_end_zeros as kept_of, lowest_of, read_value, value_step, are_exponent_digits, decimal_of};

/// The number `digits * 10^-places`, or less than zero, `-digits * 10^-places`. As `read_decimal`
/// gives it, it has no zero as its last digit, and zero itself has no sign and no places.
#[derive(Clone, Copy, PartialEq, Eq, Debug)]
pub struct Decimal {
    pub negative: bool,
    pub digits: u128,
    pub places: i128,
}

/// Why a decimal has no number of units.
#[derive(Clone, Copy, PartialEq, Eq, Debug, Drop)]
pub enum Scale {
    /// It is no whole number of units.
    TooFine,
    /// It is a whole number of units, and its magnitude passes 10^30.
    TooLarge,
}

/// The first number of 38 digits, which no digit may follow.
const FULL: u128 = 10_000_000_000_000_000_000_000_000_000_000_000_000;

/// Whether a minus stands first, and what stands behind the sign.
fn split_sign(text: &[u8]) -> (bool, &[u8])
    ensures negative { result.0 ≡ (sign_at text.now).0 }
    ensures rest { result.1.now ≡ (sign_at text.now).1 }
{
    let [first, rest @ ..] = text else {
        return (false, text);
    };
    match *first {
        b'-' => (true, rest),
        b'+' => (false, rest),
        _ => (false, text),
    }
}

fn digits_len(text: &[u8]) -> usize
    ensures { result ≡ prefix_len is_ascii_digit text.now }
{
    text.iter().take_while(|byte| byte.is_ascii_digit()).count()
}

/// The digits that stand first, and what stands behind them.
#[tactic(auto, unfolding(crate::specs::DecimalReading::digits_at))]
fn split_digits(text: &[u8]) -> (&[u8], &[u8])
    ensures digits { result.0.now ≡ (digits_at text.now).0 }
    ensures rest { result.1.now ≡ (digits_at text.now).1 }
{
    text.split_at(digits_len(text))
}

/// The digits behind a point that stands first, and what stands behind them.
fn split_fraction(text: &[u8]) -> (&[u8], &[u8])
    ensures digits { result.0.now ≡ (fraction_at text.now).0 }
    ensures rest { result.1.now ≡ (fraction_at text.now).1 }
{
    let [first, rest @ ..] = text else {
        return (&[], text);
    };
    if *first != b'.' {
        return (&[], text);
    }
    split_digits(rest)
}

/// The number that digits write behind those of `value`, where it has at most 38 digits.
fn with_digits(value: u128, digits: &[u8]) -> Option<u128>
    requires few { value < 10 ^ 38 }
    requires digits { AllDigits 10 digits.now }
    ensures { result ≡ read_value (digits_value_after 10 value digits.now) }
{
    let mut read = value;
    for digit in digits {
        if read >= FULL {
            return None;
        }
        read = read * 10 + (*digit - b'0') as u128;
    }
    Some(read)
}

/// One or two digits, and nothing else.
fn are_exponent_digits(digits: &[u8]) -> bool
    ensures { result ≡ are_exponent_digits digits.now }
{
    !digits.is_empty() && digits.len() <= 2 && digits.iter().all(|byte| byte.is_ascii_digit())
}

/// A sign or none, and one or two digits.
fn exponent_value(text: &[u8]) -> Option<i128>
    ensures value { result ≡ exponent_step (sign_at text.now) }
    ensures bound { IfSome result (λ e. IsWithin (pos 99) e) }
{
    let (negative, digits) = split_sign(text);
    if !are_exponent_digits(digits) {
        return None;
    }
    let magnitude = with_digits(0, digits)? as i128;
    Some(if negative { -magnitude } else { magnitude })
}

/// An exponent that goes up to the end of the text: nothing, or `e` or `E`, and a number.
fn exponent(text: &[u8]) -> Option<i128>
    ensures value { result ≡ exponent_at text.now }
    ensures bound { IfSome result (λ e. IsWithin (pos 99) e) }
{
    let [letter, rest @ ..] = text else {
        return Some(0);
    };
    if *letter != b'e' && *letter != b'E' {
        return None;
    }
    exponent_value(rest)
}

/// The digits up to the last one that is no zero.
fn without_end_zeros(digits: &[u8]) -> &[u8]
    ensures { result.now ≡ kept_of digits.now }
{
    let mut kept = digits;
    while let [front @ .., last] = kept {
        if *last != b'0' {
            break;
        }
        kept = front;
    }
    kept
}

/// The number that the digits of both write in a row, where it has at most 38 digits.
fn significand(whole: &[u8], fraction: &[u8]) -> Option<u128>
    requires whole { AllDigits 10 whole.now }
    requires fraction { AllDigits 10 fraction.now }
    ensures { result ≡ read_value (digits_value 10 (whole.now ++ fraction.now)) }
{
    with_digits(with_digits(0, whole)?, fraction)
}

/// The number `digits * 10^-places`, where zero has no sign and no places.
fn signed(negative: bool, digits: u128, places: i128) -> Decimal
    ensures { Some result ≡ value_step negative places (Some digits) }
{
    if digits == 0 {
        return Decimal {
            negative: false,
            digits,
            places: 0,
        };
    }
    Decimal {
        negative,
        digits,
        places,
    }
}

/// The digits of both in a row up to the last one that is no zero.
fn significant<'a>(whole: &'a [u8], fraction: &'a [u8]) -> (&'a [u8], &'a [u8])
    ensures { result.0.now ++ result.1.now ≡ kept_of (whole.now ++ fraction.now) }
{
    let kept = without_end_zeros(fraction);
    if kept.is_empty() {
        (without_end_zeros(whole), kept)
    } else {
        (whole, kept)
    }
}

/// The number `whole fraction * 10^-places`, with the digits of both in a row, where it has at most 38
/// digits without the zeros at its end.
fn lowest(negative: bool, whole: &[u8], fraction: &[u8], places: i128) -> Option<Decimal>
    requires whole { AllDigits 10 whole.now }
    requires fraction { AllDigits 10 fraction.now }
    requires places { IsWithin (pos (2 ^ 100)) places }
    ensures { result ≡ lowest_of negative (whole.now ++ fraction.now) places }
{
    let (kept_whole, kept_fraction) = significant(whole, fraction);
    let digits = significand(kept_whole, kept_fraction)?;
    let len = whole.len() as i128 + fraction.len() as i128;
    let kept_len = kept_whole.len() as i128 + kept_fraction.len() as i128;
    Some(signed(negative, digits, places - (len - kept_len)))
}

/// The number that a text writes, as far as it has the form of one.
fn number(text: &[u8]) -> Option<Decimal>
    ensures { result ≡ decimal_of text.now }
{
    let (negative, unsigned) = split_sign(text);
    let (whole, after_whole) = split_digits(unsigned);
    let (fraction, after_fraction) = split_fraction(after_whole);
    let exponent = exponent(after_fraction)?;
    if whole.is_empty() && fraction.is_empty() {
        return None;
    }
    lowest(negative, whole, fraction, fraction.len() as i128 - exponent)
}

/// The decimal that a text writes: a sign or none, digits with or without a point, which stands before,
/// between or behind them, and perhaps an exponent, `e` or `E` with a sign or none and one or two
/// digits. Without the zeros before and behind it, the number has at most 38 digits. `None` comes
/// exactly where the text isn't of this form.
pub fn read_decimal(text: &[u8]) -> Option<Decimal>
    ensures reads { result ≡ decimal_of text.now }
    ensures writes { IfSome result (Writes text.now) }
    ensures every { (d : DecimalValue) → Writes text.now d → result ≡ Some d }
{
    number(text)
}
