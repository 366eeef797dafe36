//! Words that are numbers.

ghost use Rattle.std.specs.Prelude.{◌≡◌, ◌<◌, ◌≤◌, ◌^◌, length, IfSome};
ghost use Rattle.std.specs.List.{list_all};
ghost use Rattle.std.specs.Char.{is_ascii_digit};
ghost use Rattle.std.specs.Str.Parse.{AllDigits, digits_value};
ghost use Rattle.spd_cert.specs.Words.{is_whole, whole_in, number_below, units_of, distance_of, value_of};

use spd_scaled::{read_decimal, scale};

fn are_digits(text: &[u8]) -> bool
    ensures { result ≡ list_all is_ascii_digit text.now }
{
    text.iter().all(|byte| byte.is_ascii_digit())
}

/// Whether a word is digits without a leading zero, but for 0 itself.
pub(crate) fn is_whole(text: &[u8]) -> bool
    ensures { result ≡ is_whole text.now }
{
    !text.is_empty() && are_digits(text) && (text[0] != b'0' || text.len() == 1)
}

/// The number that at most ten digits write.
fn digits_value(digits: &[u8]) -> u64
    requires digits { AllDigits 10 digits.now }
    requires few { length digits.now ≤ 10 }
    ensures { result ≡ digits_value 10 digits.now }
{
    let mut read = 0;
    for digit in digits {
        read = read * 10 + (*digit - b'0') as u64;
    }
    read
}

/// The number from `low` to `high` that a word writes.
#[tactic(auto, unfolding(crate::specs::Words::whole_in))]
pub(crate) fn whole_in(low: u32, high: u32, text: &[u8]) -> Option<u32>
    ensures { result ≡ whole_in low high text.now }
{
    if !is_whole(text) || text.len() > 10 {
        return None;
    }
    let number = digits_value(text);
    if number < low as u64 || number > high as u64 {
        return None;
    }
    Some(number as u32)
}

/// The number below `end` that digits write.
#[tactic(auto, unfolding(crate::specs::Words::number_below))]
pub(crate) fn number_below(end: usize, text: &[u8]) -> Option<u32>
    requires digits { AllDigits 10 text.now }
    requires few { end ≤ 2 ^ 32 }
    ensures number { result ≡ number_below end text.now }
    ensures within { IfSome result (λ n. n < end) }
{
    if text.len() > 10 {
        return None;
    }
    let number = digits_value(text);
    if number >= end as u64 {
        return None;
    }
    Some(number as u32)
}

/// The number of units of 10^-9 that a decimal writes.
#[tactic(auto, unfolding(crate::specs::Words::units_of))]
fn units_of(text: &[u8]) -> Option<i128>
    ensures { result ≡ units_of text.now }
{
    let decimal = read_decimal(text)?;
    match scale(&decimal, 9) {
        Ok(units) => Some(units),
        Err(_) => None,
    }
}

/// The same of a residual or an error, which isn't below zero.
pub(crate) fn distance_of(text: &[u8]) -> Option<i128>
    ensures { result ≡ distance_of text.now }
{
    match units_of(text) {
        Some(units) if units >= 0 => Some(units),
        _ => None,
    }
}

/// The most that a leaf of a value may be above or below zero, in units of 10^-9.
const VALUE_LIMIT: u128 = 1_000_000_000_000_000_001_000_000;

/// The same of a leaf of a value.
pub(crate) fn value_of(text: &[u8]) -> Option<i128>
    ensures { result ≡ value_of text.now }
{
    match units_of(text) {
        Some(units) if units.unsigned_abs() <= VALUE_LIMIT => Some(units),
        _ => None,
    }
}
