//! The values of options and operands.

ghost use Rattle.std.specs.Prelude.{◌≡◌, ◌≤◌, length};
ghost use Rattle.std.specs.List.{list_all};
ghost use Rattle.std.specs.Char.{is_ascii_digit};
ghost use Rattle.std.specs.Str.Parse.{AllDigits, digits_value};
ghost use Rattle.spd_words.specs.Values.{is_number, number_in, span_of};

use spd_scaled::{read_decimal, scale};

fn are_digits(text: &[u8]) -> bool
    ensures { result ≡ list_all is_ascii_digit text.now }
{
    text.iter().all(|byte| byte.is_ascii_digit())
}

/// Whether a text is one to ten digits.
fn is_number(text: &[u8]) -> bool
    ensures { result ≡ is_number text.now }
{
    !text.is_empty() && text.len() <= 10 && are_digits(text)
}

/// The number that the digits write.
fn digits_value(digits: &[u8]) -> u64
    requires digits { AllDigits 10 digits.now }
    requires few { length digits.now ≤ 10 }
    ensures { result ≡ digits_value 10 digits.now }
{
    let mut read = 0;
    for digit in digits {
        read = read * 10 + (*digit - b'0') as u64;
    }
    read
}

/// The number from `low` to `high` that a text writes in one to ten digits.
#[tactic(auto, unfolding(crate::specs::Values::number_in))]
pub(crate) fn number_in(low: u32, high: u32, text: &[u8]) -> Option<u32>
    ensures { result ≡ number_in low high text.now }
{
    if !is_number(text) {
        return None;
    }
    let number = digits_value(text);
    if number < low as u64 || number > high as u64 {
        return None;
    }
    Some(number as u32)
}

/// The number of units of 10^-9, not below zero and at most 10^30, that a decimal writes.
#[tactic(auto, unfolding(crate::specs::Values::span_of))]
pub(crate) fn span_of(text: &[u8]) -> Option<i128>
    ensures { result ≡ span_of text.now }
{
    let decimal = read_decimal(text)?;
    match scale(&decimal, 9) {
        Ok(units) if units >= 0 => Some(units),
        _ => None,
    }
}
