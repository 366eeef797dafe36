//! Words: which of them are names, and where they are judged.

ghost use Rattle.std.specs.Prelude.{◌≡◌, ◌<◌, length, not, ◌&&◌, ◌||◌, ◌==◌};
ghost use Rattle.std.specs.Str.{bytes_eq};
ghost use Rattle.std.specs.List.{list_any, list_all};
ghost use Rattle.std.specs.Char.{is_ascii_alphanumeric};
ghost use Rattle.spd_model.specs.Names.{reserved_words, has_name_form, has_value_form};
ghost use Rattle.spd_syntax.specs.Words.{text_of, begins, begins_name, begins_value, begins_number, is_name_form, is_reserved, name_passes, value_passes, is_number_word, is_primed, front_of, unmarked};

use crate::file::Word;
use crate::refusal::{Refusal, Want, What};

/// The words of the grammar, which are no names.
const RESERVED: [&[u8]; 10] = [
    b"variables",
    b"dd",
    b"enddd",
    b"action",
    b"endaction",
    b"cost",
    b"reward",
    b"discount",
    b"tolerance",
    b"horizon",
];

/// Whether a word is this one.
pub(crate) fn says(text: &[u8], word: &[u8]) -> bool
    ensures { result ≡ bytes_eq text.now word.now }
{
    text == word
}

fn is_among(word: &[u8], words: &[&[u8]]) -> bool
    ensures { result ≡ list_any (λ other. bytes_eq word.now other.now) words.now }
{
    words.iter().any(|other| word == *other)
}

fn is_reserved(word: &[u8]) -> bool
    ensures { result ≡ list_any (bytes_eq word.now) reserved_words }
{
    is_among(word, &RESERVED)
}

fn is_name_byte(byte: u8) -> bool
    ensures { result ≡ (is_ascii_alphanumeric byte || (byte == 95 || byte == 45)) }
{
    byte.is_ascii_alphanumeric() || byte == b'_' || byte == b'-'
}

fn are_name_bytes(bytes: &[u8]) -> bool
    ensures { result ≡ list_all (λ d. is_ascii_alphanumeric d || (d == 95 || d == 45)) bytes.now }
{
    bytes.iter().all(|byte| is_name_byte(*byte))
}

fn begins_name(text: &[u8]) -> bool
    ensures { result ≡ begins begins_name text.now }
{
    match text {
        [] => false,
        [first, ..] => first.is_ascii_alphabetic() || *first == b'_',
    }
}

fn has_name_form(text: &[u8]) -> bool
    ensures { result ≡ has_name_form text.now }
{
    match text {
        [] => false,
        [first, others @ ..] => {
            (first.is_ascii_alphabetic() || *first == b'_') && are_name_bytes(others)
        }
    }
}

fn are_value_bytes(bytes: &[u8]) -> bool
    ensures { result ≡ list_all (λ d. is_ascii_alphanumeric d || (d == 95 || (d == 45 || d == 46))) bytes.now }
{
    bytes
        .iter()
        .all(|byte| is_name_byte(*byte) || *byte == b'.')
}

fn begins_value(text: &[u8]) -> bool
    ensures { result ≡ begins begins_value text.now }
{
    match text {
        [] => false,
        [first, ..] => first.is_ascii_alphanumeric() || *first == b'_',
    }
}

fn has_value_form(text: &[u8]) -> bool
    ensures { result ≡ has_value_form text.now }
{
    match text {
        [] => false,
        [first, others @ ..] => {
            (first.is_ascii_alphanumeric() || *first == b'_') && are_value_bytes(others)
        }
    }
}

/// Judges a word in the place of a name: its first byte, then its length, then the rest.
#[tactic(auto, unfolding(crate::specs::Words::name_passes))]
pub(crate) fn name_passes(want: Want, at: usize, text: &[u8]) -> Result<(), Refusal>
    ensures { result ≡ name_passes want at text.now }
{
    if !begins_name(text) {
        return Err(Refusal::Expected { at, want });
    }
    if text.len() > 64 {
        return Err(Refusal::TooMany {
            at,
            what: What::NameBytes,
        });
    }
    if !has_name_form(text) || is_reserved(text) {
        return Err(Refusal::Expected { at, want });
    }
    Ok(())
}

/// Judges a word in the place of a value's name.
#[tactic(auto, unfolding(crate::specs::Words::value_passes))]
pub(crate) fn value_passes(want: Want, at: usize, text: &[u8]) -> Result<(), Refusal>
    ensures { result ≡ value_passes want at text.now }
{
    if !begins_value(text) {
        return Err(Refusal::Expected { at, want });
    }
    if text.len() > 64 {
        return Err(Refusal::TooMany {
            at,
            what: What::NameBytes,
        });
    }
    if !has_value_form(text) {
        return Err(Refusal::Expected { at, want });
    }
    Ok(())
}

/// Where a tree's inside begins: a word that begins as a number is one.
#[tactic(auto, unfolding(crate::specs::Words::is_number_word))]
pub(crate) fn is_number_word(text: &[u8]) -> bool
    ensures { result ≡ is_number_word text.now }
{
    match text {
        [] => false,
        [first, ..] => matches!(*first, b'0'..=b'9' | b'+' | b'-' | b'.'),
    }
}

/// Whether a word ends in the mark of a primed name.
#[tactic(auto, unfolding(crate::specs::Words::is_primed))]
pub(crate) fn is_primed(text: &[u8]) -> bool
    ensures { result ≡ is_primed text.now }
{
    match text {
        [] => false,
        [.., last] => *last == b'\'',
    }
}

/// The text without its last byte.
pub(crate) fn front_of(text: &[u8]) -> &[u8]
    requires { 0 < length text.now }
    ensures { result.now ≡ front_of text.now }
{
    &text[..text.len() - 1]
}

/// The word without the mark of a primed name.
pub(crate) fn unmarked(primed: bool, word: Word) -> Word
    ensures { result ≡ unmarked primed word }
{
    let to = if primed {
        word.to.saturating_sub(1)
    } else {
        word.to
    };
    Word {
        from: word.from,
        to,
    }
}

/// The bytes of a word, as far as the file has them.
pub fn text_of(file: &[u8], word: Word) -> &[u8]
    ensures { result.now ≡ text_of file.now word }
{
    let (_, back) = file.split_at(file.len().min(word.from as usize));
    let len = word.to.saturating_sub(word.from) as usize;
    let (text, _) = back.split_at(back.len().min(len));
    text
}
