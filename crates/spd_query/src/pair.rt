//! The words that give variables values.

ghost use Rattle.std.specs.Prelude.{◌≡◌, ◌≤◌, ◌++◌, ◌∷◌, true, length, IfSome, Some, None, MatchOption};
ghost use Rattle.std.specs.List.{position_or_len};
ghost use Rattle.spd_query.specs.Lines.{is_equals, sides_of};
ghost use Rattle.spd_query.specs.inner.Places.{AreVars, ends_word, BeginsWithValue, BeginsWithPair};

use crate::compare::same;
use crate::words::is_blank;
use spd_model::{Name, Var};

/// Whether a word ends where this follows it.
fn ends_word(behind: &[u8]) -> bool
    ensures { result ≡ ends_word behind.now }
{
    match behind {
        [] => true,
        [first, ..] => is_blank(*first),
    }
}

/// What stands behind a value, where a text begins with it and its word ends there.
#[inline(always)]
fn behind_value<'a>(text: &'a [u8], value: &[u8]) -> Option<&'a [u8]>
    ensures begins { IfSome result (λ behind. text.now ≡ value.now ++ behind.now) }
    ensures ends { IfSome result (λ behind. ends_word behind.now ≡ true) }
{
    if text.len() < value.len() {
        return None;
    }
    let (front, behind) = text.split_at(value.len());
    if ends_word(behind) && same(front, value) {
        Some(behind)
    } else {
        None
    }
}

/// The number of the value that is the rest of a word, and what stands behind it, where there is one.
#[inline(always)]
fn value_at<'a>(values: &[Name], text: &'a [u8]) -> Option<(u8, &'a [u8])>
    requires { length values.now ≤ 64 }
    ensures { IfSome result (λ r. BeginsWithValue values.now text.now r.0 r.1.now) }
{
    for (number, value) in values.iter().enumerate() {
        if let Some(behind) = behind_value(text, value.as_slice()) {
            return Some((number as u8, behind));
        }
    }
    None
}

/// What stands behind a name and its `=`, where a line begins with these.
#[inline(always)]
fn behind_name<'a>(line: &'a [u8], name: &[u8]) -> Option<&'a [u8]>
    ensures { IfSome result (λ text. line.now ≡ name.now ++ 61 ∷ text.now) }
{
    if line.len() <= name.len() {
        return None;
    }
    let (front, behind) = line.split_at(name.len());
    let (first, text) = behind.split_first()?;
    if *first == b'=' && same(front, name) {
        Some(text)
    } else {
        None
    }
}

/// The value that the first word of a line gives the variable of this number, and what stands behind the word, where it names that variable
/// and one of its values. It reads the line only as far as they agree.
#[inline(always)]
pub(crate) fn pair_at<'a>(vars: &[Var], number: usize, line: &'a [u8]) -> Option<(u8, &'a [u8])>
    requires { AreVars vars.now }
    ensures { IfSome result (λ r. BeginsWithPair vars.now line.now (number, r.0) r.1.now) }
{
    if number >= vars.len() {
        return None;
    }
    let var = &vars[number];
    let text = behind_name(line, var.name.as_slice())?;
    value_at(var.values.as_slice(), text)
}

/// The place of the first `=` of a word, or its length where there is none.
fn equals_at(word: &[u8]) -> usize
    ensures first { result ≡ position_or_len is_equals word.now }
    ensures within { result ≤ length word.now }
{
    let mut at = 0;
    while at < word.len() && word[at] != b'=' {
        at += 1;
    }
    at
}

/// What stands before and behind the one `=` of a word.
pub(crate) fn sides(word: &[u8]) -> Option<(&[u8], &[u8])>
    ensures { MatchOption result (sides_of word.now ≡ None) (λ r. sides_of word.now ≡ Some (r.0.now, r.1.now)) }
{
    let at = equals_at(word);
    if at == 0 || word.len() - at < 2 {
        return None;
    }
    let (name, value) = (&word[..at], &word[at + 1..]);
    if equals_at(value) < value.len() {
        return None;
    }
    Some((name, value))
}
