//! The parts of a word.

ghost use Rattle.std.specs.Prelude.{◌≡◌, ◌<◌, ◌==◌, length, None, Some, MatchOption, OnSome, position, unwrap_or};
ghost use Rattle.spd_words.specs.Pieces.{is_option, halves};
ghost use Rattle.spd_words.specs.Standing.{text_at};

use spd_model::Word;

/// Whether a word begins with `-` and isn't `-`.
pub(crate) fn is_option(word: &[u8]) -> bool
    ensures { result ≡ is_option word.now }
{
    match word {
        [first, _, ..] => *first == b'-',
        _ => false,
    }
}

/// Where the first `=` stands.
fn equals_at(word: &[u8]) -> Option<usize>
    ensures at { result ≡ position (λ byte. byte == 61) word.now }
    ensures within { OnSome result (unwrap_or result 0 < length word.now) }
{
    word.iter().position(|byte| *byte == b'=')
}

/// What stands before and behind the first `=`.
pub(crate) fn halves(word: &[u8]) -> Option<(&[u8], &[u8])>
    ensures { MatchOption result (halves word.now ≡ None) (λ parts. halves word.now ≡ Some (parts.0.now, parts.1.now)) }
{
    match equals_at(word) {
        Some(equals) => Some((&word[..equals], &word[equals + 1..])),
        None => None,
    }
}

/// The word of this number, or no bytes where there is none.
pub fn text_at(words: &[Word], at: usize) -> &[u8]
    ensures { result.now ≡ text_at words.now at }
{
    match words.get(at) {
        Some(word) => word.as_slice(),
        None => &[],
    }
}
