//! The words for a model file or a certificate that is refused.
ghost use Rattle.std.specs.Prelude.{◌≡◌, ◌++◌};
ghost use Rattle.spd_solver.specs.Message.{want_word, what_words, words_of, place_of, cert_words_of, cert_place_of};

use spd_cert::CertRefusal;
use spd_syntax::{Refusal, Want, What};

/// The place of a refusal: a byte of the file, counted from 0, or the file's length.
pub(crate) fn place_of(refusal: Refusal) -> usize
    ensures { result ≡ place_of refusal }
{
    match refusal {
        Refusal::BadByte { at }
        | Refusal::Expected { at, .. }
        | Refusal::Number { at }
        | Refusal::TooFine { at }
        | Refusal::TooLarge { at }
        | Refusal::Negative { at }
        | Refusal::TooMany { at, .. }
        | Refusal::LeftOut { at }
        | Refusal::Unknown { at }
        | Refusal::Twice { at }
        | Refusal::MissingBranch { at }
        | Refusal::MissingVariable { at, .. }
        | Refusal::Primed { at } => at,
    }
}

/// The word for what is wanted.
fn want_word(want: Want) -> &'static [u8]
    ensures { result.now ≡ want_word want }
{
    match want {
        Want::Variables => b"variables",
        Want::Open => b"open",
        Want::Close => b"close",
        Want::Name => b"name",
        Want::Value => b"value",
        Want::Section => b"section",
        Want::Plus => b"plus",
        Want::EndDd => b"enddd",
        Want::Number => b"number",
    }
}

/// The words for that of which there are too many.
fn what_words(what: What) -> &'static [u8]
    ensures { result.now ≡ what_words what }
{
    match what {
        What::Variables => b"variables",
        What::Values => b"values",
        What::Tests => b"tests",
        What::Actions => b"actions",
        What::Dds => b"dds",
        What::NameBytes => b"name bytes",
        What::Nesting => b"nesting",
    }
}

/// The words for a refusal, in two pieces: what is the matter, and with what.
pub(crate) fn words_of(refusal: Refusal) -> (&'static [u8], &'static [u8])
    ensures { result.0.now ++ result.1.now ≡ words_of refusal }
{
    match refusal {
        Refusal::BadByte { .. } => (b"bad byte", b""),
        Refusal::Expected { want, .. } => (b"expected ", want_word(want)),
        Refusal::Number { .. } => (b"not a number", b""),
        Refusal::TooFine { .. } => (b"too fine", b""),
        Refusal::TooLarge { .. } => (b"too large", b""),
        Refusal::Negative { .. } => (b"negative", b""),
        Refusal::TooMany { what, .. } => (b"too many ", what_words(what)),
        Refusal::LeftOut { .. } => (b"left out", b""),
        Refusal::Unknown { .. } => (b"unknown name", b""),
        Refusal::Twice { .. } => (b"twice", b""),
        Refusal::MissingBranch { .. } => (b"missing branch", b""),
        Refusal::MissingVariable { .. } => (b"missing variable", b""),
        Refusal::Primed { .. } => (b"primed name", b""),
    }
}

/// The place of a certificate's refusal: a byte of it, counted from 0, or its length.
pub(crate) fn cert_place_of(refusal: CertRefusal) -> usize
    ensures { result ≡ cert_place_of refusal }
{
    match refusal {
        CertRefusal::BadByte { at }
        | CertRefusal::Expected { at }
        | CertRefusal::Unknown { at }
        | CertRefusal::Order { at }
        | CertRefusal::Number { at }
        | CertRefusal::End { at } => at,
    }
}

/// The words for a certificate's refusal.
pub(crate) fn cert_words_of(refusal: CertRefusal) -> &'static [u8]
    ensures { result.now ≡ cert_words_of refusal }
{
    match refusal {
        CertRefusal::BadByte { .. } => b"bad byte",
        CertRefusal::Expected { .. } => b"expected",
        CertRefusal::Unknown { .. } => b"unknown name",
        CertRefusal::Order { .. } => b"order",
        CertRefusal::Number { .. } => b"number",
        CertRefusal::End { .. } => b"end",
    }
}
