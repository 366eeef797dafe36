//! Words, each with the space or the LF that ends it.

ghost use Rattle.std.specs.Prelude.{◌≡◌, ◌<◌, length, position, IfSome};
ghost use Rattle.spd_cert.specs.declared.ending.Ending.TheVariants.{Stopped};
ghost use Rattle.spd_cert.specs.Reading.{Gives, seen, is_break, ender_of, word_at, goes_on, ends, followed_by, refused, wanted, keyword, field};

use crate::ending::{Ending, Kind, stop_at};

/// What ends a word.
#[derive(Clone, Copy, PartialEq, Eq, Debug)]
pub(crate) enum Ender {
    Space,
    Line,
}

/// A word of a file.
#[derive(Clone, Copy)]
pub(crate) struct Word<'f> {
    /// How many bytes of the file stand from the word's first byte on.
    pub left: usize,
    pub text: &'f [u8],
    pub ender: Ender,
    /// What stands behind the byte that ends the word.
    pub rest: &'f [u8],
}

/// The place of the first space or LF.
fn break_at(bytes: &[u8]) -> Option<usize>
    ensures place { result ≡ position is_break bytes.now }
    ensures within { IfSome result (λ n. n < length bytes.now) }
{
    bytes
        .iter()
        .position(|byte| *byte == b' ' || *byte == b'\n')
}

/// The word that stands first, up to the first space or LF.
#[tactic(auto, unfolding(crate::specs::Reading::word_at))]
pub(crate) fn word_at(bytes: &[u8]) -> Result<Word<'_>, Ending>
    ensures { Gives seen result (word_at bytes.now) }
{
    match break_at(bytes) {
        None => Err(stop_at(Kind::End, 0)),
        Some(len) => Ok(Word {
            left: bytes.len(),
            text: &bytes[..len],
            ender: ender_of(bytes[len]),
            rest: &bytes[len + 1..],
        }),
    }
}

/// What a space or an LF ends.
fn ender_of(byte: u8) -> Ender
    ensures { result ≡ ender_of byte }
{
    if byte == b'\n' {
        Ender::Line
    } else {
        Ender::Space
    }
}

impl<'f> Word<'f> {
    /// What stands behind a word that another one follows.
    pub(crate) fn goes_on(&self) -> Result<&'f [u8], Ending>
        ensures { Gives (λ rest. rest.now) result (goes_on (seen self.now)) }
    {
        match self.ender {
            Ender::Space => Ok(self.rest),
            Ender::Line => Err(stop_at(Kind::Expected, self.rest.len() + 1)),
        }
    }

    /// What stands behind the last word of a line.
    pub(crate) fn ends(&self) -> Result<&'f [u8], Ending>
        ensures { Gives (λ rest. rest.now) result (ends (seen self.now)) }
    {
        match self.ender {
            Ender::Line => Ok(self.rest),
            Ender::Space => {
                let more = word_at(self.rest)?;
                Err(stop_at(Kind::Expected, more.left))
            }
        }
    }

    /// What stands behind a word that ends so.
    pub(crate) fn followed_by(&self, ender: Ender) -> Result<&'f [u8], Ending>
        ensures { Gives (λ rest. rest.now) result (followed_by ender (seen self.now)) }
    {
        match ender {
            Ender::Space => self.goes_on(),
            Ender::Line => self.ends(),
        }
    }

    /// What is wrong with a word that has no value: an empty one is expected to be another.
    pub(crate) fn refused(&self, kind: Kind) -> Ending
        ensures { result ≡ Stopped (refused (seen self.now) kind) }
    {
        if self.text.is_empty() {
            stop_at(Kind::Expected, self.left)
        } else {
            stop_at(kind, self.left)
        }
    }

    /// The value of a word, where it has one.
    pub(crate) fn wanted<T: Copy>(&self, value: Option<T>, kind: Kind) -> Result<T, Ending>
        ensures { Gives (λ x. x) result (wanted (seen self.now) kind value) }
    {
        match value {
            Some(value) => Ok(value),
            None => Err(self.refused(kind)),
        }
    }
}

/// What stands behind this word of the grammar and a space.
#[tactic(auto, unfolding(crate::specs::Reading::keyword))]
pub(crate) fn keyword<'f>(text: &[u8], bytes: &'f [u8]) -> Result<&'f [u8], Ending>
    ensures { Gives (λ rest. rest.now) result (keyword text.now bytes.now) }
{
    let word = word_at(bytes)?;
    if word.text != text {
        return Err(stop_at(Kind::Expected, word.left));
    }
    word.goes_on()
}

/// The word behind this word of the grammar.
pub(crate) fn field<'f>(text: &[u8], bytes: &'f [u8]) -> Result<Word<'f>, Ending>
    ensures { Gives seen result (field text.now bytes.now) }
{
    let rest = keyword(text, bytes)?;
    word_at(rest)
}
