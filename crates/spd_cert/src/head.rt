//! The lines before the place of the residual, and lines of one value.

ghost use Rattle.std.specs.Prelude.{◌≡◌, ◌≤◌, codes};
ghost use Rattle.spd_cert.specs.Reading.{Gives, version_at, digest_at, why_at, turn_at, distance_at, head_at};
ghost use Rattle.spd_cert.specs.Words.{digest_of};
ghost use Rattle.hex.specs.Hex.{encode_lower};

use crate::ending::{Ending, Kind};
use crate::names::{version_of, why_of};
use crate::numbers::{distance_of, whole_in};
use crate::word::{field, keyword};
use hex::{decode_to_slice, encode_to_slice};
use spd_model::Why;

/// What the lines before the place of the residual say.
#[derive(Drop)]
pub(crate) struct Head {
    pub version: u8,
    pub digest: Option<[u8; 32]>,
    pub why: Why,
    pub turn: u32,
    pub residual: i128,
}

/// The 32 bytes whose hexadecimal digits, in lower case, a word is.
#[tactic(auto, unfolding(crate::specs::Words::digest_of))]
pub(crate) fn digest_of(text: &[u8]) -> Option<[u8; 32]>
    ensures { result ≡ digest_of text.now }
{
    let mut digest = [0; 32];
    if decode_to_slice(text, &mut digest).is_err() {
        return None;
    }
    if hexadecimal(&digest).as_slice() != text {
        return None;
    }
    Some(digest)
}

/// The 64 hexadecimal digits of a digest, in lower case.
fn hexadecimal(digest: &[u8; 32]) -> [u8; 64]
    ensures { result ≡ encode_lower digest.now }
{
    let mut text = [0; 64];
    let _ = encode_to_slice(digest.as_slice(), &mut text);
    text
}

/// The line of the version.
#[tactic(auto, unfolding(crate::specs::Reading::version_at, crate::specs::Reading::field_at))]
pub(crate) fn version_at(bytes: &[u8]) -> Result<(u8, &[u8]), Ending>
    ensures { Gives (λ x. (x.0, x.1.now)) result (version_at bytes.now) }
{
    let rest = keyword(b"spd", bytes)?;
    let word = field(b"result", rest)?;
    let version = word.wanted(version_of(word.text), Kind::Expected)?;
    Ok((version, word.ends()?))
}

/// The line of the digest, which version 2 has.
#[tactic(auto, unfolding(crate::specs::Reading::digest_at, crate::specs::Reading::field_at))]
pub(crate) fn digest_at(version: u8, bytes: &[u8]) -> Result<(Option<[u8; 32]>, &[u8]), Ending>
    ensures { Gives (λ x. (x.0, x.1.now)) result (digest_at version bytes.now) }
{
    if version == 1 {
        return Ok((None, bytes));
    }
    let word = field(b"model", bytes)?;
    let digest = word.wanted(digest_of(word.text), Kind::Expected)?;
    Ok((Some(digest), word.ends()?))
}

/// The line that says why the run ended.
#[tactic(auto, unfolding(crate::specs::Reading::why_at, crate::specs::Reading::field_at))]
fn why_at(bytes: &[u8]) -> Result<(Why, &[u8]), Ending>
    ensures { Gives (λ x. (x.0, x.1.now)) result (why_at bytes.now) }
{
    let word = field(b"status", bytes)?;
    let why = word.wanted(why_of(word.text), Kind::Expected)?;
    Ok((why, word.ends()?))
}

/// The line of the turn's number.
#[tactic(auto, unfolding(crate::specs::Reading::turn_at, crate::specs::Reading::field_at))]
fn turn_at(bytes: &[u8]) -> Result<(u32, &[u8]), Ending>
    ensures { Gives (λ x. (x.0, x.1.now)) result (turn_at bytes.now) }
{
    let word = field(b"turn", bytes)?;
    let turn = word.wanted(whole_in(0, 1_000_000, word.text), Kind::Number)?;
    Ok((turn, word.ends()?))
}

/// The line of a residual or an error, which begins with this word.
#[tactic(auto, unfolding(crate::specs::Reading::distance_at, crate::specs::Reading::field_at))]
pub(crate) fn distance_at<'f>(text: &[u8], bytes: &'f [u8]) -> Result<(i128, &'f [u8]), Ending>
    ensures { Gives (λ x. (x.0, x.1.now)) result (distance_at text.now bytes.now) }
{
    let word = field(text, bytes)?;
    let distance = word.wanted(distance_of(word.text), Kind::Number)?;
    Ok((distance, word.ends()?))
}

/// The lines before the place of the residual.
#[tactic(auto, unfolding(crate::specs::Reading::head_at))]
pub(crate) fn head_at(bytes: &[u8]) -> Result<(Head, &[u8]), Ending>
    ensures { Gives (λ x. (x.0, x.1.now)) result (head_at bytes.now) }
{
    let (version, rest) = version_at(bytes)?;
    let (digest, rest) = digest_at(version, rest)?;
    let (why, rest) = why_at(rest)?;
    let (turn, rest) = turn_at(rest)?;
    let (residual, rest) = distance_at(b"residual", rest)?;
    Ok((
        Head {
            version,
            digest,
            why,
            turn,
            residual,
        },
        rest,
    ))
}
