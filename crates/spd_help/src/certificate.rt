//! What a person is told of a certificate that is refused, that names another model file, or that doesn't hold.
ghost use Rattle.std.specs.Prelude.{◌≡◌, ◌≤◌, ◌+◌, ◌++◌, length, OnOk};
ghost use Rattle.hex.specs.Hex.{encode_lower};
ghost use Rattle.spd_help.specs.Lines.{ShowsPlace};
ghost use Rattle.spd_help.specs.Places.{place_in_cert};
ghost use Rattle.spd_help.specs.Digests.{ShowsDigests, digest_line};

use crate::place::{add_place, line_at};
use crate::screen::Screen;
use hex::encode_to_slice;
use spd_cert::CertRefusal;
use std::alloc::AllocError;

/// What a line of a certificate is.
#[derive(Clone, Copy)]
enum Row {
    Title,
    Model,
    Status,
    Turn,
    Residual,
    Place,
    Error,
    Value,
    /// All behind the line `value`: nodes, the line `policy` and the line `end`.
    Nodes,
}

/// What the line of a place is, or has to be. Only a certificate of version 2 has a line `model`.
fn row_at(bytes: &[u8], at: usize) -> Row
    requires { at ≤ length bytes.now }
{
    match (
        line_at(bytes, at).number,
        bytes.starts_with(b"spd result 2\n"),
    ) {
        (1, _) => Row::Title,
        (2, true) => Row::Model,
        (2, false) | (3, true) => Row::Status,
        (3, false) | (4, true) => Row::Turn,
        (4, false) | (5, true) => Row::Residual,
        (5, false) | (6, true) => Row::Place,
        (6, false) | (7, true) => Row::Error,
        (7, false) | (8, true) => Row::Value,
        _ => Row::Nodes,
    }
}

/// What stands on a line.
fn row_sentence(row: Row) -> &'static [u8] {
    match row {
        Row::Title => b"  A certificate begins with the line `spd result 1` or `spd result 2`.",
        Row::Model =>
            b"  Behind `spd result 2` stands `model` with the SHA-256 of the model file, 64 digits of `0` to `9` and `a` to `f`.",
        Row::Status => b"  Here stands `status done` or `status limit`.",
        Row::Turn => b"  Here stands `turn` with a whole number from 0 to 1000000.",
        Row::Residual =>
            b"  Here stands `residual` with a decimal from 0 to 10^21 of at most 9 places.",
        Row::Place =>
            b"  Here stands `at` with `variable=value` for each variable in the model file's order, `above` or `below`, and an action.",
        Row::Error => b"  Here stands `error` with a decimal from 0 to 10^21 of at most 9 places.",
        Row::Value =>
            b"  Here stands `value` with the number of nodes that follow: 1 to 999999999.",
        Row::Nodes =>
            b"  Here stands the next node, as `0 leaf 1.5` or `2 branch x 0 1`, or behind a list's last one `policy` with the number of nodes, or `end`.",
    }
}

/// What is told where a word or a line isn't of the form.
fn expected_sentence(bytes: &[u8], at: usize) -> &'static [u8]
    requires { at ≤ length bytes.now }
{
    match bytes.get(at) {
        Some(b' ' | b'\n') =>
            b"  A word is missing here: one space stands between two words, and none at a line's end.",
        _ => row_sentence(row_at(bytes, at)),
    }
}

/// What is told of a number that isn't of its form or range.
fn number_sentence(row: Row) -> &'static [u8] {
    match row {
        Row::Nodes =>
            b"  A leaf of the value is a decimal of at most 9 places up to 10^15; the number of a node is digits without a leading zero.",
        _ => row_sentence(row),
    }
}

/// What would mend a certificate, by why it is refused at a place of it.
fn sentence(bytes: &[u8], refusal: CertRefusal) -> &'static [u8]
    requires { place_in_cert refusal ≤ length bytes.now }
{
    match refusal {
        CertRefusal::BadByte { .. } =>
            b"  A certificate is printable ASCII, and its lines end in LF: no tab, no CR, no letter with an accent.",
        CertRefusal::Expected { at } => expected_sentence(bytes, at),
        CertRefusal::Unknown { .. } =>
            b"  The model has no variable, value or action of this name here; `at` names its variables in their order.",
        CertRefusal::Order { .. } =>
            b"  A branch goes on with nodes above it in the list, which are leaves or branch on a later variable of the model file.",
        CertRefusal::Number { at } => number_sentence(row_at(bytes, at)),
        CertRefusal::End { at } => {
            if at < bytes.len() {
                b"  A certificate ends with the line `end`."
            } else {
                b"  The certificate is cut off here: its last line is `end`, with an LF."
            }
        }
    }
}

/// The place of a refusal.
fn place_of(refusal: CertRefusal) -> usize
    ensures { result ≡ place_in_cert refusal }
{
    match refusal {
        CertRefusal::BadByte { at }
        | CertRefusal::Expected { at }
        | CertRefusal::Unknown { at }
        | CertRefusal::Order { at }
        | CertRefusal::Number { at }
        | CertRefusal::End { at } => at,
    }
}

/// Adds where a certificate is refused, and behind it a sentence that says what stands there. A place behind the file's end, as it comes where
/// the bytes aren't those that were refused, adds nothing.
pub fn tell_cert_refusal(
    screen: &mut Screen,
    name: &[u8],
    bytes: &[u8],
    refusal: CertRefusal,
) -> Result<(), AllocError>
    ensures place { OnOk result (place_in_cert refusal ≤ length bytes.now → ShowsPlace name.now bytes.now (place_in_cert refusal) screen.old screen.new) }
    ensures elsewhere { length bytes.now + 1 ≤ place_in_cert refusal → screen.new ≡ screen.old }
{
    let at = place_of(refusal);
    if at > bytes.len() {
        return Ok(());
    }
    add_place(screen, name, bytes, at)?;
    screen.line(&[sentence(bytes, refusal)])
}

/// The 64 hexadecimal digits of a digest, in lower case.
fn hexadecimal(digest: &[u8; 32]) -> [u8; 64]
    ensures { result ≡ encode_lower digest.now }
{
    let mut text = [0; 64];
    let _ = encode_to_slice(digest.as_slice(), &mut text);
    text
}

/// Adds a digest on a line of its own.
fn add_digest(screen: &mut Screen, digest: &[u8; 32]) -> Result<(), AllocError>
    ensures { OnOk result (screen.new ≡ screen.old ++ digest_line digest.now) }
{
    let digits = hexadecimal(digest);
    screen.line(&[b"    ", &digits])
}

/// Adds which model file a certificate names, `found`, which one was given, `wanted`, each by its SHA-256, and what to do.
pub fn tell_other_model(
    screen: &mut Screen,
    name: &[u8],
    found: &[u8; 32],
    wanted: &[u8; 32],
) -> Result<(), AllocError>
    ensures { OnOk result (ShowsDigests found.now wanted.now screen.old screen.new) }
{
    screen.line(&[
        b"  The SHA-256 of the model file that it is of, and below it that of ",
        name,
        b":",
    ])?;
    add_digest(screen, found)?;
    add_digest(screen, wanted)?;
    screen.line(&[
        b"  Give the file that it is of. To judge it for another one, make `spd result 1` its first line, and take out the line `model`.",
    ])
}

/// Adds what it means that a certificate doesn't hold, and what to try.
pub fn tell_no(screen: &mut Screen) -> Result<(), AllocError> {
    screen.line(&[
        b"  At the state that was printed one step more lies further from the value than the residual: above it by this action, or below it by the policy's.",
    ])?;
    screen.line(&[
        b"  That says nothing of how near the value is: with a larger residual the same value and policy may hold.",
    ])
}
