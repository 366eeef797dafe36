//! What a person is told of a file that is refused.
ghost use Rattle.std.specs.Prelude.{◌≡◌, ◌≤◌, ◌+◌, ◌-◌, ◌++◌, List, ℕ, length, OnOk};
ghost use Rattle.spd_help.specs.Lines.{ShowsPlace};
ghost use Rattle.spd_help.specs.Places.{place_of};

use crate::expected::tell_expected;
use crate::names::{tell_branch, tell_primed, tell_tree, tell_twice, tell_unknown};
use crate::place::add_place;
use crate::quantity::{not_a_number, quantity_of};
use crate::screen::Screen;
use crate::source::{Source, source_of};
use spd_syntax::{Refusal, What};
use std::alloc::{AllocError, Global};

/// What is told of bytes that can't stand outside comments.
fn byte_sentence(at: usize, here: &[u8]) -> &'static [u8] {
    match here {
        [0xef, 0xbb, 0xbf, ..] => b"  The file begins with a byte order mark: save it without one.",
        [0xff, 0xfe, ..] | [0xfe, 0xff, ..] =>
            b"  The file is in UTF-16: save it as ASCII or UTF-8.",
        [0, ..] if at < 2 => b"  The file is in UTF-16: save it as ASCII or UTF-8.",
        [0xc2, 0xa0, ..] => b"  A no-break space stands here: write a blank.",
        [0xe2, 0x80, 0x90..=0x95, ..] | [0xe2, 0x88, 0x92, ..] => {
            b"  A dash or minus that isn't `-` stands here."
        }
        [0xe2, 0x80, 0x98..=0x9f, ..] => b"  A name is written without quotation marks.",
        [0x80..=0xff, ..] =>
            b"  Outside comments only ASCII stands: letters without accents, digits, `_` and `-`.",
        _ => b"  A control byte stands here.",
    }
}

/// What is told of a limit.
fn limit_sentence(what: What) -> &'static [u8] {
    match what {
        What::Variables => b"  A model has at most 100 variables.",
        What::Values => b"  A variable has at most 64 values.",
        What::Tests =>
            b"  The values of all variables, less one for each variable, are at most 256.",
        What::Actions => b"  A model has at most 64 actions.",
        What::Dds => b"  A model has at most 4096 decision diagrams.",
        What::NameBytes => b"  A name has at most 64 bytes.",
        What::Nesting =>
            b"  A tree is at most 300 deep: a branch is one deeper than its deepest tree.",
    }
}

/// Tells what would mend a file, by why it is refused.
fn tell(
    alloc: Global,
    screen: &mut Screen,
    bytes: &[u8],
    source: &Source<'_>,
    refusal: Refusal,
) -> Result<(), AllocError> {
    match refusal {
        Refusal::BadByte { at } => screen.line(&[byte_sentence(
            at,
            bytes.get(at..).unwrap_or(&[]),
        )]),
        Refusal::Expected { at, want } => tell_expected(screen, source, source.at(at), want),
        Refusal::Number { at } => screen.line(&[not_a_number(source.text(source.at(at)))]),
        Refusal::TooFine { at } => screen.line(&[quantity_of(source, source.at(at)).places()]),
        Refusal::TooLarge { at } => screen.line(&[quantity_of(source, source.at(at)).greatest()]),
        Refusal::Negative { at } => screen.line(&[quantity_of(source, source.at(at)).least()]),
        Refusal::TooMany { what, .. } => screen.line(&[limit_sentence(what)]),
        Refusal::LeftOut { .. } => screen.line(&[
            b"  This word of the SPUDD format isn't taken: states to begin in, observations, products and differences of trees.",
        ]),
        Refusal::Unknown { at } => tell_unknown(alloc, screen, source, source.at(at)),
        Refusal::Twice { at } => tell_twice(screen, bytes, source, source.at(at)),
        Refusal::MissingBranch { at } => tell_branch(alloc, screen, source, source.at(at)),
        Refusal::MissingVariable { var, .. } => tell_tree(alloc, screen, source, var),
        Refusal::Primed { at } => tell_primed(screen, source, source.at(at)),
    }
}

/// The place of a refusal.
fn place_of(refusal: Refusal) -> usize
    ensures { result ≡ place_of refusal }
{
    match refusal {
        Refusal::BadByte { at }
        | Refusal::Expected { at, .. }
        | Refusal::Number { at }
        | Refusal::TooFine { at }
        | Refusal::TooLarge { at }
        | Refusal::Negative { at }
        | Refusal::TooMany { at, .. }
        | Refusal::LeftOut { at }
        | Refusal::Unknown { at }
        | Refusal::Twice { at }
        | Refusal::MissingBranch { at }
        | Refusal::MissingVariable { at, .. }
        | Refusal::Primed { at } => at,
    }
}

/// What would mend a file, by why it is refused.
fn advice(alloc: Global, bytes: &[u8], refusal: Refusal) -> Result<Screen, AllocError> {
    let mut screen = Screen::new(alloc);
    let source = source_of(alloc, bytes)?;
    tell(alloc, &mut screen, bytes, &source, refusal)?;
    Ok(screen)
}

/// Adds where a file is refused, and behind it a sentence that says what would mend it. A place behind the file's end, as it comes where the
/// bytes aren't those that were refused, adds nothing.
pub fn tell_refusal(
    alloc: Global,
    screen: &mut Screen,
    name: &[u8],
    bytes: &[u8],
    refusal: Refusal,
) -> Result<(), AllocError>
    ensures place { OnOk result (place_of refusal ≤ length bytes.now → ShowsPlace name.now bytes.now (place_of refusal) screen.old screen.new) }
    ensures elsewhere { length bytes.now + 1 ≤ place_of refusal → screen.new ≡ screen.old }
{
    let at = place_of(refusal);
    if at > bytes.len() {
        return Ok(());
    }
    let advice = advice(alloc, bytes, refusal)?;
    add_place(screen, name, bytes, at)?;
    screen.append(&advice)
}
