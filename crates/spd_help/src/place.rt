//! Where a byte of a file stands: line, column, and the line itself with a caret below the byte.
ghost use Rattle.std.specs.Prelude.{◌≡◌, ◌≢◌, ◌⊎◌, ℕ, ◌+◌, ◌-◌, ◌^◌, ◌<◌, ◌≤◌, ◌==◌, ◌∷◌, ◌++◌, [], length, take, count_by, slice_index, replicate, OnOk};
ghost use Rattle.spd_help.specs.Shown.{shown, shown_byte};
ghost use Rattle.spd_help.specs.Lines.{IsLineAt, heading_text, line_text, caret_text, place_text, before, behind, lead, left_of, right_of, tail};
ghost use Rattle.spd_help.specs.declared.place.Line.{Line as LineValue};

use crate::screen::Screen;
use itoa::Buffer;
use std::alloc::AllocError;

/// A line of a file.
#[derive(Clone, Copy, PartialEq, Eq, Debug)]
pub struct Line {
    /// Its number, counted from 1.
    pub number: usize,
    /// The place of its first byte, counted from 0.
    pub start: usize,
    /// The place behind its last byte: that of its LF, or the end of the file.
    pub end: usize,
}

/// The number of the line on which a place stands, and the place where that line begins.
fn start_of(bytes: &[u8], at: usize) -> (usize, usize)
    requires { at ≤ length bytes.now }
    ensures number { result.0 ≡ 1 + count_by (λ byte. byte == 10) (take at bytes.now) }
    ensures starts { (result.1 ≡ 0) ⊎ ((0 < result.1) × (slice_index bytes.now (result.1 - 1) ≡ 10)) }
    ensures before { result.1 ≤ at }
    ensures whole { (k : ℕ) → result.1 ≤ k → k < at → slice_index bytes.now k ≢ 10 }
{
    let mut number = 1;
    let mut start = 0;
    for i in 0..at {
        if bytes[i] == b'\n' {
            number += 1;
            start = i + 1;
        }
    }
    (number, start)
}

/// The place where the line of a place ends.
fn end_of(bytes: &[u8], at: usize) -> usize
    requires { at ≤ length bytes.now }
    ensures ends { (result ≡ length bytes.now) ⊎ (slice_index bytes.now result ≡ 10) }
    ensures around { (at ≤ result) × (result ≤ length bytes.now) }
    ensures whole { (k : ℕ) → at ≤ k → k < result → slice_index bytes.now k ≢ 10 }
{
    for i in at..bytes.len() {
        if bytes[i] == b'\n' {
            return i;
        }
    }
    bytes.len()
}

/// The line on which a byte of a file stands, or the file's end.
pub fn line_at(bytes: &[u8], at: usize) -> Line
    requires { at ≤ length bytes.now }
    ensures { IsLineAt bytes.now at result }
{
    let (number, start) = start_of(bytes, at);
    let end = end_of(bytes, at);
    Line { number, start, end }
}

/// How many bytes a byte takes as it is shown.
#[tactic(auto, unfolding(crate::specs::Shown::shown_byte))]
fn byte_width(byte: u8) -> usize
    ensures width { result ≡ length (shown_byte byte) }
    ensures few { result ≤ 4 }
{
    if matches!(byte, b' '..=b'~' | b'\t') {
        1
    } else {
        4
    }
}

/// How many bytes a text takes as it is shown.
fn width_of(text: &[u8]) -> usize
    requires { length text.now ≤ 40 }
    ensures width { result ≡ length (shown text.now) }
    ensures few { result ≤ 160 }
{
    let mut width = 0;
    for byte in text {
        width += byte_width(*byte);
    }
    width
}

/// Adds the name of a file, with the line and the column of a place, counted from 1.
fn add_heading(
    screen: &mut Screen,
    name: &[u8],
    number: usize,
    column: usize,
) -> Result<(), AllocError>
    ensures { OnOk result (screen.new ≡ screen.old ++ heading_text name.now number column) }
{
    let mut digits = Buffer::new();
    let number = digits.format(number);
    let mut digits = Buffer::new();
    let column = digits.format(column);
    screen.line(&[
        b"  ",
        name,
        b", line ",
        number.as_bytes(),
        b", column ",
        column.as_bytes(),
    ])
}

/// Where what is shown of a line begins.
fn left_of(at: usize, line: Line) -> usize
    requires { line.start ≤ at }
    ensures left { result ≡ left_of at line }
    ensures before { result ≤ at }
    ensures near { at ≤ result + 40 }
{
    line.start.max(at.saturating_sub(40))
}

/// Where what is shown of a line ends.
fn right_of(at: usize, line: Line) -> usize
    requires around { (line.start ≤ at) × (at ≤ line.end) }
    requires small { at < 2 ^ 63 }
    ensures right { result ≡ right_of at line }
    ensures behind { at ≤ result }
    ensures within { result ≤ line.end }
{
    line.end.min(left_of(at, line) + 70)
}

/// What is shown of a line before a place.
fn before(bytes: &[u8], at: usize, line: Line) -> &[u8]
    requires { IsLineAt bytes.now at line }
    ensures text { result.now ≡ before bytes.now at line }
    ensures few { length result.now ≤ 40 }
{
    &bytes[left_of(at, line)..at]
}

/// What is shown of a line from a place on.
fn behind(bytes: &[u8], at: usize, line: Line) -> &[u8]
    requires { IsLineAt bytes.now at line }
    ensures { result.now ≡ behind bytes.now at line }
{
    &bytes[at..right_of(at, line)]
}

/// What stands to the left of what is shown of a line.
fn lead<'a>(at: usize, line: Line) -> &'a [u8]
    requires { line.start ≤ at }
    ensures { result.now ≡ lead at line }
{
    if line.start < left_of(at, line) {
        b"... "
    } else {
        b"    "
    }
}

/// What stands to the right of it.
fn tail<'a>(at: usize, line: Line) -> &'a [u8]
    requires around { (line.start ≤ at) × (at ≤ line.end) }
    requires small { at < 2 ^ 63 }
    ensures { result.now ≡ tail at line }
{
    if right_of(at, line) < line.end {
        b" ..."
    } else {
        b""
    }
}

/// Adds a line of a file, cut to what stands near a place.
fn add_text(screen: &mut Screen, bytes: &[u8], at: usize, line: Line) -> Result<(), AllocError>
    requires { IsLineAt bytes.now at line }
    ensures { OnOk result (screen.new ≡ screen.old ++ line_text bytes.now at line) }
{
    let lead = lead(at, line);
    let before = before(bytes, at, line);
    let behind = behind(bytes, at, line);
    let tail = tail(at, line);
    screen.line(&[lead, before, behind, tail])
}

/// Adds a caret below a place of a line.
fn add_caret(screen: &mut Screen, bytes: &[u8], at: usize, line: Line) -> Result<(), AllocError>
    requires { IsLineAt bytes.now at line }
    ensures { OnOk result (screen.new ≡ screen.old ++ caret_text bytes.now at line) }
{
    screen.add_blanks(4 + width_of(before(bytes, at, line)))?;
    screen.line(&[b"^"])
}

/// Adds where a byte of a file stands: the file's name with line and column, the line, cut to what stands near the byte, and a caret
/// below the byte.
pub fn add_place(
    screen: &mut Screen,
    name: &[u8],
    bytes: &[u8],
    at: usize,
) -> Result<(), AllocError>
    requires { at ≤ length bytes.now }
    ensures { OnOk result ((line : LineValue) × IsLineAt bytes.now at line
        × (screen.new ≡ screen.old ++ place_text name.now bytes.now at line)) }
{
    let line = line_at(bytes, at);
    add_heading(screen, name, line.number, at - line.start + 1)?;
    add_text(screen, bytes, at, line)?;
    add_caret(screen, bytes, at, line)
}
