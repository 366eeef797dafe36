//! What a person is told where something else was expected in a model file.

use crate::names::add_name;
use crate::nearest::is_near;
use crate::screen::Screen;
use crate::source::Source;
use itoa::Buffer;
use spd_lex::Kind;
use spd_syntax::Want;
use std::alloc::AllocError;

/// The words that begin a section.
const SECTIONS: [&[u8]; 6] = [
    b"dd",
    b"action",
    b"reward",
    b"discount",
    b"tolerance",
    b"horizon",
];

/// The words that can't be names.
const RESERVED: [&[u8]; 10] = [
    b"variables",
    b"dd",
    b"enddd",
    b"action",
    b"endaction",
    b"cost",
    b"reward",
    b"discount",
    b"tolerance",
    b"horizon",
];

/// Whether a word is one of these.
fn is_one_of(word: &[u8], words: &[&[u8]]) -> bool {
    words.iter().any(|other| *other == word)
}

/// What is told of signs that no model file has, wherever they stand.
fn sign_sentence(word: &[u8]) -> Option<&'static [u8]> {
    match word {
        [b'#', ..]
        | [b';', ..]
        | [b'%', ..]
        | [b'/', b'*', ..]
        | [b'-', b'-', ..]
        | [b'<', b'!', ..] => Some(
            b"  A comment begins with `//` and goes to the end of its line.",
        ),
        [b'"', ..] | [b'\'', ..] | [b'`', ..] => {
            Some(b"  A name is written without quotation marks.")
        }
        _ if word.contains(&b',') => Some(b"  Names are parted by blanks, not by commas."),
        _ if word.contains(&b'=') || word.contains(&b':') => {
            Some(b"  No sign stands between a word and what belongs to it: `discount 0.9`.")
        }
        _ => None,
    }
}

/// Tells how many brackets are open where a closing one is missing.
fn tell_open(screen: &mut Screen, source: &Source<'_>, number: usize) -> Result<(), AllocError> {
    let mut digits = Buffer::new();
    let depth = digits.format(source.depth(number));
    screen.line(&[
        b"  A closing bracket is missing before this place, where ",
        depth.as_bytes(),
        b" of those before it are open.",
    ])
}

/// Tells what can stand where a name was expected.
fn tell_name(screen: &mut Screen, source: &Source<'_>, number: usize) -> Result<(), AllocError> {
    let word = source.text(number);
    let before = source.text(number.saturating_sub(1));
    let is_declared = before == b"dd".as_slice() || before == b"action".as_slice();
    match source.kind(number) {
        Some(Kind::Close) => return screen.line(&[b"  This is one bracket too many."]),
        Some(Kind::Open) => {
            return screen.line(&[b"  The name of a variable is missing before this tree."]);
        }
        _ => {}
    }
    if source.depth(number) == 0 && !is_declared && is_one_of(word, &SECTIONS) {
        screen.line(&[b"  `endaction` is missing before `", word, b"`."])
    } else if is_one_of(word, &RESERVED) {
        screen.line(&[
            b"  `",
            word,
            b"` is a word of the format, and can't be a name.",
        ])
    } else if word.ends_with(b"'") {
        screen.line(&[b"  A variable's tree in an action stands behind its name without `'`."])
    } else {
        screen.line(&[b"  A name is a letter or `_`, and then letters, digits, `_` and `-`."])
    }
}

/// Tells what can stand where a value was expected.
fn tell_value(screen: &mut Screen, source: &Source<'_>, number: usize) -> Result<(), AllocError> {
    match source.kind(number) {
        Some(Kind::Close) if number <= source.variables_end() => {
            screen.line(&[b"  A variable has one value at least, as in `(machine up down)`."])
        }
        Some(Kind::Word) => screen.line(&[
            b"  A value is a letter, a digit or `_`, and then letters, digits, `_`, `-` and `.`.",
        ]),
        _ => screen.line(&[b"  A branch begins with the name of a value, as in `(up (1))`."]),
    }
}

/// The word that begins a section which a word may be meant to be.
fn near_section(word: &[u8]) -> Option<&'static [u8]> {
    for section in SECTIONS {
        if is_near(word, section) {
            return Some(section);
        }
    }
    None
}

/// Tells what can stand where a section was expected.
fn tell_section(screen: &mut Screen, source: &Source<'_>, number: usize) -> Result<(), AllocError> {
    if matches!(source.kind(number), Some(Kind::Close | Kind::CloseSum)) {
        return screen.line(&[b"  This is one bracket too many."]);
    }
    screen.add(
        b"  A section begins with `dd`, `action`, `reward`, `discount`, `tolerance` or `horizon`.",
    )?;
    if let Some(section) = near_section(source.text(number)) {
        screen.add(b" Is ")?;
        add_name(screen, section)?;
        screen.add(b" meant?")?;
    }
    screen.end_line()
}

/// Tells what a file lacks that ends between two sections.
fn tell_lacking(screen: &mut Screen, source: &Source<'_>) -> Result<(), AllocError> {
    if !source.has(b"action") {
        screen.line(&[b"  The file ends here; it lacks an action."])?;
    }
    if !source.has(b"reward") {
        screen.line(&[b"  The file ends here; it lacks a reward."])?;
    }
    if !source.has(b"discount") {
        screen.line(&[b"  The file ends here; it lacks a discount."])?;
    }
    if !source.has(b"tolerance") && !source.has(b"horizon") {
        screen.line(&[b"  The file ends here; it lacks a tolerance or a horizon."])?;
    }
    Ok(())
}

/// Tells what can stand where a tree or a number was expected.
fn tell_tree(screen: &mut Screen, source: &Source<'_>, number: usize) -> Result<(), AllocError> {
    match source.kind(number) {
        Some(Kind::Word) => screen.line(&[
            b"  A number or the name of a decision diagram stands in brackets: `(",
            source.text(number),
            b")`.",
        ]),
        _ => screen.line(&[b"  An opening bracket is missing before this place."]),
    }
}

/// Tells what can stand where the number behind `discount`, `tolerance` or `horizon` was expected.
fn tell_number(screen: &mut Screen, source: &Source<'_>, number: usize) -> Result<(), AllocError> {
    let keyword = source.text(number.saturating_sub(1));
    match source.kind(number) {
        Some(Kind::Open) => screen.line(&[
            b"  The number stands without brackets: `",
            keyword,
            b" ",
            source.text(number.saturating_add(1)),
            b"`.",
        ]),
        _ => screen.line(&[b"  The number behind `", keyword, b"` is missing."]),
    }
}

/// Tells what was expected at a token, or at the file's end.
pub(crate) fn tell_expected(
    screen: &mut Screen,
    source: &Source<'_>,
    number: usize,
    want: Want,
) -> Result<(), AllocError> {
    if let Some(sentence) = sign_sentence(source.text(number)) {
        return screen.line(&[sentence]);
    }
    match want {
        Want::Variables => screen.line(&[
            b"  A file begins with its variables, as `(variables (machine up down))`.",
        ]),
        Want::Open => tell_tree(screen, source, number),
        Want::Close => tell_open(screen, source, number),
        Want::Name => tell_name(screen, source, number),
        Want::Value => tell_value(screen, source, number),
        Want::Section if number >= source.len() => tell_lacking(screen, source),
        Want::Section => tell_section(screen, source, number),
        Want::Plus => screen.line(&[b"  A sum is written with `+`, as in `[+ (1) (2)]`."]),
        Want::EndDd => screen.line(&[
            b"  A decision diagram is its name, one tree and then `enddd`.",
        ]),
        Want::Number => tell_number(screen, source, number),
    }
}
