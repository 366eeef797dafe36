//! What a person is told of probabilities that don't sum to one.

use crate::place::add_place;
use crate::screen::Screen;
use crate::source::{Source, source_of, unprimed};
use itoa::Buffer;
use spd_lex::Kind;
use spd_scaled::put_units;
use std::alloc::{AllocError, Global};

/// One, in units of 10^-12.
const ONE: i128 = 1_000_000_000_000;

/// Where the tree of a variable stands in an action: the number of the variable's name, and that of the first token behind the tree.
#[derive(Clone, Copy)]
struct Item {
    name: usize,
    end: usize,
}

/// The number of the name of an action where it is declared.
fn action_named(source: &Source<'_>, action: &[u8]) -> Option<usize> {
    for number in 1..source.len() {
        if source.is(number - 1, b"action") && source.is(number, action) {
            return Some(number);
        }
    }
    None
}

/// The number of the first word outside brackets behind a token outside brackets.
fn next_top(source: &Source<'_>, number: usize) -> usize {
    let mut depth: usize = 0;
    for behind in number.min(source.len())..source.len() {
        match source.kind(behind) {
            Some(Kind::Open) => depth = depth.saturating_add(1),
            Some(Kind::Close) => depth = depth.saturating_sub(1),
            Some(Kind::Word) if depth == 0 && behind > number => return behind,
            _ => {}
        }
    }
    source.len()
}

/// Where the tree of a variable stands in an action.
fn item_of(source: &Source<'_>, action: &[u8], variable: &[u8]) -> Option<Item> {
    let mut number = action_named(source, action)?;
    // An action has an item for each variable, of which there are at most 100, and a cost.
    for _ in 0..102 {
        number = next_top(source, number);
        if source.is(number, variable) {
            return Some(Item {
                name: number,
                end: next_top(source, number),
            });
        }
    }
    None
}

/// Whether a tree tests a variable's next value, or its present one.
fn tests(source: &Source<'_>, item: Item, variable: &[u8], next: bool) -> bool {
    for number in item.name..item.end.min(source.len()) {
        let word = source.text(number);
        if source.is_head(number)
            && unprimed(word) == variable
            && (word.len() > variable.len()) == next
        {
            return true;
        }
    }
    false
}

/// Whether a tree uses a decision diagram.
fn uses_diagram(source: &Source<'_>, item: Item) -> bool {
    for number in item.name..item.end.min(source.len()) {
        if source.is_head(number)
            && source.kind(number + 1) == Some(Kind::Close)
            && matches!(source.text(number), [b'a'..=b'z' | b'A'..=b'Z' | b'_', ..])
        {
            return true;
        }
    }
    false
}

/// A number without the zeros behind its last place.
pub(crate) fn trimmed(text: &[u8]) -> &[u8] {
    let mut left = text;
    while let [front @ .., last] = left {
        match *last {
            b'0' => left = front,
            b'.' => return front,
            _ => return left,
        }
    }
    left
}

/// Adds how far a sum is from one. Both are in units of 10^-12.
fn add_difference(screen: &mut Screen, missing: i128) -> Result<(), AllocError> {
    let mut digits = [0; 64];
    let len = put_units(missing.saturating_abs(), 12, &mut digits);
    screen.add(b"  These probabilities sum to exactly 1: ")?;
    screen.add(trimmed(&digits[..len]))?;
    if missing > 0 {
        screen.add(b" is missing.")?;
    } else {
        screen.add(b" is too much.")?;
    }
    screen.end_line()
}

/// Tells how far a sum is from one, and why it may be. The sum is in units of 10^-12.
fn tell_difference(screen: &mut Screen, sum: i128) -> Result<(), AllocError> {
    let missing = ONE.saturating_sub(sum);
    add_difference(screen, missing)?;
    if sum > 50 * ONE {
        screen.line(&[b"  Here probabilities are parts of one: 0.95 in place of 95."])?;
    }
    if missing.saturating_abs() <= ONE / 1000 {
        screen.line(&[b"  Three thirds are written as 0.333333333333 twice and 0.333333333334."])?;
    }
    Ok(())
}

/// Tells of a tree that doesn't test the next value of its variable.
fn tell_untested(
    alloc: Global,
    screen: &mut Screen,
    source: &Source<'_>,
    item: Item,
    variable: &[u8],
) -> Result<(), AllocError> {
    let names = source.variables(alloc)?;
    let count = match source.named(&names, variable) {
        Some(number) => source.values(alloc, number)?.len(),
        None => 0,
    };
    let mut digits = Buffer::new();
    let count = digits.format(count);
    screen.add(b"  This tree doesn't test `")?;
    screen.add(variable)?;
    screen.add(b"'`, so that a number of it counts for each of the ")?;
    screen.add(count.as_bytes())?;
    screen.add(b" values of `")?;
    screen.add(variable)?;
    screen.add(b"`.")?;
    screen.end_line()?;
    if tests(source, item, variable, false) {
        screen.add(b"  A `'` may be missing: `")?;
        screen.add(variable)?;
        screen.add(b"'` is the value that comes next.")?;
        screen.end_line()?;
    }
    Ok(())
}

/// Adds where the tree stands whose probabilities don't sum to one, and what would mend it. The sum is in units of 10^-12.
pub fn tell_sum(
    alloc: Global,
    screen: &mut Screen,
    name: &[u8],
    bytes: &[u8],
    action: &[u8],
    variable: &[u8],
    sum: i128,
) -> Result<(), AllocError> {
    let source = source_of(alloc, bytes)?;
    if let Some(item) = item_of(&source, action, variable) {
        add_place(
            screen,
            name,
            bytes,
            source.place(item.name).min(bytes.len()),
        )?;
        if !tests(&source, item, variable, true) && !uses_diagram(&source, item) {
            tell_untested(alloc, screen, &source, item, variable)?;
        }
    }
    tell_difference(screen, sum)
}
