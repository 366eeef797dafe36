//! What a person is told of a name that can't stand where it does, or that is missing.
ghost use Rattle.std.specs.Prelude.{IfSome};
ghost use Rattle.std.specs.List.{Contains};

use crate::nearest::is_near;
use crate::place::line_at;
use crate::quantity::{Quantity, quantity_of, top_word};
use crate::screen::Screen;
use crate::source::{Source, unprimed};
use itoa::Buffer;
use spd_lex::Kind;
use std::alloc::{AllocError, Global};

/// How many names are listed at most.
const LISTED: usize = 12;

/// Adds a name in backquotes.
pub(crate) fn add_name(screen: &mut Screen, name: &[u8]) -> Result<(), AllocError> {
    screen.add(b"`")?;
    screen.add(name)?;
    screen.add(b"`")
}

/// Adds names that are declared, in their order: the first twelve.
fn add_names(screen: &mut Screen, source: &Source<'_>, names: &[usize]) -> Result<(), AllocError> {
    for (i, number) in names.iter().enumerate() {
        if i == LISTED {
            return screen.add(b" and others");
        }
        if i > 0 {
            screen.add(b", ")?;
        }
        add_name(screen, source.text(*number))?;
    }
    Ok(())
}

/// The first of the names that are declared that a word may be meant to be.
fn nearest(source: &Source<'_>, names: &[usize], word: &[u8]) -> Option<usize>
    ensures { IfSome result (Contains names.now) }
{
    for number in names {
        if is_near(word, source.text(*number)) {
            return Some(*number);
        }
    }
    None
}

/// Adds the question whether one of the names that are declared is meant.
fn add_question(
    screen: &mut Screen,
    source: &Source<'_>,
    names: &[usize],
    word: &[u8],
) -> Result<(), AllocError> {
    match nearest(source, names, word) {
        Some(number) => {
            screen.add(b" Is ")?;
            add_name(screen, source.text(number))?;
            screen.add(b" meant?")
        }
        None => Ok(()),
    }
}

/// Tells of a word that is no variable.
fn tell_variable(
    alloc: Global,
    screen: &mut Screen,
    source: &Source<'_>,
    word: &[u8],
) -> Result<(), AllocError> {
    let names = source.variables(alloc)?;
    screen.add(b"  ")?;
    add_name(screen, word)?;
    screen.add(b" is no variable. The variables are ")?;
    add_names(screen, source, &names)?;
    screen.add(b".")?;
    add_question(screen, source, &names, word)?;
    screen.end_line()
}

/// Tells of a word that is no value of a variable, by the number of its name where it is declared.
fn tell_value(
    alloc: Global,
    screen: &mut Screen,
    source: &Source<'_>,
    variable: usize,
    word: &[u8],
) -> Result<(), AllocError> {
    let names = source.values(alloc, variable)?;
    screen.add(b"  ")?;
    add_name(screen, word)?;
    screen.add(b" is no value of ")?;
    add_name(screen, source.text(variable))?;
    screen.add(b". Its values are ")?;
    add_names(screen, source, &names)?;
    screen.add(b".")?;
    add_question(screen, source, &names, word)?;
    screen.end_line()
}

/// Tells of a word that is no decision diagram that is declared before it.
fn tell_diagram(
    alloc: Global,
    screen: &mut Screen,
    source: &Source<'_>,
    number: usize,
) -> Result<(), AllocError> {
    let word = source.text(number);
    let names = source.declared(alloc, b"dd", number)?;
    screen.add(b"  ")?;
    add_name(screen, word)?;
    screen.add(b" is no decision diagram that is declared before.")?;
    add_question(screen, source, &names, word)?;
    screen.end_line()
}

/// The number of the name of the variable, where it is declared, of which a branch's value stands at a token.
fn variable_around(
    alloc: Global,
    source: &Source<'_>,
    number: usize,
) -> Result<Option<usize>, AllocError> {
    let names = source.variables(alloc)?;
    Ok(match source.head_around(number) {
        Some(head) => source.named(&names, unprimed(source.text(head))),
        None => None,
    })
}

/// Tells of a name that isn't declared.
pub(crate) fn tell_unknown(
    alloc: Global,
    screen: &mut Screen,
    source: &Source<'_>,
    number: usize,
) -> Result<(), AllocError> {
    let depth = source.depth(number);
    let word = unprimed(source.text(number));
    if depth > 0 && depth % 2 == 0 {
        return match variable_around(alloc, source, number)? {
            Some(variable) => tell_value(alloc, screen, source, variable, word),
            None => Ok(()),
        };
    }
    if depth > 0 && source.kind(number.saturating_add(1)) == Some(Kind::Close) {
        return tell_diagram(alloc, screen, source, number);
    }
    tell_variable(alloc, screen, source, word)
}

/// The numbers of the values of the branches behind a variable's word.
fn branches(alloc: Global, source: &Source<'_>, number: usize) -> Result<Vec<usize>, AllocError> {
    let mut values = Vec::new(alloc);
    let mut depth: usize = 0;
    for behind in number.min(source.len())..source.len() {
        match source.kind(behind) {
            Some(Kind::Open) => depth = depth.saturating_add(1),
            Some(Kind::Close) if depth == 0 => break,
            Some(Kind::Close) => depth -= 1,
            _ if depth == 1 && source.is_head(behind) => values.push(behind)?,
            _ => {}
        }
    }
    Ok(values)
}

/// The first of some tokens whose word is among no others.
fn first_missing(source: &Source<'_>, wanted: &[usize], there: &[usize]) -> Option<usize> {
    for number in wanted {
        if source.named(there, source.text(*number)).is_none() {
            return Some(*number);
        }
    }
    None
}

/// Tells of a value of a variable that has no branch.
pub(crate) fn tell_branch(
    alloc: Global,
    screen: &mut Screen,
    source: &Source<'_>,
    number: usize,
) -> Result<(), AllocError> {
    let names = source.variables(alloc)?;
    let Some(variable) = source.named(&names, unprimed(source.text(number))) else {
        return Ok(());
    };
    let values = source.values(alloc, variable)?;
    let branches = branches(alloc, source, number)?;
    if let Some(value) = first_missing(source, &values, &branches) {
        screen.line(&[
            b"  Each value has a branch. Missing here: `",
            source.text(value),
            b"`.",
        ])?;
    }
    match first_missing(source, &branches, &values) {
        Some(branch) => tell_value(alloc, screen, source, variable, source.text(branch)),
        None => Ok(()),
    }
}

/// Tells of a variable that has no tree in an action.
pub(crate) fn tell_tree(
    alloc: Global,
    screen: &mut Screen,
    source: &Source<'_>,
    variable: u32,
) -> Result<(), AllocError> {
    let names = source.variables(alloc)?;
    match names.get(variable as usize) {
        Some(number) => screen.line(&[
            b"  An action has a tree for each variable. Here that of `",
            source.text(*number),
            b"` is missing.",
        ]),
        None => Ok(()),
    }
}

/// The last token before this one that is the same word outside brackets, behind the same keyword where one stands before.
fn last_same(source: &Source<'_>, number: usize) -> Option<usize> {
    let word = source.text(number);
    let mut depth: usize = 0;
    let mut last = None;
    for before in 0..number.min(source.len()) {
        match source.kind(before) {
            Some(Kind::Open) => depth = depth.saturating_add(1),
            Some(Kind::Close) => depth = depth.saturating_sub(1),
            _ if depth == 0 && source.is(before, word) => last = Some(before),
            _ => {}
        }
    }
    last
}

/// Tells of a name that stands a second time.
pub(crate) fn tell_twice(
    screen: &mut Screen,
    bytes: &[u8],
    source: &Source<'_>,
    number: usize,
) -> Result<(), AllocError> {
    screen.add(b"  ")?;
    add_name(screen, source.text(number))?;
    screen.add(b" stands a second time")?;
    if source.depth(number) == 0
        && let Some(before) = last_same(source, number)
    {
        let place = source.place(before).min(bytes.len());
        let mut digits = Buffer::new();
        let line = digits.format(line_at(bytes, place).number);
        screen.add(b"; it stands in line ")?;
        screen.add(line.as_bytes())?;
        screen.add(b" already")?;
    }
    screen.add(b".")?;
    screen.end_line()
}

/// Tells of a next value that is tested where it may not be.
pub(crate) fn tell_primed(
    screen: &mut Screen,
    source: &Source<'_>,
    number: usize,
) -> Result<(), AllocError> {
    let word = source.text(number);
    let name = unprimed(word);
    if name.len() == word.len() {
        return screen.line(&[
            b"  This decision diagram tests a next value, which can't be tested here.",
        ]);
    }
    match quantity_of(source, number) {
        Quantity::Reward => screen.line(&[
            b"  A reward or cost tests present values alone: `",
            name,
            b"` without `'`.",
        ]),
        _ => screen.line(&[
            b"  The tree of `",
            source.text(top_word(source, number)),
            b"` tests its own next value and those of variables that are declared after it; `",
            name,
            b"` is declared before.",
        ]),
    }
}
