//! Leaves by present and next state, for three variables of 2, 3 and 1 values, and diagrams of them.
//!
//! State 3 x + y has value x of the first variable and value y of the second one. The third one has value 0. Levels 0 and 1
//! test the first variable, primed and plain, levels 2 and 3 the second one primed, levels 4 and 5 the second one plain.
ghost use Rattle.std.specs.Prelude.{◌≡◌, ℕ, ◌<◌, IfOk, true};
ghost use Rattle.spd_nodes.specs.Shown.{Shown, Grows};

use crate::guarded::test;
use crate::reading::leaf_at;
use spd_nodes::{Forest, Leaf, Level, Ref, Steps};
use std::fmt::Debug;
use std::sync::ledger::Ledger;
use std::test::Fail;

/// The variables' numbers of values.
pub const SIZES: [u8; 3] = [2, 3, 1];

/// Which of three leaves stands at each present state (row) and next state (column).
pub type Shape = [[u8; 6]; 6];

/// A leaf for each present state (row) and next state (column).
pub type Table = [[Leaf; 6]; 6];

/// It tests both variables, primed and plain. Where the first variable has value 0 in both states, it skips the second one's
/// next value.
pub const LEFT: Shape = [
    [0, 0, 0, 1, 2, 0],
    [1, 1, 1, 1, 2, 0],
    [0, 0, 0, 1, 2, 0],
    [2, 1, 1, 0, 0, 2],
    [2, 1, 1, 0, 1, 2],
    [2, 1, 1, 0, 2, 2],
];

/// It doesn't test the first variable primed. Each two leaves of it and of `LEFT` meet somewhere.
pub const RIGHT: Shape = [
    [0, 1, 2, 0, 1, 2],
    [1, 1, 2, 1, 1, 2],
    [2, 1, 2, 2, 1, 2],
    [1, 1, 1, 1, 1, 1],
    [0, 0, 0, 0, 0, 0],
    [2, 2, 2, 2, 2, 2],
];

/// It tests plain values alone.
pub const PLAIN: Shape = [
    [0, 0, 0, 0, 0, 0],
    [1, 1, 1, 1, 1, 1],
    [1, 1, 1, 1, 1, 1],
    [2, 2, 2, 2, 2, 2],
    [0, 0, 0, 0, 0, 0],
    [2, 2, 2, 2, 2, 2],
];

/// The same at the next state.
pub const PRIMED: Shape = [
    [0, 1, 1, 2, 0, 2],
    [0, 1, 1, 2, 0, 2],
    [0, 1, 1, 2, 0, 2],
    [0, 1, 1, 2, 0, 2],
    [0, 1, 1, 2, 0, 2],
    [0, 1, 1, 2, 0, 2],
];

/// One of three by its number.
pub fn one_of(leaves: [Leaf; 3], number: u8) -> Leaf {
    match number {
        0 => leaves[0],
        1 => leaves[1],
        _ => leaves[2],
    }
}

/// The table of a shape.
pub fn table(shape: &Shape, leaves: [Leaf; 3]) -> Table {
    let mut table = [[leaves[0]; 6]; 6];
    for s in 0..6 {
        for t in 0..6 {
            table[s][t] = one_of(leaves, shape[s][t]);
        }
    }
    table
}

/// The table of the answers for two shapes: a row for each leaf of the left one, a column for each of the right one.
pub fn table_of_two(left: &Shape, right: &Shape, answers: [[Leaf; 3]; 3]) -> Table {
    let mut table = [[answers[0][0]; 6]; 6];
    for s in 0..6 {
        for t in 0..6 {
            let row = match left[s][t] {
                0 => answers[0],
                1 => answers[1],
                _ => answers[2],
            };
            table[s][t] = one_of(row, right[s][t]);
        }
    }
    table
}

/// A state with one variable at a value.
fn held(state: usize, var: u32, value: u8) -> usize
    requires { state < 6 }
{
    match var {
        0 => 3 * value as usize + state % 3,
        1 => state / 3 * 3 + value as usize,
        _ => state,
    }
}

/// The table with one variable, primed or plain, at a value.
pub fn table_at(table: &Table, var: u32, primed: bool, value: u8) -> Table {
    let mut at = *table;
    for s in 0..6 {
        for t in 0..6 {
            let (row, column) = if primed {
                (s, held(t, var, value))
            } else {
                (held(s, var, value), t)
            };
            // Always so, at a value that the variable has.
            if row < 6 && column < 6 {
                at[s][t] = table[row][column];
            }
        }
    }
    at
}

/// A variable's value at a state.
fn value_at(state: usize, var: u32) -> usize
    requires { state < 6 }
    ensures { result < 3 }
{
    match var {
        0 => state / 3,
        1 => state % 3,
        _ => 0,
    }
}

/// At each present and next state the table of a variable's value, primed or plain.
pub fn table_by_value(tables: &[Table; 3], var: u32, primed: bool) -> Table {
    let mut by_value = tables[0];
    for s in 0..6 {
        for t in 0..6 {
            let value = value_at(if primed { t } else { s }, var);
            by_value[s][t] = tables[value][s][t];
        }
    }
    by_value
}

/// The values of a state.
fn values(state: usize) -> [u8; 3]
    requires { state < 6 }
{
    [(state / 3) as u8, (state % 3) as u8, 0]
}

/// The tests of the second variable's present value.
fn by_second<F: Forest, L: Ledger>(
    forest: &mut F,
    table: &Table,
    x: usize,
    t: usize,
    steps: &mut Steps<L>,
) -> Result<Ref, Fail>
    requires x { x < 2 }
    requires t { t < 6 }
    ensures grows { Grows (F.shows forest.old) (F.shows forest.new) }
    ensures ok { IfOk result (λ r. (F.shows forest.new).knows r ≡ true) }
{
    let first = forest.leaf(table[3 * x][t], steps)?;
    let second = forest.leaf(table[3 * x + 1][t], steps)?;
    let third = forest.leaf(table[3 * x + 2][t], steps)?;
    let rest = test(forest, Level(5), second, third, steps)?;
    test(forest, Level(4), first, rest, steps)
}

/// The tests of the second variable's next value.
fn by_second_primed<F: Forest, L: Ledger>(
    forest: &mut F,
    table: &Table,
    x: usize,
    next: usize,
    steps: &mut Steps<L>,
) -> Result<Ref, Fail>
    requires x { x < 2 }
    requires next { next < 2 }
    ensures grows { Grows (F.shows forest.old) (F.shows forest.new) }
    ensures ok { IfOk result (λ r. (F.shows forest.new).knows r ≡ true) }
{
    let first = by_second(forest, table, x, 3 * next, steps)?;
    let second = by_second(forest, table, x, 3 * next + 1, steps)?;
    let third = by_second(forest, table, x, 3 * next + 2, steps)?;
    let rest = test(forest, Level(3), second, third, steps)?;
    test(forest, Level(2), first, rest, steps)
}

/// The test of the first variable's present value.
fn by_first<F: Forest, L: Ledger>(
    forest: &mut F,
    table: &Table,
    next: usize,
    steps: &mut Steps<L>,
) -> Result<Ref, Fail>
    requires { next < 2 }
    ensures grows { Grows (F.shows forest.old) (F.shows forest.new) }
    ensures ok { IfOk result (λ r. (F.shows forest.new).knows r ≡ true) }
{
    let first = by_second_primed(forest, table, 0, next, steps)?;
    let second = by_second_primed(forest, table, 1, next, steps)?;
    test(forest, Level(1), first, second, steps)
}

/// The diagram of a table.
pub fn diagram<F: Forest, L: Ledger>(
    forest: &mut F,
    table: &Table,
    steps: &mut Steps<L>,
) -> Result<Ref, Fail>
    ensures grows { Grows (F.shows forest.old) (F.shows forest.new) }
    ensures ok { IfOk result (λ r. (F.shows forest.new).knows r ≡ true) }
{
    let first = by_first(forest, table, 0, steps)?;
    let second = by_first(forest, table, 1, steps)?;
    test(forest, Level(0), first, second, steps)
}

/// Fails where a diagram has another leaf than a row of a table, with what the diagram is.
fn check_row<F: Forest, W: Debug>(
    forest: &mut F,
    r: Ref,
    s: usize,
    row: &[Leaf; 6],
    what: &W,
) -> Result<(), Fail>
    requires s { s < 6 }
    requires known { (F.shows forest.old).knows r ≡ true }
    ensures { F.shows forest.new ≡ F.shows forest.old }
{
    for t in 0..6 {
        let leaf = leaf_at(forest, r, &values(s), &values(t), 7);
        if leaf != Some(row[t]) {
            return Err(Fail::new(format_args!("{what:?}: {leaf:?} at {s} and {t}")));
        }
    }
    Ok(())
}

/// Fails where a diagram has another leaf than a table, with what the diagram is.
pub fn check<F: Forest, W: Debug>(
    forest: &mut F,
    r: Ref,
    table: &Table,
    what: &W,
) -> Result<(), Fail>
    requires { (F.shows forest.old).knows r ≡ true }
    ensures { F.shows forest.new ≡ F.shows forest.old }
{
    for s in 0..6 {
        check_row(forest, r, s, &table[s], what)?;
    }
    Ok(())
}
