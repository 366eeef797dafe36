//! `cofactor` of each variable at each value, `prime`, and `choose` by each variable.
use crate::binary::num3;
use crate::guarded::{chosen, fixed, primed};
use crate::tables::{
    LEFT, PLAIN, PRIMED, RIGHT, Shape, check, diagram, table, table_at, table_by_value,
};
use spd_nodes::{Forest, Steps};
use std::alloc::Global;
use std::sync::ledger::Ledger;
use std::test::Fail;

/// Fails where a shape's diagram with a variable at a value has another leaf than its table there.
fn is_cofactor<F: Forest, L: Ledger>(
    alloc: Global,
    forest: &mut F,
    shape: &Shape,
    at: (u32, bool, u8),
    steps: &mut Steps<L>,
) -> Result<(), Fail> {
    let (var, primed, value) = at;
    let table = table(shape, num3([-3, 0, 2]));
    let f = diagram(forest, &table, steps)?;
    let r = fixed(alloc, forest, f, var, primed, value, steps)?;
    check(forest, r, &table_at(&table, var, primed, value), &at)
}

/// Fails where a branch on a variable has another leaf than the kid of its value. The kids test all variables themselves.
fn are_branches<F: Forest, L: Ledger>(
    alloc: Global,
    forest: &mut F,
    primed: bool,
    steps: &mut Steps<L>,
) -> Result<(), Fail> {
    let tables = [
        table(&LEFT, num3([-3, 0, 2])),
        table(&RIGHT, num3([0, 2, 5])),
        table(&PLAIN, num3([7, -3, 8])),
    ];
    let first = diagram(forest, &tables[0], steps)?;
    let second = diagram(forest, &tables[1], steps)?;
    let third = diagram(forest, &tables[2], steps)?;
    let two = chosen(alloc, forest, 0, primed, &[first, second], steps)?;
    check(
        forest,
        two,
        &table_by_value(&tables, 0, primed),
        &("two kids", primed),
    )?;
    let three = chosen(alloc, forest, 1, primed, &[first, second, third], steps)?;
    check(
        forest,
        three,
        &table_by_value(&tables, 1, primed),
        &("three kids", primed),
    )?;
    let one = chosen(alloc, forest, 2, primed, &[first], steps)?;
    check(
        forest,
        one,
        &table_by_value(&tables, 2, primed),
        &("one kid", primed),
    )
}

/// Fails where `cofactor`, `prime` or `choose` answers another table.
pub fn restrictions<F: Forest, L: Ledger>(
    alloc: Global,
    forest: &mut F,
    steps: &mut Steps<L>,
) -> Result<(), Fail> {
    for (var, value) in [(0, 0), (0, 1), (1, 0), (1, 1), (1, 2), (2, 0)] {
        for primed in [false, true] {
            is_cofactor(alloc, forest, &LEFT, (var, primed, value), steps)?;
            is_cofactor(alloc, forest, &RIGHT, (var, primed, value), steps)?;
        }
    }
    let f = diagram(forest, &table(&PLAIN, num3([-3, 0, 2])), steps)?;
    let r = primed(alloc, forest, f, steps)?;
    check(forest, r, &table(&PRIMED, num3([-3, 0, 2])), &"prime")?;
    are_branches(alloc, forest, false, steps)?;
    are_branches(alloc, forest, true, steps)
}
