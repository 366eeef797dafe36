//! `apply` of each operation.
use crate::guarded::applied;
use crate::tables::{LEFT, RIGHT, check, diagram, table, table_of_two};
use spd_apply::{Add, Keep, LeafOp, MakePair, Max, Min, Mul, PickFirst, Sub};
use spd_nodes::{Forest, Leaf, Steps};
use std::alloc::Global;
use std::fmt::Debug;
use std::sync::ledger::Ledger;
use std::test::Fail;

/// What an operation answers for three leaves on the left and three on the right: a row for each left one.
#[derive(Clone, Copy)]
struct Answers {
    left: [Leaf; 3],
    right: [Leaf; 3],
    answers: [[Leaf; 3]; 3],
}

pub fn num3(numbers: [i128; 3]) -> [Leaf; 3] {
    [
        Leaf::Num(numbers[0]),
        Leaf::Num(numbers[1]),
        Leaf::Num(numbers[2]),
    ]
}

fn num9(rows: [[i128; 3]; 3]) -> [[Leaf; 3]; 3] {
    [num3(rows[0]), num3(rows[1]), num3(rows[2])]
}

/// Fails where an operation's diagram for `LEFT` and `RIGHT` doesn't have these answers.
fn answers_each<F: Forest, O: LeafOp + Debug, L: Ledger>(
    alloc: Global,
    forest: &mut F,
    op: &O,
    case: &Answers,
    steps: &mut Steps<L>,
) -> Result<(), Fail> {
    let f = diagram(forest, &table(&LEFT, case.left), steps)?;
    let g = diagram(forest, &table(&RIGHT, case.right), steps)?;
    let r = applied(alloc, forest, op, f, g, steps)?;
    check(forest, r, &table_of_two(&LEFT, &RIGHT, case.answers), op)
}

/// The operations on numbers.
fn of_numbers<F: Forest, L: Ledger>(
    alloc: Global,
    forest: &mut F,
    steps: &mut Steps<L>,
) -> Result<(), Fail> {
    let case = Answers {
        left: num3([-3, 0, 2]),
        right: num3([-2, 0, 5]),
        answers: num9([[-5, -3, 2], [-2, 0, 5], [0, 2, 7]]),
    };
    answers_each(alloc, forest, &Add, &case, steps)?;
    let case = Answers {
        answers: num9([[-1, -3, -8], [2, 0, -5], [4, 2, -3]]),
        ..case
    };
    answers_each(alloc, forest, &Sub, &case, steps)?;
    let case = Answers {
        answers: num9([[6, 0, -15], [0, 0, 0], [-4, 0, 10]]),
        ..case
    };
    answers_each(alloc, forest, &Mul, &case, steps)?;
    let case = Answers {
        answers: num9([[-2, 0, 5], [0, 0, 5], [2, 2, 5]]),
        ..case
    };
    answers_each(alloc, forest, &Max, &case, steps)?;
    let case = Answers {
        answers: num9([[-3, -3, -3], [-2, 0, 0], [-2, 0, 2]]),
        ..case
    };
    answers_each(alloc, forest, &Min, &case, steps)
}

/// `Add` up to the ends of an `i128`.
fn to_the_ends<F: Forest, L: Ledger>(
    alloc: Global,
    forest: &mut F,
    steps: &mut Steps<L>,
) -> Result<(), Fail> {
    const MAX: i128 = 170_141_183_460_469_231_731_687_303_715_884_105_727;
    const MIN: i128 = -170_141_183_460_469_231_731_687_303_715_884_105_728;
    const LESS: i128 = 170_141_183_460_469_231_731_687_303_715_884_105_726;
    const MORE: i128 = -170_141_183_460_469_231_731_687_303_715_884_105_727;
    let case = Answers {
        left: num3([MAX, 0, -1]),
        right: num3([0, -1, MORE]),
        answers: num9([[MAX, LESS, 0], [0, -1, MORE], [-1, -2, MIN]]),
    };
    answers_each(alloc, forest, &Add, &case, steps)
}

/// The operations that make pairs.
fn of_pairs<F: Forest, L: Ledger>(
    alloc: Global,
    forest: &mut F,
    steps: &mut Steps<L>,
) -> Result<(), Fail> {
    let p = |a: i128, b: i128| Leaf::Pair(a, b);
    let case = Answers {
        left: num3([-3, 0, 2]),
        right: num3([-2, 0, 5]),
        answers: [
            [p(-3, -2), p(-3, 0), p(-3, 5)],
            [p(0, -2), p(0, 0), p(0, 5)],
            [p(2, -2), p(2, 0), p(2, 5)],
        ],
    };
    answers_each(alloc, forest, &MakePair, &case, steps)?;
    let case = Answers {
        left: [p(1, 10), p(2, 20), p(-3, 30)],
        right: [p(1, 11), p(2, 21), p(-3, 31)],
        answers: [
            [p(1, 10), p(2, 21), p(1, 10)],
            [p(2, 20), p(2, 20), p(2, 20)],
            [p(1, 11), p(2, 21), p(-3, 30)],
        ],
    };
    answers_each(alloc, forest, &PickFirst, &case, steps)?;
    let case = Answers {
        left: [p(7, 1), p(8, 2), p(-7, 3)],
        right: num3([-5, 0, 9]),
        answers: [
            [p(7, -5), p(7, 0), p(7, 9)],
            [p(8, 2), p(8, 2), p(8, 2)],
            [p(-7, 3), p(-7, 3), p(-7, 3)],
        ],
    };
    answers_each(alloc, forest, &Keep(7), &case, steps)
}

/// Fails where `apply` of an operation answers another table.
pub fn operations<F: Forest, L: Ledger>(
    alloc: Global,
    forest: &mut F,
    steps: &mut Steps<L>,
) -> Result<(), Fail> {
    of_numbers(alloc, forest, steps)?;
    to_the_ends(alloc, forest, steps)?;
    of_pairs(alloc, forest, steps)
}
