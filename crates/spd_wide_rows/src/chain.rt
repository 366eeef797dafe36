//! A diagram that tests each level, and what a diagram has at a present and a next state.
ghost use Rattle.std.specs.Prelude.{◌≡◌, ◌<◌, ◌≤◌, IfOk, true};
ghost use Rattle.spd_nodes.specs.Levels.{levels_of, slots};
ghost use Rattle.spd_nodes.specs.Shown.{Shown, Grows};

use crate::shape::{LEVELS, Point, point_of, tests_before};
use spd_nodes::{Forest, Layout, Leaf, Level, Ref, Steps, View, can_test};
use std::sync::ledger::Ledger;
use std::test::Fail;

/// How many nodes the chain has: 512 tests and 513 leaves.
pub const CHAIN_NODES: u32 = 1025;

/// The number of levels: where the last variable's tests end.
fn levels(layout: &Layout) -> u16
    ensures { result ≤ levels_of (slots layout.now) }
{
    let last = layout.sizes().len() - 1;
    let (_, end) = layout.tests(last as u32, false);
    end
}

/// The test of a level above two known diagrams.
fn test<F: Forest, L: Ledger>(
    forest: &mut F,
    level: Level,
    yes: Ref,
    no: Ref,
    steps: &mut Steps<L>,
) -> Result<Ref, Fail>
    requires yes { (F.shows forest.old).knows yes ≡ true }
    requires no { (F.shows forest.old).knows no ≡ true }
    ensures grows { Grows (F.shows forest.old) (F.shows forest.new) }
    ensures ok { IfOk result (λ r. (F.shows forest.new).knows r ≡ true) }
{
    if level.0 >= levels(forest.layout()) {
        return Err(Fail::new("no such level"));
    }
    if !can_test(forest, level, yes, no) {
        return Err(Fail::new("these can't be a test's children"));
    }
    Ok(forest.test(level, yes, no, steps)?)
}

/// A test more above a chain: where it holds, the leaf is the level's number.
fn link<F: Forest, L: Ledger>(
    forest: &mut F,
    level: u16,
    rest: Ref,
    steps: &mut Steps<L>,
) -> Result<Ref, Fail>
    requires { (F.shows forest.old).knows rest ≡ true }
    ensures grows { Grows (F.shows forest.old) (F.shows forest.new) }
    ensures ok { IfOk result (λ r. (F.shows forest.new).knows r ≡ true) }
{
    let yes = forest.leaf(Leaf::Num(i128::from(level)), steps)?;
    test(forest, Level(level), yes, rest, steps)
}

/// The chain of all tests: its number is that of the first test that holds, and 512 where none does.
pub fn chain<F: Forest, L: Ledger>(forest: &mut F, steps: &mut Steps<L>) -> Result<Ref, Fail>
    ensures grows { Grows (F.shows forest.old) (F.shows forest.new) }
    ensures ok { IfOk result (λ r. (F.shows forest.new).knows r ≡ true) }
{
    let mut rest = forest.leaf(Leaf::Num(i128::from(LEVELS)), steps)?;
    for level in (0..LEVELS).rev() {
        rest = link(forest, level, rest, steps)?;
    }
    Ok(rest)
}

/// The number of a diagram at a present and a next state, if it has one.
pub fn number_in<F: Forest>(forest: &mut F, r: Ref, point: &Point) -> Option<i128>
    requires { (F.shows forest.old).knows r ≡ true }
    ensures { F.shows forest.new ≡ F.shows forest.old }
{
    let mut at = r;
    for _ in 0..LEVELS + 1 {
        match forest.view(at) {
            View::Leaf(Leaf::Num(x)) => return Some(x),
            View::Leaf(_) => return None,
            View::Test { level, yes, no } => {
                let (var, primed, value) = forest.layout().what(level);
                let values = if primed { &point.next } else { &point.present };
                at = if values.get(var as usize) == Some(&value) {
                    yes
                } else {
                    no
                };
            }
        }
    }
    None
}

/// Fails where the chain has another number than that of the first test that holds, at the states that lead to some of its tests, so many
/// levels apart.
pub fn check_chain<F: Forest>(forest: &mut F, r: Ref, apart: usize) -> Result<(), Fail>
    requires known { (F.shows forest.old).knows r ≡ true }
    requires apart { 0 < apart }
    ensures { F.shows forest.new ≡ F.shows forest.old }
{
    for level in (0..LEVELS + 1).step_by(apart) {
        let point = point_of(level);
        let want = Some(i128::from(tests_before(&point)));
        if number_in(forest, r, &point) != want {
            return Err(Fail::new(format_args!("the chain at {level}")));
        }
    }
    Ok(())
}
