//! The greatest of several diagrams.

ghost use Rattle.std.specs.Prelude.{◌≡◌, ◌↔◌, ℕ, ◌<◌, ◌≤◌, All, length, map, IsTrue, true};
ghost use Rattle.std.specs.Int.{int_max};
ghost use Rattle.spd_nodes.specs.Levels.{levels_of, slots};
ghost use Rattle.spd_nodes.specs.Shown.{Shown, MakesDiagram, meaning};
ghost use Rattle.spd_apply.specs.Halves.{IsLeaf};
ghost use Rattle.spd_apply.specs.Operations.{num_of};
ghost use Rattle.spd_gather.specs.Down.{Each, at_each_leaf, last_leaf};
ghost use Rattle.spd_gather.specs.Lists.{AreKnown, trees_of};
ghost use Rattle.spd_policy.specs.Best.{greatest_of, IsNumeric};
ghost use Rattle.spd_policy.specs.Choosing.{greatest_leaf, AreOne, MayCompare, HoldsGreatest};

use spd_apply::OpFault;
use spd_gather::{ListPlan, ListRule, Pool, Table, make_list, split};
use spd_nodes::{Forest, Leaf, Ref, Steps, View};
use std::alloc::{AllocError, Global};
use std::sync::ledger::Ledger;

/// The greatest of several diagrams; `levels` is the number of all levels.
#[derive(Clone, Copy)]
struct Highest {
    levels: u16,
}

/// Whether all Refs of a list are one.
fn are_one(list: &[Ref]) -> bool
    ensures { IsTrue result ↔ AreOne list.now }
{
    for i in 1..list.len() {
        if list[i] != list[0] {
            return false;
        }
    }
    true
}

/// The leaf of a Ref that is one.
fn leaf_of<F: Forest>(forest: &mut F, r: Ref) -> Leaf
    requires known { (F.shows forest.old).knows r ≡ true }
    requires leaf { IsLeaf ((F.shows forest.old).tree r) }
    ensures same { F.shows forest.new ≡ F.shows forest.old }
    ensures keeps { F.kept forest.new ≡ F.kept forest.old }
    ensures leaf { result ≡ last_leaf ((F.shows forest.old).tree r) }
{
    match forest.view(r) {
        View::Leaf(leaf) => leaf,
        View::Test { .. } => unreachable!(),
    }
}

/// The greater of two leaves, where both are numbers.
fn higher(a: Leaf, b: Leaf) -> Leaf
    ensures { result ≡ num_of int_max a b }
{
    match (a, b) {
        (Leaf::Num(x), Leaf::Num(y)) => Leaf::Num(x.max(y)),
        _ => a,
    }
}

/// The greatest of leaves.
fn highest_leaf<F: Forest>(forest: &mut F, list: &[Ref]) -> Leaf
    requires known { AreKnown (F.shows forest.old) list.now }
    requires leaves { All (λ r. IsLeaf ((F.shows forest.old).tree r)) list.now }
    requires some { 0 < length list.now }
    ensures same { F.shows forest.new ≡ F.shows forest.old }
    ensures keeps { F.kept forest.new ≡ F.kept forest.old }
    ensures leaf { result ≡ greatest_leaf (map last_leaf (trees_of (F.shows forest.old) list.now)) }
{
    let mut best = leaf_of(forest, list[0]);
    for i in 1..list.len() {
        let leaf = leaf_of(forest, list[i]);
        best = higher(best, leaf);
    }
    best
}

impl ListRule for Highest {
    ghost making = { λ r ts. at_each_leaf r.levels greatest_leaf ts };

    ghost may = { λ r sizes ts. MayCompare r.levels sizes ts };

    ghost ends = { λ r sizes ts. Each IsLeaf ts };

    fn known<F: Forest>(&self, _forest: &mut F, list: &[Ref]) -> Option<Ref> {
        if are_one(list) { Some(list[0]) } else { None }
    }

    fn plan<F: Forest>(
        &self,
        forest: &mut F,
        list: &[Ref],
        pool: &mut Pool,
    ) -> Result<ListPlan, AllocError> {
        let sides = split(forest, list, pool)?;
        match sides.low {
            None => {
                pool.give(sides.yes);
                pool.give(sides.no);
                Ok(ListPlan::Bottom)
            }
            Some(level) => Ok(ListPlan::Test {
                level,
                yes: sides.yes,
                no: sides.no,
            }),
        }
    }

    fn bottom<F: Forest, L: Ledger>(
        &self,
        forest: &mut F,
        list: &[Ref],
        steps: &mut Steps<L>,
    ) -> Result<Ref, OpFault> {
        let leaf = highest_leaf(forest, list);
        forest.leaf(leaf, steps)
    }
}

/// The greatest of several diagrams at each state.
pub fn greatest_bound<F: Forest, L: Ledger>(
    alloc: Global,
    forest: &mut F,
    list: &[Ref],
    table: &mut Table,
    steps: &mut Steps<L>,
) -> Result<Ref, OpFault>
    requires list { All (λ r. IsNumeric (F.shows forest.old) r) list.now }
    requires some { 0 < length list.now }
    requires few { length list.now ≤ 64 }
    requires table { HoldsGreatest (F.shows forest.old) table.old }
    ensures made { MakesDiagram (F.shows forest.old) (F.shows forest.new) (greatest_of (map (meaning (F.shows forest.old)) list.now)) result }
    ensures keeps { F.kept forest.new ≡ F.kept forest.old }
    ensures table { HoldsGreatest (F.shows forest.new) table.new }
{
    let layout = forest.layout();
    let last = layout.sizes().len() as u32 - 1;
    let (_, levels) = layout.tests(last, false);
    let rule = Highest { levels };
    make_list(alloc, forest, &rule, list, table, steps)
}
