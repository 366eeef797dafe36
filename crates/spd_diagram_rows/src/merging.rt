//! Merging, called once.

ghost use Rattle.std.specs.Prelude.{◌≡◌, ℕ, ◌<◌, ◌≤ℤ◌, pos, IfOk, true};
ghost use Rattle.spd_nodes.specs.Shown.{Shown, Grows};
ghost use Rattle.spd_ranges.specs.Merging.{at_most};

use crate::guarded::test;
use crate::reading::leaf_at;
use spd_apply::{LeafOp, fits_leaves};
use spd_nodes::{Alone, Forest, Layout, Leaf, Level, Ref, Steps, is_whole};
use spd_ranges::{Ranged, merge};
use std::alloc::Global;
use std::marker::Brand;
use std::sync::ledger::{Blank, Ledger};
use std::test::Fail;

/// Fits two numbers of which the left one is at most the right one, and answers the left one.
struct InOrder;

impl LeafOp for InOrder {
    ghost fits = { λ _ a b. at_most a b };

    ghost of = { λ _ a b. a };

    fn fits(&self, a: Leaf, b: Leaf) -> bool {
        match (a, b) {
            (Leaf::Num(x), Leaf::Num(y)) => x <= y,
            _ => false,
        }
    }

    fn of(&self, a: Leaf, _b: Leaf) -> Leaf {
        a
    }
}

/// The diagram of a number for each of a variable's three values.
fn by_value<F: Forest, L: Ledger>(
    forest: &mut F,
    numbers: [i128; 3],
    steps: &mut Steps<L>,
) -> Result<Ref, Fail>
    ensures grows { Grows (F.shows forest.old) (F.shows forest.new) }
    ensures ok { IfOk result (λ r. (F.shows forest.new).knows r ≡ true) }
{
    let first = forest.leaf(Leaf::Num(numbers[0]), steps)?;
    let second = forest.leaf(Leaf::Num(numbers[1]), steps)?;
    let third = forest.leaf(Leaf::Num(numbers[2]), steps)?;
    let rest = test(forest, Level(3), second, third, steps)?;
    test(forest, Level(2), first, rest, steps)
}

/// A merge of two known diagrams, where a test of its conditions passes.
fn merged<F: Forest, L: Ledger>(
    alloc: Global,
    forest: &mut F,
    low: Ref,
    high: Ref,
    span: i128,
    steps: &mut Steps<L>,
) -> Result<Ranged, Fail>
    requires low { (F.shows forest.old).knows low ≡ true }
    requires high { (F.shows forest.old).knows high ≡ true }
    requires span { pos 0 ≤ℤ span }
    ensures pairs { IfOk result (λ r. (F.shows forest.new).knows r.pairs ≡ true) }
    ensures range { IfOk result (λ r. (F.shows forest.new).knows r.range ≡ true) }
    ensures mid { IfOk result (λ r. (F.shows forest.new).knows r.mid ≡ true) }
{
    if !is_whole(forest, low) || !is_whole(forest, high) {
        return Err(Fail::new("a diagram isn't whole"));
    }
    if !fits_leaves(alloc, forest, &InOrder, low, high)? {
        return Err(Fail::new("two leaves aren't in order"));
    }
    Ok(merge(alloc, forest, low, high, span, 16, steps)?)
}

/// The leaf of a diagram at each of the variable's values.
fn leaves<F: Forest>(forest: &mut F, r: Ref) -> [Option<Leaf>; 3]
    requires { (F.shows forest.old).knows r ≡ true }
    ensures { F.shows forest.new ≡ F.shows forest.old }
{
    [
        leaf_at(forest, r, &[0], &[0], 8),
        leaf_at(forest, r, &[1], &[0], 8),
        leaf_at(forest, r, &[2], &[0], 8),
    ]
}

/// The leaves of the pairs, of their ranges and of the values, for the bounds 0, 1, 2 and 2, 10, 20 and a span.
fn merged_leaves<F: Forest, L: Ledger>(
    alloc: Global,
    forest: &mut F,
    span: i128,
    steps: &mut Steps<L>,
) -> Result<[[Option<Leaf>; 3]; 3], Fail>
    requires span { pos 0 ≤ℤ span }
{
    let low = by_value(forest, [0, 1, 2], steps)?;
    let high = by_value(forest, [2, 10, 20], steps)?;
    let ranged = merged(alloc, forest, low, high, span, steps)?;
    Ok([
        leaves(forest, ranged.pairs),
        leaves(forest, ranged.range),
        leaves(forest, ranged.mid),
    ])
}

/// The same over a forest of 64 entries.
fn merged_alone<L: Ledger>(
    alloc: Global,
    blank: Blank,
    span: i128,
) -> Result<[[Option<Leaf>; 3]; 3], Fail>
    requires name { blank.name ≡ L.name }
    requires parts { blank.parts ≡ L.parts }
    requires one { 0 < blank.parts }
    requires span { pos 0 ≤ℤ span }
{
    let mut steps = Steps::<L>::new(blank);
    let mut forest = Alone::new(alloc, Layout::new(alloc, &[3])?, 64)?;
    merged_leaves(alloc, &mut forest, span, &mut steps)
}

/// A leaf that is a pair.
fn pair(low: i128, high: i128) -> Option<Leaf> {
    Some(Leaf::Pair(low, high))
}

/// A leaf that is a number.
fn number(x: i128) -> Option<Leaf> {
    Some(Leaf::Num(x))
}

#[test]
fn a_group_ends_where_its_range_passes_the_span(rt: HostRuntime) -> Result<(), Fail> {
    let alloc = rt.alloc();
    let pairs = [pair(0, 2), pair(1, 10), pair(2, 20)];
    assert_eq!(rt;
        merged_alone::<Brand>(alloc, Blank::new(1), 10)?,
        [
            pairs,
            [pair(0, 10), pair(0, 10), pair(2, 20)],
            [number(5), number(5), number(11)],
        ]
    );
    assert_eq!(rt;
        merged_alone::<Brand>(alloc, Blank::new(1), 0)?,
        [pairs, pairs, [number(1), number(5), number(11)]]
    );
    Ok(())
}
