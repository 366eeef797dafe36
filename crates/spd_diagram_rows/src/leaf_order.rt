//! The order of leaves, on one diagram.
ghost use Rattle.std.specs.Prelude.{◌≡◌, ◌<◌, IfOk, true};
ghost use Rattle.spd_nodes.specs.Shown.{Shown};

use crate::guarded::test;
use spd_apply::leaves_of;
use spd_nodes::{Alone, Counting, Forest, Layout, Leaf, Level, Ref, Steps, is_whole};
use std::alloc::Global;
use std::marker::Brand;
use std::sync::ledger::{Blank, Ledger};
use std::test::Fail;

/// The diagram that has a leaf where a level's test holds, and is `no` where it doesn't.
fn leaf_or<F: Forest, L: Ledger>(
    forest: &mut F,
    level: u16,
    leaf: Leaf,
    no: Ref,
    steps: &mut Steps<L>,
) -> Result<Ref, Fail>
    requires { (F.shows forest.old).knows no ≡ true }
    ensures { IfOk result (λ r. (F.shows forest.new).knows r ≡ true) }
{
    let yes = forest.leaf(leaf, steps)?;
    test(forest, Level(level), yes, no, steps)
}

/// The leaves of a function of two variables with two values each.
fn mixed_leaves<F: Forest, L: Ledger>(
    alloc: Global,
    forest: &mut F,
    steps: &mut Steps<L>,
) -> Result<Vec<Leaf>, Fail> {
    let f = forest.leaf(Leaf::Num(-5), steps)?;
    let f = leaf_or(forest, 3, Leaf::Act(7), f, steps)?;
    let f = leaf_or(forest, 2, Leaf::Pair(-1, 4), f, steps)?;
    let f = leaf_or(forest, 1, Leaf::Num(3), f, steps)?;
    let f = leaf_or(forest, 0, Leaf::Pair(-1, -4), f, steps)?;
    if !is_whole(forest, f) {
        return Err(Fail::new("the diagram isn't whole"));
    }
    Ok(leaves_of(alloc, forest, f)?)
}

/// The same in a forest for one thread, and in one that counts its calls.
fn mixed_leaves_twice<L: Ledger>(
    alloc: Global,
    blank: Blank,
) -> Result<(Vec<Leaf>, Vec<Leaf>), Fail>
    requires name { blank.name ≡ L.name }
    requires parts { blank.parts ≡ L.parts }
    requires one { 0 < blank.parts }
{
    let mut steps = Steps::<L>::new(blank);
    let mut forest = Alone::new(alloc, Layout::new(alloc, &[2, 2])?, 64)?;
    let alone = mixed_leaves(alloc, &mut forest, &mut steps)?;
    let forest = Alone::new(alloc, Layout::new(alloc, &[2, 2])?, 64)?;
    let mut counting = Counting { forest, calls: 0 };
    let counted = mixed_leaves(alloc, &mut counting, &mut steps)?;
    Ok((alone, counted))
}

#[test]
fn leaves_come_in_order(rt: HostRuntime) -> Result<(), Fail> {
    let expected = [
        Leaf::Num(-5),
        Leaf::Num(3),
        Leaf::Pair(-1, -4),
        Leaf::Pair(-1, 4),
        Leaf::Act(7),
    ];
    let (alone, counted) = mixed_leaves_twice::<Brand>(rt.alloc(), Blank::new(1))?;
    assert_eq!(rt; alone.as_slice(), expected.as_slice());
    assert_eq!(rt; counted.as_slice(), expected.as_slice());
    Ok(())
}
