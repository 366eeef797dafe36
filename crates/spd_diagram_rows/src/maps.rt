//! `map_leaves` of each map.
use crate::binary::num3;
use crate::guarded::mapped;
use crate::tables::{LEFT, check, diagram, table};
use spd_apply::{
    ActNum, CeilBy, First, FloorBy, LeafMap, Second, SecondAct, TimesCeil, TimesFloor,
};
use spd_nodes::{Forest, Leaf, Steps};
use std::alloc::Global;
use std::fmt::Debug;
use std::sync::ledger::Ledger;
use std::test::Fail;

/// Fails where a map's diagram for `LEFT` with three leaves doesn't have these answers.
fn maps_each<F: Forest, M: LeafMap + Debug, L: Ledger>(
    alloc: Global,
    forest: &mut F,
    map: &M,
    leaves: [Leaf; 3],
    answers: [Leaf; 3],
    steps: &mut Steps<L>,
) -> Result<(), Fail> {
    let f = diagram(forest, &table(&LEFT, leaves), steps)?;
    let r = mapped(alloc, forest, map, f, steps)?;
    check(forest, r, &table(&LEFT, answers), map)
}

/// The same for some leaves and answers that are numbers.
fn maps_numbers<F: Forest, M: LeafMap + Debug, L: Ledger>(
    alloc: Global,
    forest: &mut F,
    map: &M,
    cases: &[([i128; 3], [i128; 3])],
    steps: &mut Steps<L>,
) -> Result<(), Fail> {
    for (numbers, answers) in cases {
        maps_each(alloc, forest, map, num3(*numbers), num3(*answers), steps)?;
    }
    Ok(())
}

/// The maps that divide.
fn rounding<F: Forest, L: Ledger>(
    alloc: Global,
    forest: &mut F,
    steps: &mut Steps<L>,
) -> Result<(), Fail> {
    const BELOW: [i128; 3] = [-4, -3, -1];
    const ABOVE: [i128; 3] = [1, 3, 5];
    let down = [(BELOW, [-2, -1, -1]), (ABOVE, [0, 1, 1])];
    maps_numbers(alloc, forest, &FloorBy(3), &down, steps)?;
    let up = [(BELOW, [-1, -1, 0]), (ABOVE, [1, 1, 2])];
    maps_numbers(alloc, forest, &CeilBy(3), &up, steps)?;
    let two_thirds = TimesFloor { g: 2, gd: 3 };
    let down = [(BELOW, [-3, -2, -1]), (ABOVE, [0, 2, 3])];
    maps_numbers(alloc, forest, &two_thirds, &down, steps)?;
    let two_thirds = TimesCeil { g: 2, gd: 3 };
    let up = [(BELOW, [-2, -2, 0]), (ABOVE, [1, 2, 4])];
    maps_numbers(alloc, forest, &two_thirds, &up, steps)?;
    let less_half = TimesFloor { g: -1, gd: 2 };
    let down = [([1, 2, -3], [-1, -1, 1])];
    maps_numbers(alloc, forest, &less_half, &down, steps)?;
    let less_half = TimesCeil { g: -1, gd: 2 };
    let up = [([1, 2, -3], [0, -1, 2])];
    maps_numbers(alloc, forest, &less_half, &up, steps)
}

/// The maps that change a leaf's kind.
fn kinds<F: Forest, L: Ledger>(
    alloc: Global,
    forest: &mut F,
    steps: &mut Steps<L>,
) -> Result<(), Fail> {
    let pairs = [Leaf::Pair(3, -2), Leaf::Pair(-4, 0), Leaf::Pair(3, 9)];
    maps_each(alloc, forest, &First, pairs, num3([3, -4, 3]), steps)?;
    maps_each(alloc, forest, &Second, pairs, num3([-2, 0, 9]), steps)?;
    let most = 4_294_967_295;
    let pairs = [Leaf::Pair(3, 2), Leaf::Pair(-4, 0), Leaf::Pair(3, most)];
    let acts = [Leaf::Act(2), Leaf::Act(0), Leaf::Act(4_294_967_295)];
    maps_each(alloc, forest, &SecondAct, pairs, acts, steps)?;
    maps_each(alloc, forest, &ActNum, acts, num3([2, 0, most]), steps)
}

/// Fails where `map_leaves` of a map answers another table.
pub fn maps<F: Forest, L: Ledger>(
    alloc: Global,
    forest: &mut F,
    steps: &mut Steps<L>,
) -> Result<(), Fail> {
    rounding(alloc, forest, steps)?;
    kinds(alloc, forest, steps)
}
