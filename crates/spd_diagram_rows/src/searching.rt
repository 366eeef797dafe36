//! `first_found` against a search of the whole table.
ghost use Rattle.std.specs.Prelude.{◌≡◌, ◌<◌, true, false, int_le};
ghost use Rattle.spd_nodes.specs.declared.leaf.Leaf.TheVariants.{Num};

use crate::binary::num3;
use crate::tables::{LEFT, PLAIN, PRIMED, RIGHT, SIZES, Shape, Table, diagram, table};
use spd_nodes::{Alone, Forest, Layout, Leaf, Steps, is_whole};
use spd_search::{Found, Wanted, first_found};
use std::alloc::Global;
use std::marker::Brand;
use std::sync::ledger::{Blank, Ledger};
use std::test::Fail;

/// Its first states with leaf 1 and leaf 2 come late, and at state 2 leaf 2 comes before leaf 1.
const LATE: Shape = [
    [0, 0, 0, 0, 0, 0],
    [0, 0, 0, 0, 0, 0],
    [0, 0, 0, 0, 2, 1],
    [0, 0, 2, 0, 0, 0],
    [2, 1, 0, 0, 0, 0],
    [1, 0, 0, 0, 0, 2],
];

/// The numbers from this one on.
#[derive(Clone, Copy, Debug)]
struct AtLeast(i128);

impl Wanted for AtLeast {
    ghost wants = { λ wanted leaf. elim leaf [ Num x ↦ int_le wanted.0 x | _ ↦ false ] };

    fn is_wanted(&self, leaf: Leaf) -> bool {
        match leaf {
            Leaf::Num(x) => x >= self.0,
            _ => false,
        }
    }
}

/// The first present state (row) at which a table has a leaf that is wanted, with the first such leaf there.
fn first_in(table: &Table, wanted: &AtLeast) -> Option<([u8; 3], Leaf)> {
    for s in 0..6 {
        for t in 0..6 {
            if wanted.is_wanted(table[s][t]) {
                return Some(([(s / 3) as u8, (s % 3) as u8, 0], table[s][t]));
            }
        }
    }
    None
}

/// Whether both are one state and one leaf.
fn is_same(found: Found, expected: ([u8; 3], Leaf)) -> bool {
    found.leaf == expected.1 && found.state.values() == expected.0.as_slice()
}

/// Fails where another state or leaf is found than in the table.
fn finds<F: Forest, L: Ledger>(
    alloc: Global,
    forest: &mut F,
    table: &Table,
    wanted: &AtLeast,
    steps: &mut Steps<L>,
) -> Result<(), Fail> {
    let f = diagram(forest, table, steps)?;
    if !is_whole(forest, f) {
        return Err(Fail::new("the diagram isn't whole"));
    }
    let right = match (
        first_found(alloc, forest, f, wanted)?,
        first_in(table, wanted),
    ) {
        (None, None) => true,
        (Some(found), Some(expected)) => is_same(found, expected),
        _ => false,
    };
    if right {
        Ok(())
    } else {
        Err(Fail::new(format_args!("another place for {wanted:?}")))
    }
}

/// The same for one shape, with its leaves in three orders.
fn finds_in<F: Forest, L: Ledger>(
    alloc: Global,
    forest: &mut F,
    shape: &Shape,
    steps: &mut Steps<L>,
) -> Result<(), Fail> {
    for leaves in [num3([-1, 4, 9]), num3([9, -1, 4]), num3([4, 9, -1])] {
        for least in [-1, 0, 9, 10] {
            finds(alloc, forest, &table(shape, leaves), &AtLeast(least), steps)?;
        }
    }
    Ok(())
}

/// The same for five shapes.
fn all_alone<L: Ledger>(alloc: Global, blank: Blank) -> Result<(), Fail>
    requires name { blank.name ≡ L.name }
    requires parts { blank.parts ≡ L.parts }
    requires one { 0 < blank.parts }
{
    let mut steps = Steps::<L>::new(blank);
    let mut forest = Alone::new(alloc, Layout::new(alloc, &SIZES)?, 10_000)?;
    for shape in [&LEFT, &RIGHT, &PLAIN, &PRIMED, &LATE] {
        finds_in(alloc, &mut forest, shape, &mut steps)?;
    }
    Ok(())
}

#[test]
fn the_first_place_is_that_of_the_table(rt: HostRuntime) -> Result<(), Fail> {
    all_alone::<Brand>(rt.alloc(), Blank::new(1))
}
