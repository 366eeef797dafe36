//! Each operation over the table of cases, in a forest for one thread and in one that counts its calls.
ghost use Rattle.std.specs.Prelude.{◌≡◌, ◌<◌};

use crate::binary::operations;
use crate::maps::maps;
use crate::restrictions::restrictions;
use crate::tables::{LEFT, PLAIN, PRIMED, RIGHT, SIZES, check, diagram, table};
use spd_nodes::{Alone, Counting, Forest, Layout, Leaf, Steps};
use std::alloc::Global;
use std::marker::Brand;
use std::sync::ledger::{Blank, Ledger};
use std::test::Fail;

/// Fails where a diagram of a table has another leaf than the table.
fn diagrams<F: Forest, L: Ledger>(forest: &mut F, steps: &mut Steps<L>) -> Result<(), Fail> {
    let leaves = [Leaf::Num(-3), Leaf::Pair(0, 1), Leaf::Act(2)];
    for shape in [&LEFT, &RIGHT, &PLAIN, &PRIMED] {
        let table = table(shape, leaves);
        let f = diagram(forest, &table, steps)?;
        check(forest, f, &table, &"a diagram")?;
    }
    Ok(())
}

pub fn all<F: Forest, L: Ledger>(
    alloc: Global,
    forest: &mut F,
    steps: &mut Steps<L>,
) -> Result<(), Fail> {
    diagrams(forest, steps)?;
    operations(alloc, forest, steps)?;
    maps(alloc, forest, steps)?;
    restrictions(alloc, forest, steps)
}

fn all_alone<L: Ledger>(alloc: Global, blank: Blank) -> Result<(), Fail>
    requires name { blank.name ≡ L.name }
    requires parts { blank.parts ≡ L.parts }
    requires one { 0 < blank.parts }
{
    let mut steps = Steps::<L>::new(blank);
    let mut forest = Alone::new(alloc, Layout::new(alloc, &SIZES)?, 10_000)?;
    all(alloc, &mut forest, &mut steps)
}

/// The number of calls that were counted.
fn all_counted<L: Ledger>(alloc: Global, blank: Blank) -> Result<u64, Fail>
    requires name { blank.name ≡ L.name }
    requires parts { blank.parts ≡ L.parts }
    requires one { 0 < blank.parts }
{
    let mut steps = Steps::<L>::new(blank);
    let forest = Alone::new(alloc, Layout::new(alloc, &SIZES)?, 10_000)?;
    let mut counting = Counting { forest, calls: 0 };
    all(alloc, &mut counting, &mut steps)?;
    Ok(counting.calls)
}

#[test]
fn answers_are_those_of_tables(rt: HostRuntime) -> Result<(), Fail> {
    all_alone::<Brand>(rt.alloc(), Blank::new(1))?;
    Ok(())
}

#[test]
fn a_counting_forest_gives_the_same_tables(rt: HostRuntime) -> Result<(), Fail> {
    let calls = all_counted::<Brand>(rt.alloc(), Blank::new(1))?;
    assert!(rt; calls > 0);
    Ok(())
}
