//! Building.

ghost use Rattle.std.specs.Prelude.{◌≡◌, ◌<◌, IfOk};
ghost use Rattle.spd_build.specs.Built.{IsBuiltWhole};

use crate::fault::BenchError;
use crate::measure::{Measure, measure_list};
use spd_build::{Built, build, layout_of};
use spd_frozen::{Frozen, Mixed};
use spd_model::Model;
use spd_nodes::{Alone, Counting, Steps};
use std::alloc::Global;
use std::sync::ledger::{Blank, Ledger};

/// How many answers each table of an operation keeps: more than any of them meets, which is less than 4 * 2^16.
pub const MEMO_SIZE: usize = 1_048_576;

/// The nodes of some lists together.
fn nodes_of(lists: &[Frozen]) -> usize {
    let mut nodes: usize = 0;
    for list in lists {
        nodes = nodes.saturating_add(list.nodes().len());
    }
    nodes
}

/// The same for lists over present and next values.
fn mixed_nodes_of(lists: &[Mixed]) -> usize {
    let mut nodes: usize = 0;
    for list in lists {
        nodes = nodes.saturating_add(list.nodes().len());
    }
    nodes
}

/// The nodes of all lists that a model was built into.
fn built_nodes(built: &Built) -> usize {
    let weights = mixed_nodes_of(built.weights.as_slice());
    let rewards = nodes_of(built.rewards.as_slice());
    weights
        .saturating_add(rewards)
        .saturating_add(built.start.nodes().len())
}

/// Builds and measures a model, in a forest of at most so many entries.
pub fn measure_build<L: Ledger>(
    alloc: Global,
    model: &Model,
    limit: u32,
    blank: Blank,
    measures: &mut Vec<Measure>,
) -> Result<Built, BenchError>
    requires name { blank.name ≡ L.name }
    requires parts { blank.parts ≡ L.parts }
    requires one { 0 < blank.parts }
    ensures { IfOk result (IsBuiltWhole model.now) }
{
    let mut steps = Steps::<L>::new(blank);
    let forest = Alone::new(alloc, layout_of(alloc, model)?, limit)?;
    let mut counting = Counting { forest, calls: 0 };
    let built = build(alloc, model, &mut counting, MEMO_SIZE, &mut steps)?;
    measure_list(&counting, "build", built_nodes(&built), 0, measures)?;
    Ok(built)
}
