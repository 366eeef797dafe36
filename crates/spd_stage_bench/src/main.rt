//! Runs the stages of solving on a ring of machines, and prints how many nodes each diagram or list has and how many find-or-make calls it
//! took. Time is taken from outside.
//!
//! There are n = 16 machines, each up or down, so N = 2^16 states. The only action gives each machine the state of the one before it, and the
//! first one that of the last. Machine i is worth 2^i units of 10^-9 while it is up, so that each state has a reward of its own: the reward's
//! diagram has a leaf for each state and a test for each choice of states of the machines before one, 2N - 1 nodes in all, and no node is met
//! twice on the way down. The discount is 1/2. Every count can be had by hand:
//!
//! - `build`: a weight is 1 or 0 after one test: 2n lists of 3 nodes. The reward and the value at the start are the same list of 2N - 1.
//!   The table of a machine takes 3 calls for each of the two branches on its next state and one for the branch above them, the first one's
//!   3, since its next state is tested before the state of the last machine; its two weights take a call each, but the first one's none; and
//!   the sum of the weights takes 2, but the pairs of their leaves are known after the first one: 9n + 2 calls. The reward begins with a leaf,
//!   and each part takes 3 calls. Adding part i meets 2^i - 1 tests of the sum, and the part and its two leaves beside each of 2^i leaves,
//!   2^(i + 2) - 1 pairs, of which 2^(i - 1), those of a leaf and 0, are known from the part before (i > 0): 4(N - 1) - n - (N/2 - 1) calls.
//!   The costs begin, and end, with the leaf 0: one call; taking them off meets each node of the sum once: 2N - 1. Together 11N/2 + 11n.
//! - `thaw`: the weights take 3 calls each, the reward and the value a call for each node: 6n + 2(2N - 1).
//! - `freeze`, `freeze_mixed`: a list of 2N - 1 nodes, with no call. `thaw_mixed`: a call for each of them.
//! - `sum_out`: the next state of a machine is up and down with 1/2 each. Half of the leaves stay, so the sum has N - 1 nodes, and no pair of
//!   nodes meets twice, so that each is made in one call.
//! - `discount down`: half of an odd value is rounded down, so that the first machine's state has no effect: N - 1 nodes. Each of the 2N - 1
//!   nodes is met once, but the test of the first machine has equal children, which takes no call.
//! - `discount up`: where the first machine is up, one more than where it is down. Behind the first k machines, for k from 1 to n, what is
//!   left is a function of a number from 0 to 2^(k - 1): 2^(k - 1) + 1 nodes, and the root: N + n nodes. Each of the 2N - 1 nodes met takes a
//!   call.
//! - `backup`: the primed value takes a call for each of its N - 1 tests. Summing out the first machine meets both halves of the value, with N/2
//!   leaves each, and a test of the last machine below each pair of leaves: N - 1 calls. Summing out machine i, for i from 1 on, takes a test
//!   for each choice of the states of the machines 0 to i - 1, 2^i - 1 calls, and takes over what stands below: N - n - 1 calls in all. This
//!   rounds nothing, so the sums serve both bounds. The expectation is 2a + b, where b is whether the last machine is up, and a the number
//!   whose digit i is whether machine i is up, without the last machine. Half of it rounded down is a, so that the N/2 tests of the last
//!   machine take no call: 3N/2 - 1; rounded up it is a + b: 2N - 1. Adding the reward meets each of its nodes once: 2N - 1 calls for the
//!   lower bound; for the upper one the pairs of leaves are known where the last machine is down: 3N/2 - 1. Together 10N - n - 7 calls.
//! - `lower`, `upper`: the reward is a + bN/2, so that the bounds are 2a + bN/2 and 2a + bN/2 + b. The upper one has a leaf for each state. The
//!   lower one has the even numbers from 0 to 3N/2 - 2 alone, but the same N - 1 tests: 7N/4 - 1 nodes.
#![tactic(auto)]

ghost use Rattle.std.specs.Prelude.{◌≡◌, ◌<◌};
ghost use Rattle.spd_build.specs.Built.{IsBuiltWhole};

mod backing;
mod building;
mod fault;
mod lists;
mod measure;
mod parts;
mod ring;
mod weighing;

use crate::backing::measure_backup;
use crate::building::measure_build;
use crate::fault::BenchError;
use crate::lists::measure_lists;
use crate::measure::Measure;
use crate::parts::parts_of;
use crate::ring::ring;
use crate::weighing::{Summed, measure_discount, measure_sum};
use spd_build::{Built, layout_of};
use spd_model::Model;
use spd_nodes::{Alone, Counting, Steps};
use spd_weigh::Way;
use std::alloc::Global;
use std::marker::Brand;
use std::sync::ledger::{Blank, Ledger};

/// How many entries a forest may have.
const LIMIT: u32 = 8_388_608;

/// What is made of the parts of a model.
#[derive(Clone, Copy)]
enum Stage {
    /// Lists of nodes, and diagrams of them.
    Lists,
    /// The value at the next state with a machine summed out.
    Sum(Summed),
    /// The value times the discount.
    Discount(&'static str, Way),
    /// The bounds of the action's return.
    Backup,
}

/// All stages, in the order in which they run.
const STAGES: [Stage; 6] = [
    Stage::Lists,
    Stage::Sum(Summed {
        name: "sum_out first",
        machine: 0,
        way: Way::Down,
    }),
    Stage::Sum(Summed {
        name: "sum_out middle",
        machine: 8,
        way: Way::Up,
    }),
    Stage::Discount("discount down", Way::Down),
    Stage::Discount("discount up", Way::Up),
    Stage::Backup,
];

/// Runs a stage on the parts of a built model, in a forest of its own, and adds its measures.
fn run<L: Ledger>(
    alloc: Global,
    model: &Model,
    built: &Built,
    stage: Stage,
    blank: Blank,
    measures: &mut Vec<Measure>,
) -> Result<(), BenchError>
    requires built { IsBuiltWhole model.now built.now }
    requires name { blank.name ≡ L.name }
    requires parts { blank.parts ≡ L.parts }
    requires one { 0 < blank.parts }
{
    let mut steps = Steps::<L>::new(blank);
    let forest = Alone::new(alloc, layout_of(alloc, model)?, LIMIT)?;
    let mut forest = Counting { forest, calls: 0 };
    let parts = parts_of(alloc, model, built, &mut forest, &mut steps)?;
    match stage {
        Stage::Lists => measure_lists(alloc, &mut forest, &parts, measures, &mut steps),
        Stage::Sum(summed) => {
            measure_sum(alloc, &mut forest, &parts, summed, measures, &mut steps)
        }
        Stage::Discount(name, way) => {
            measure_discount(alloc, &mut forest, &parts, name, way, measures, &mut steps)
        }
        Stage::Backup => measure_backup(alloc, &mut forest, &parts, measures, &mut steps),
    }
}

/// Builds the ring, runs all stages on it, and adds their measures.
fn run_all(alloc: Global, measures: &mut Vec<Measure>) -> Result<(), BenchError> {
    let model = ring(alloc)?;
    let built = measure_build::<Brand>(alloc, &model, LIMIT, Blank::new(1), measures)?;
    for stage in STAGES {
        run::<Brand>(alloc, &model, &built, stage, Blank::new(1), measures)?;
    }
    Ok(())
}

fn main(rt: HostRuntime) -> anyhow::Result<()> {
    let mut measures = Vec::new(rt.alloc());
    run_all(rt.alloc(), &mut measures)?;
    for measure in &measures {
        println!(rt; "{measure}")?;
    }
    Ok(())
}
