//! Summing out and discounting the value.

ghost use Rattle.std.specs.Prelude.{◌≡◌, ◌<◌, IfOk, IsTrue, length, pos, slice_index, true};
ghost use Rattle.spd_nodes.specs.declared.leaf.Leaf.TheVariants.{Num};
ghost use Rattle.spd_nodes.specs.Shown.{Shown, Grows, KnowsAs};
ghost use Rattle.spd_nodes.specs.Trees.{Ends};
ghost use Rattle.spd_restrict.specs.Primed.{TestsNoPrimed};
ghost use Rattle.spd_stage_bench.specs.Parts.{HasParts, IsOfValues};

use crate::building::MEMO_SIZE;
use crate::fault::BenchError;
use crate::measure::{Measure, measure_diagram};
use spd_nodes::{Counting, Forest, Layout, Leaf, Ref, Steps};
use spd_restrict::prime;
use spd_turn::TurnParts;
use spd_weigh::{Way, discount, sum_out};
use std::alloc::Global;
use std::sync::ledger::Ledger;

/// One half, as a discount.
const HALF: u32 = 500_000;

/// A machine whose next state is summed out, and how the sum is rounded.
#[derive(Clone, Copy)]
pub struct Summed {
    pub name: &'static str,
    pub machine: u32,
    pub way: Way,
}

/// Whether there is a variable of this number, with two values.
fn has_two(layout: &Layout, var: u32) -> bool
    ensures var { IsTrue result → var < length layout.now }
    ensures two { IsTrue result → slice_index layout.now var ≡ 2 }
{
    let sizes = layout.sizes();
    let var = var as usize;
    var < sizes.len() && sizes[var] == 2
}

/// One half, as a probability.
fn half<F: Forest, L: Ledger>(forest: &mut F, steps: &mut Steps<L>) -> Result<Ref, BenchError>
    ensures grows { Grows (F.shows forest.old) (F.shows forest.new) }
    ensures ok { IfOk result (λ r. KnowsAs (F.shows forest.new) r (Ends (Num (pos 500000000000)))) }
{
    Ok(forest.leaf(Leaf::Num(500_000_000_000), steps)?)
}

/// The value at the next state.
fn next_of<F: Forest, L: Ledger>(
    alloc: Global,
    forest: &mut F,
    w: Ref,
    steps: &mut Steps<L>,
) -> Result<Ref, BenchError>
    requires value { IsOfValues (F.shows forest.old) w }
    requires plain { TestsNoPrimed (F.shows forest.old).sizes ((F.shows forest.old).tree w) }
    ensures grows { Grows (F.shows forest.old) (F.shows forest.new) }
    ensures ok { IfOk result (IsOfValues (F.shows forest.new)) }
{
    Ok(prime(alloc, forest, w, steps)?)
}

/// A diagram with a variable's next value summed out, where each of its two values has the same weight.
fn sum_by<F: Forest, L: Ledger>(
    alloc: Global,
    forest: &mut F,
    f: Ref,
    summed: Summed,
    weight: Ref,
    steps: &mut Steps<L>,
) -> Result<Ref, BenchError>
    requires f { IsOfValues (F.shows forest.old) f }
    requires weight { KnowsAs (F.shows forest.old) weight (Ends (Num (pos 500000000000))) }
    ensures { IfOk result (λ r. (F.shows forest.new).knows r ≡ true) }
{
    if !has_two(forest.layout(), summed.machine) {
        return Err(BenchError::NoMachine);
    }
    let weights = [weight, weight];
    Ok(sum_out(
        alloc,
        forest,
        f,
        summed.machine,
        &weights,
        summed.way,
        MEMO_SIZE,
        steps,
    )?)
}

/// Sums a machine's next state out of the value at the next state, and measures the sum.
pub fn measure_sum<F: Forest, L: Ledger>(
    alloc: Global,
    forest: &mut Counting<F>,
    parts: &TurnParts,
    summed: Summed,
    measures: &mut Vec<Measure>,
    steps: &mut Steps<L>,
) -> Result<(), BenchError>
    requires { HasParts (F.shows forest.old.forest) parts.now }
{
    let next = next_of(alloc, forest, parts.w, steps)?;
    let weight = half(forest, steps)?;
    let before = forest.calls;
    let sum = sum_by(alloc, forest, next, summed, weight, steps)?;
    measure_diagram(alloc, forest, summed.name, sum, before, measures)
}

/// Discounts the value, and measures what is left.
pub fn measure_discount<F: Forest, L: Ledger>(
    alloc: Global,
    forest: &mut Counting<F>,
    parts: &TurnParts,
    name: &'static str,
    way: Way,
    measures: &mut Vec<Measure>,
    steps: &mut Steps<L>,
) -> Result<(), BenchError>
    requires { HasParts (F.shows forest.old.forest) parts.now }
{
    let before = forest.calls;
    let later = discount(alloc, forest, parts.w, HALF, way, steps)?;
    measure_diagram(alloc, forest, name, later, before, measures)
}
