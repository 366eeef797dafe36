//! Building diagrams and operations on them, with the nodes and calls that each takes.

ghost use Rattle.std.specs.Prelude.{◌≡◌, ℕ, ◌^◌, ◌<◌, IfOk, true};
ghost use Rattle.spd_nodes.specs.Shown.{Shown, Grows, IsWhole};
ghost use Rattle.spd_bench.specs.Built.{twos, IsCount, FitsTo, IsApplied};

use crate::build::{VARIABLES, combined, parity, sum};
use crate::fault::BenchError;
use crate::workload::Measure;
use spd_apply::{Add, LeafOp, MakePair, Max};
use spd_nodes::{Counting, Forest, Ref, Steps, count};
use spd_restrict::{cofactor, prime};
use std::alloc::Global;
use std::sync::ledger::Ledger;

/// The variable that is held at its first value.
const MIDDLE: u32 = VARIABLES / 2;

/// Adds the measure of a diagram, whose building began after `before` find-or-make calls.
fn measure<F: Forest>(
    alloc: Global,
    forest: &mut Counting<F>,
    name: &'static str,
    r: Ref,
    before: u64,
    measures: &mut Vec<Measure>,
) -> Result<(), BenchError>
    requires known { (F.shows forest.old.forest).knows r ≡ true }
    ensures same { F.shows forest.new.forest ≡ F.shows forest.old.forest }
{
    let calls = forest.calls.wrapping_sub(before);
    let nodes = count(alloc, forest, r)? as u64;
    measures.push(Measure { name, nodes, calls })?;
    Ok(())
}

/// Builds and measures what an operation makes of two diagrams.
#[tactic(auto, using(crate::proofs::CountLaws::count_laws))]
fn measure_combined<F: Forest, O: LeafOp, L: Ledger>(
    alloc: Global,
    forest: &mut Counting<F>,
    name: &'static str,
    op: &O,
    operands: (Ref, Ref),
    measures: &mut Vec<Measure>,
    steps: &mut Steps<L>,
) -> Result<Ref, BenchError>
    requires left { IsCount (F.shows forest.old.forest) (2 ^ 20) 0 operands.0 }
    requires right { IsCount (F.shows forest.old.forest) (2 ^ 20) 0 operands.1 }
    requires fits { FitsTo (O.fits op.now) (2 ^ 20) }
    ensures grows { Grows (F.shows forest.old.forest) (F.shows forest.new.forest) }
    ensures knows { IfOk result (λ r. (F.shows forest.new.forest).knows r ≡ true) }
    ensures whole { IfOk result (λ r. IsWhole (F.shows forest.new.forest) r) }
{
    let before = forest.calls;
    let r = combined(alloc, forest, op, operands.0, operands.1, steps)?;
    measure(alloc, forest, name, r, before, measures)?;
    Ok(r)
}

/// Builds and measures the sum and the parity.
#[tactic(auto, using(crate::proofs::CountLaws::count_laws))]
fn measure_operands<F: Forest, L: Ledger>(
    alloc: Global,
    forest: &mut Counting<F>,
    measures: &mut Vec<Measure>,
    steps: &mut Steps<L>,
) -> Result<(Ref, Ref), BenchError>
    requires sizes { (F.shows forest.old.forest).sizes ≡ twos 20 }
    ensures grows { Grows (F.shows forest.old.forest) (F.shows forest.new.forest) }
    ensures sum { IfOk result (λ rs. IsCount (F.shows forest.new.forest) (2 ^ 20) 0 rs.0) }
    ensures parity { IfOk result (λ rs. IsCount (F.shows forest.new.forest) (2 ^ 20) 0 rs.1) }
{
    let before = forest.calls;
    let left = sum(alloc, forest, steps)?;
    measure(alloc, forest, "sum", left, before, measures)?;
    let before = forest.calls;
    let right = parity(forest, steps)?;
    measure(alloc, forest, "parity", right, before, measures)?;
    Ok((left, right))
}

/// Builds and measures a diagram with the middle variable at its first plain value.
#[tactic(auto, using(crate::proofs::CountLaws::count_laws))]
fn measure_cofactor<F: Forest, L: Ledger>(
    alloc: Global,
    forest: &mut Counting<F>,
    f: Ref,
    measures: &mut Vec<Measure>,
    steps: &mut Steps<L>,
) -> Result<(), BenchError>
    requires sizes { (F.shows forest.old.forest).sizes ≡ twos 20 }
    requires known { (F.shows forest.old.forest).knows f ≡ true }
    requires whole { IsWhole (F.shows forest.old.forest) f }
    ensures grows { Grows (F.shows forest.old.forest) (F.shows forest.new.forest) }
{
    let before = forest.calls;
    let r = cofactor(alloc, forest, f, MIDDLE, false, 0, steps)?;
    measure(alloc, forest, "cofactor", r, before, measures)
}

/// Builds and measures a diagram with its plain names primed.
#[tactic(auto, using(crate::proofs::CountLaws::count_laws))]
fn measure_prime<F: Forest, L: Ledger>(
    alloc: Global,
    forest: &mut Counting<F>,
    f: Ref,
    measures: &mut Vec<Measure>,
    steps: &mut Steps<L>,
) -> Result<(), BenchError>
    requires sum { IsCount (F.shows forest.old.forest) (2 ^ 20) 0 f }
{
    let before = forest.calls;
    let r = prime(alloc, forest, f, steps)?;
    measure(alloc, forest, "prime", r, before, measures)
}

/// Builds and measures the sum, the parity, and what the operations make of them.
#[tactic(auto, using(crate::proofs::CountLaws::count_laws))]
pub fn measure_diagrams<F: Forest, L: Ledger>(
    alloc: Global,
    forest: &mut Counting<F>,
    measures: &mut Vec<Measure>,
    steps: &mut Steps<L>,
) -> Result<(), BenchError>
    requires { (F.shows forest.old.forest).sizes ≡ twos 20 }
{
    let operands = measure_operands(alloc, forest, measures, steps)?;
    let pair = measure_combined(alloc, forest, "pair", &MakePair, operands, measures, steps)?;
    let _ = measure_combined(alloc, forest, "add", &Add, operands, measures, steps)?;
    let _ = measure_combined(alloc, forest, "max", &Max, operands, measures, steps)?;
    measure_cofactor(alloc, forest, pair, measures, steps)?;
    measure_prime(alloc, forest, operands.0, measures, steps)
}
