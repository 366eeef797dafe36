//! Backing up the value.

ghost use Rattle.std.specs.Prelude.{◌≡◌, IfOk, true};
ghost use Rattle.spd_nodes.specs.Shown.{Shown};
ghost use Rattle.spd_stage_bench.specs.Parts.{HasParts};

use crate::building::MEMO_SIZE;
use crate::fault::BenchError;
use crate::measure::{Measure, measure_diagram};
use spd_backup::{Bounds, backup};
use spd_nodes::{Counting, Forest, Steps};
use spd_turn::TurnParts;
use std::alloc::Global;
use std::sync::ledger::Ledger;

/// The bounds of the first action's return where the value follows.
fn bounds_of<F: Forest, L: Ledger>(
    alloc: Global,
    forest: &mut F,
    parts: &TurnParts,
    steps: &mut Steps<L>,
) -> Result<Bounds, BenchError>
    requires { HasParts (F.shows forest.old) parts.now }
    ensures lo { IfOk result (λ b. (F.shows forest.new).knows b.lo ≡ true) }
    ensures hi { IfOk result (λ b. (F.shows forest.new).knows b.hi ≡ true) }
{
    Ok(backup(alloc, &parts.thawed, forest, parts.w, 0, MEMO_SIZE, steps)?)
}

/// Backs up the value, and measures both bounds, each with the calls that both took.
pub fn measure_backup<F: Forest, L: Ledger>(
    alloc: Global,
    forest: &mut Counting<F>,
    parts: &TurnParts,
    measures: &mut Vec<Measure>,
    steps: &mut Steps<L>,
) -> Result<(), BenchError>
    requires { HasParts (F.shows forest.old.forest) parts.now }
{
    let before = forest.calls;
    let bounds = bounds_of(alloc, forest, parts, steps)?;
    measure_diagram(alloc, forest, "backup lower", bounds.lo, before, measures)?;
    measure_diagram(alloc, forest, "backup upper", bounds.hi, before, measures)
}
