//! What was built, as diagrams.

ghost use Rattle.std.specs.Prelude.{◌≡◌, IfOk};
ghost use Rattle.spd_model.specs.States.{sizes};
ghost use Rattle.spd_build.specs.Built.{IsBuiltWhole};
ghost use Rattle.spd_stage_bench.specs.Parts.{HasParts};

use crate::fault::BenchError;
use spd_build::Built;
use spd_model::Model;
use spd_nodes::{Forest, Steps};
use spd_turn::{TurnParts, thaw_parts};
use std::alloc::Global;
use std::sync::ledger::Ledger;

/// What a model was built into, and the value at the start, as diagrams of a forest.
pub fn parts_of<F: Forest, L: Ledger>(
    alloc: Global,
    model: &Model,
    built: &Built,
    forest: &mut F,
    steps: &mut Steps<L>,
) -> Result<TurnParts, BenchError>
    requires layout { (F.shows forest.old).sizes ≡ sizes model.now }
    requires built { IsBuiltWhole model.now built.now }
    ensures { IfOk result (HasParts (F.shows forest.new)) }
{
    // Reading a field tells the proof what every model keeps.
    let _vars = &model.vars;
    Ok(thaw_parts(alloc, model, built, &built.start, forest, steps)?)
}
