//! From lists of nodes to diagrams, and back.

ghost use Rattle.std.specs.Prelude.{◌≡◌, IfOk};
ghost use Rattle.spd_frozen.specs.Fits.{FitsSizes};
ghost use Rattle.spd_nodes.specs.Levels.{slots};
ghost use Rattle.spd_nodes.specs.Shown.{Shown};
ghost use Rattle.spd_turn.specs.Turn.{IsPresent};
ghost use Rattle.spd_stage_bench.specs.Parts.{HasParts};

use crate::fault::BenchError;
use crate::measure::{Measure, measure_diagram, measure_list};
use spd_frozen::{Mixed, freeze, freeze_mixed, thaw_mixed};
use spd_nodes::{Counting, Forest, Ref, Steps};
use spd_turn::TurnParts;
use std::alloc::Global;
use std::sync::ledger::Ledger;

/// Writes a diagram down and measures the list, and that over present and next values, which it answers.
fn measure_freezing<F: Forest>(
    alloc: Global,
    forest: &mut Counting<F>,
    r: Ref,
    measures: &mut Vec<Measure>,
) -> Result<Mixed, BenchError>
    requires { IsPresent (F.shows forest.old.forest) r }
    ensures same { F.shows forest.new.forest ≡ F.shows forest.old.forest }
    ensures fits { IfOk result (λ list. FitsSizes (slots (F.shows forest.old.forest).sizes) list) }
{
    let before = forest.calls;
    let plain = freeze(alloc, forest, r)?;
    measure_list(forest, "freeze", plain.nodes().len(), before, measures)?;
    let mixed = freeze_mixed(alloc, forest, r)?;
    measure_list(
        forest,
        "freeze_mixed",
        mixed.nodes().len(),
        before,
        measures,
    )?;
    Ok(mixed)
}

/// Measures the value of parts that a forest was made for, the lists of its nodes, and the diagram of such a list.
pub fn measure_lists<F: Forest, L: Ledger>(
    alloc: Global,
    forest: &mut Counting<F>,
    parts: &TurnParts,
    measures: &mut Vec<Measure>,
    steps: &mut Steps<L>,
) -> Result<(), BenchError>
    requires { HasParts (F.shows forest.old.forest) parts.now }
{
    measure_diagram(alloc, forest, "thaw", parts.w, 0, measures)?;
    let list = measure_freezing(alloc, forest, parts.w, measures)?;
    let before = forest.calls;
    let again = thaw_mixed(alloc, forest, &list, steps)?;
    measure_diagram(alloc, forest, "thaw_mixed", again, before, measures)
}
