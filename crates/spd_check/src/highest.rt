//! The greatest upper bound of all actions.

ghost use Rattle.std.specs.Prelude.{◌≡◌, ℕ, ◌<◌, List, ℤ, length};
ghost use Rattle.spd_model.specs.Process.{Process};
ghost use Rattle.spd_model.specs.Backup.{best_high};
ghost use Rattle.spd_nodes.specs.Shown.{Shown, MakesAmong};
ghost use Rattle.spd_build.specs.Functions.{numbers};
ghost use Rattle.spd_policy.specs.Best.{AreBoundsOf};
ghost use Rattle.spd_check.specs.Functions.{highest_functions};
ghost use Rattle.spd_check.specs.inner.Judging.{AreSomeBounds};

use crate::once::apply_once;
use spd_apply::{Max, OpFault};
use spd_backup::Bounds;
use spd_nodes::{Forest, Ref, Steps};
use std::alloc::Global;
use std::sync::ledger::Ledger;

/// The greatest upper bound of all actions at each state, of which it makes that of the first actions on the way.
pub(crate) fn highest<F: Forest, L: Ledger>(
    alloc: Global,
    forest: &mut F,
    bounds: &[Bounds],
    memo_size: usize,
    steps: &mut Steps<L>,
) -> Result<Ref, OpFault>
    requires ready { AreSomeBounds (F.shows forest.old) bounds.now }
    requires some { 0 < length bounds.now }
    requires memo_size { 0 < memo_size }
    ensures made { (m : Process) (w : List ℕ → ℤ) → AreBoundsOf m w (F.shows forest.old) bounds.now → MakesAmong (F.shows forest.old) (F.shows forest.new) (numbers (λ s t. best_high m w s)) (highest_functions m w) result }
    ensures keeps { F.kept forest.new ≡ F.kept forest.old }
{
    let _ = forest.layout();
    let mut high = bounds[0].hi;
    for i in 1..bounds.len() {
        high = apply_once(alloc, forest, &Max, high, bounds[i].hi, memo_size, steps)?;
    }
    Ok(high)
}
