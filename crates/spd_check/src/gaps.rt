//! The gaps between a value and the bounds by which a certificate is judged, as diagrams.

ghost use Rattle.std.specs.Prelude.{◌≡◌, ℕ, ◌<◌, List, ℤ};
ghost use Rattle.spd_model.specs.Process.{Process};
ghost use Rattle.spd_model.specs.Backup.{best_high};
ghost use Rattle.spd_nodes.specs.Shown.{Shown, StandsFor};
ghost use Rattle.spd_build.specs.Functions.{numbers};
ghost use Rattle.spd_residual.specs.Residual.{IsValued};
ghost use Rattle.spd_turn.specs.Turn.{present_value};
ghost use Rattle.spd_check.specs.Certificates.{own_low};
ghost use Rattle.spd_check.specs.inner.Judging.{MakesGaps};

use crate::once::apply_once;
use spd_apply::{OpFault, Sub};
use spd_nodes::{Forest, Ref, Steps};
use std::alloc::Global;
use std::sync::ledger::Ledger;

/// The gaps of a value at each state, in units of 10^-9.
#[derive(Clone, Copy, Debug)]
pub(crate) struct GapDiagrams {
    /// How far the greatest upper bound lies above the value.
    pub above: Ref,
    /// How far the lower bound of the policy's action lies below it.
    pub below: Ref,
}

/// The gaps of the value `w` between the lower bound of the policy's action and the greatest upper bound.
pub(crate) fn gaps_of<F: Forest, L: Ledger>(
    alloc: Global,
    forest: &mut F,
    w: Ref,
    high: Ref,
    own: Ref,
    memo_size: usize,
    steps: &mut Steps<L>,
) -> Result<GapDiagrams, OpFault>
    requires value { IsValued (F.shows forest.old) w }
    requires high { IsValued (F.shows forest.old) high }
    requires own { IsValued (F.shows forest.old) own }
    requires memo_size { 0 < memo_size }
    ensures made { (m : Process) (value : List ℕ → ℤ) (policy : List ℕ → ℕ) → StandsFor (F.shows forest.old) w (present_value value) → StandsFor (F.shows forest.old) high (numbers (λ s t. best_high m value s)) → StandsFor (F.shows forest.old) own (numbers (λ s t. own_low m value policy s)) → MakesGaps m value policy (F.shows forest.old) (F.shows forest.new) result }
    ensures keeps { F.kept forest.new ≡ F.kept forest.old }
{
    let _ = forest.layout();
    let above = apply_once(alloc, forest, &Sub, high, w, memo_size, steps)?;
    let below = apply_once(alloc, forest, &Sub, w, own, memo_size, steps)?;
    Ok(GapDiagrams { above, below })
}
