//! The Bellman residual of a value.

ghost use Rattle.std.specs.Prelude.{◌≡◌, ℕ, ◌<◌, ◌≤◌, List, ℤ, All, length};
ghost use Rattle.spd_model.specs.Process.{Process};
ghost use Rattle.spd_model.specs.States.{sizes};
ghost use Rattle.spd_nodes.specs.Shown.{Shown};
ghost use Rattle.spd_backup.specs.Thawing.{HasNumbers};
ghost use Rattle.spd_policy.specs.Best.{greatest_of, policy_by, lows_in, highs_in, AreBest, AreBoundsOf};
ghost use Rattle.spd_residual.specs.Residual.{IsValueOfState, AreOrdered, gaps_in, FindsResidual, FindsResidualOf};

use crate::finding::find;
use crate::gaps::gaps_of;
use spd_apply::OpFault;
use spd_backup::Bounds;
use spd_frozen::Residual;
use spd_nodes::{Forest, Ref, Steps};
use spd_policy::Best;
use std::alloc::Global;
use std::sync::ledger::Ledger;

/// The Bellman residual of the value `w`, in units of 10^-9, and its place: the greatest of 0, of how far the greatest upper bound lies
/// above the value at each state, and of how far the greatest lower bound lies below it there (SPUDD, UAI 1999; which of several places
/// is told is this project's own rule).
///
/// The place is the first state, in the order of the states, at which one of the two gaps is the residual. Its side is above where the gap
/// above is the residual there, with the first action that has the greatest upper bound, and else below, with the policy's action.
///
/// There are 1 to 64 bounds, one for each action, the lower one at most the upper one at each state, and `best` is the best of them. All
/// have numbers of at most (10^18 + 1) * 10^6 in magnitude, which the next state doesn't change, and so has `w`. It makes only nodes of
/// the two gaps and of the greater of them. Full comes only where a call of the forest answered Full in this call, and Memory where the
/// heap gave none. Each of its memos keeps at most `memo_size` answers.
pub fn residual<F: Forest, L: Ledger>(
    alloc: Global,
    forest: &mut F,
    w: Ref,
    bounds: &[Bounds],
    best: &Best,
    memo_size: usize,
    steps: &mut Steps<L>,
) -> Result<Residual, OpFault>
    requires value { IsValueOfState (F.shows forest.old) w }
    requires bounds { All (λ b. AreOrdered (F.shows forest.old) b) bounds.now }
    requires some { 0 < length bounds.now }
    requires few { length bounds.now ≤ 64 }
    requires best { AreBest (greatest_of (lows_in (F.shows forest.old) bounds.now)) (greatest_of (highs_in (F.shows forest.old) bounds.now)) (policy_by (lows_in (F.shows forest.old) bounds.now)) (F.shows forest.old) best.now }
    requires memo_size { 0 < memo_size }

    ensures found { FindsResidual (F.shows forest.old).sizes (gaps_in (F.shows forest.old) w bounds.now) (F.shows forest.old) (F.shows forest.new) result }
    // Where they are the bounds of a process where a value follows, it is the process's residual of that value.
    ensures process { (m : Process) (value : List ℕ → ℤ) → (F.shows forest.old).sizes ≡ sizes m → HasNumbers (F.shows forest.old) w value → AreBoundsOf m value (F.shows forest.old) bounds.now → FindsResidualOf m value (F.shows forest.old) (F.shows forest.new) result }
    ensures keeps { F.kept forest.new ≡ F.kept forest.old }
{
    let _ = forest.layout();
    let gaps = gaps_of(alloc, forest, w, best, memo_size, steps)?;
    match find(alloc, forest, bounds, best, &gaps) {
        Ok(residual) => Ok(residual),
        Err(_) => Err(OpFault::Memory),
    }
}
