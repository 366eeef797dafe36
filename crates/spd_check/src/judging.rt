//! The verdict, by the diagrams of the gaps.

ghost use Rattle.std.specs.Prelude.{◌≡◌, ℕ, ◌≤◌, List, ℤ, All, IfOk, length, true, int_lt};
ghost use Rattle.spd_model.specs.Process.{Process};
ghost use Rattle.spd_model.specs.States.{IsState};
ghost use Rattle.spd_nodes.specs.Shown.{Shown};
ghost use Rattle.spd_frozen.specs.Fits.{FitsSizes};
ghost use Rattle.spd_frozen.specs.Told.{number_of, action_of};
ghost use Rattle.spd_check.specs.Certificates.{first_failure, policy_by, verdict_of};
ghost use Rattle.spd_check.specs.inner.Judging.{action_by, AreWhole, CanJudge};

use crate::first::{Failure, first_of};
use crate::gaps::GapDiagrams;
use crate::verdict::Verdict;
use spd_backup::Bounds;
use spd_frozen::Frozen;
use spd_model::Side;
use spd_nodes::{Forest, Leaf, Ref};
use spd_residual::{first_upper, leaf_at};
use spd_search::{Wanted, first_found};
use std::alloc::{AllocError, Global};

/// The numbers that are greater than this one.
#[derive(Clone, Copy, Debug)]
struct Over(i128);

impl Wanted for Over {
    ghost wants = { λ over leaf. int_lt over.0 (number_of leaf) };

    fn is_wanted(&self, leaf: Leaf) -> bool {
        self.0 < number_of(leaf)
    }
}

/// The number of a leaf, which is 0 where it isn't one.
fn number_of(leaf: Leaf) -> i128
    ensures { result ≡ number_of leaf }
{
    match leaf {
        Leaf::Num(number) => number,
        _ => 0,
    }
}

/// The number of an action's leaf.
fn action_of(leaf: Leaf) -> u32
    ensures { result ≡ action_of leaf }
{
    match leaf {
        Leaf::Act(action) => action,
        _ => 0,
    }
}

/// The action by which a certificate fails: above the first one with the greatest upper bound, below the policy's.
fn action_at<F: Forest>(
    forest: &mut F,
    bounds: &[Bounds],
    high: Ref,
    policy: &Frozen,
    failure: &Failure,
) -> u32
    requires bounds { All (λ b. (F.shows forest.old).knows b.hi ≡ true) bounds.now }
    requires few { length bounds.now ≤ 64 }
    requires high { (F.shows forest.old).knows high ≡ true }
    requires policy { FitsSizes (F.shows forest.old).sizes policy.now }
    requires state { IsState (F.shows forest.old).sizes failure.now.state }
    ensures same { F.shows forest.new ≡ F.shows forest.old }
    ensures keeps { F.kept forest.new ≡ F.kept forest.old }
    ensures action { result ≡ action_by (F.shows forest.old) bounds.now high policy.now failure.now }
{
    match failure.side {
        Side::Above => {
            let greatest = leaf_at(forest, high, &failure.state);
            first_upper(forest, bounds, greatest, &failure.state)
        }
        Side::Below => action_of(policy.at(&failure.state)),
    }
}

/// The verdict on a certificate of this policy and residual, by the diagrams of the bounds of all actions, of the greatest upper bound and
/// of the gaps. It makes no node, and fails only for want of memory.
pub(crate) fn judge<F: Forest>(
    alloc: Global,
    forest: &mut F,
    bounds: &[Bounds],
    high: Ref,
    gaps: &GapDiagrams,
    policy: &Frozen,
    residual: i128,
) -> Result<Verdict, AllocError>
    requires bounds { All (λ b. (F.shows forest.old).knows b.hi ≡ true) bounds.now }
    requires few { length bounds.now ≤ 64 }
    requires high { (F.shows forest.old).knows high ≡ true }
    requires gaps { AreWhole (F.shows forest.old) gaps.now }
    requires policy { FitsSizes (F.shows forest.old).sizes policy.now }
    ensures same { F.shows forest.new ≡ F.shows forest.old }
    ensures keeps { F.kept forest.new ≡ F.kept forest.old }
    ensures verdict { (m : Process) (w : List ℕ → ℤ) → CanJudge m w (policy_by policy.now) (F.shows forest.old) bounds.now high gaps.now → IfOk result (λ v. v ≡ verdict_of (first_failure m w (policy_by policy.now) residual)) }
{
    let _ = forest.layout();
    let above = first_found(alloc, forest, gaps.above, &Over(residual))?;
    let below = first_found(alloc, forest, gaps.below, &Over(residual))?;
    match first_of(above, below) {
        None => Ok(Verdict::Yes),
        Some(failure) => {
            let action = action_at(forest, bounds, high, policy, &failure);
            Ok(Verdict::No {
                at: failure.state,
                side: failure.side,
                action,
            })
        }
    }
}
