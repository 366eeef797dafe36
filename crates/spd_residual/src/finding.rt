//! Where a residual lies, by the diagrams of the gaps.

ghost use Rattle.std.specs.Prelude.{◌≡◌, ◌≤◌, All, IfOk, length, true};
ghost use Rattle.spd_model.specs.States.{IsState};
ghost use Rattle.spd_nodes.specs.Shown.{Shown};
ghost use Rattle.spd_weigh.specs.Leaves.{number_of};
ghost use Rattle.spd_policy.specs.Best.{IsNum};
ghost use Rattle.spd_residual.specs.Residual.{Gaps, place_at_state, IsResidual};
ghost use Rattle.spd_residual.specs.inner.Finding.{AreKnownAt, TellGaps, TellSomeGaps};

use crate::gaps::GapDiagrams;
use crate::leaves::{Sought, action_of, first_upper, last_leaf, leaf_at, number_of};
use spd_backup::Bounds;
use spd_frozen::Residual;
use spd_model::{Side, State};
use spd_nodes::{Forest, Leaf};
use spd_policy::Best;
use spd_search::first_found;
use std::alloc::{AllocError, Global};

/// The side on which a gap comes at a state, and the action by which it comes: above where the gap above has this leaf, else below.
fn side_at<F: Forest>(
    forest: &mut F,
    bounds: &[Bounds],
    best: &Best,
    gaps: &GapDiagrams,
    leaf: Leaf,
    state: &State,
) -> (Side, u32)
    requires known { AreKnownAt (F.shows forest.old) best.now gaps.now }
    requires upper { All (λ b. (F.shows forest.old).knows b.hi ≡ true) bounds.now }
    requires few { length bounds.now ≤ 64 }
    requires state { IsState (F.shows forest.old).sizes state.now }
    requires number { IsNum leaf }
    ensures same { F.shows forest.new ≡ F.shows forest.old }
    ensures keeps { F.kept forest.new ≡ F.kept forest.old }
    ensures place { (g : Gaps) → TellGaps g (F.shows forest.old) bounds.now best.now gaps.now → record { state = state.now; side = result.0; action = result.1 } ≡ place_at_state g (number_of leaf) state.now }
{
    if leaf_at(forest, gaps.above, state) == leaf {
        let high = leaf_at(forest, best.high, state);
        (Side::Above, first_upper(forest, bounds, high, state))
    } else {
        let act = leaf_at(forest, best.act, state);
        (Side::Below, action_of(act))
    }
}

/// The residual and its place, of the diagrams of the gaps. It makes no node, and fails only for want of memory.
pub(crate) fn find<F: Forest>(
    alloc: Global,
    forest: &mut F,
    bounds: &[Bounds],
    best: &Best,
    gaps: &GapDiagrams,
) -> Result<Residual, AllocError>
    requires known { AreKnownAt (F.shows forest.old) best.now gaps.now }
    requires upper { All (λ b. (F.shows forest.old).knows b.hi ≡ true) bounds.now }
    requires few { length bounds.now ≤ 64 }
    requires tell { TellSomeGaps (F.shows forest.old) bounds.now best.now gaps.now }
    ensures same { F.shows forest.new ≡ F.shows forest.old }
    ensures keeps { F.kept forest.new ≡ F.kept forest.old }
    ensures found { (g : Gaps) → TellGaps g (F.shows forest.old) bounds.now best.now gaps.now → IfOk result (IsResidual (F.shows forest.old).sizes g) }
{
    let _ = forest.layout();
    let leaf = last_leaf(alloc, forest, gaps.greater)?;
    let found = first_found(alloc, forest, gaps.greater, &Sought(leaf))?;
    match found {
        Some(found) => {
            let (side, action) = side_at(forest, bounds, best, gaps, leaf, &found.state);
            Ok(Residual {
                r: number_of(leaf),
                at: found.state,
                side,
                action,
            })
        }
        None => unreachable!(),
    }
}
