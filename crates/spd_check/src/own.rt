//! The lower bound of the policy's own action.

ghost use Rattle.std.specs.Prelude.{◌≡◌, ℕ, ◌<◌, ◌≤◌, List, ℤ, length};
ghost use Rattle.spd_model.specs.Process.{Process};
ghost use Rattle.spd_nodes.specs.Shown.{Shown, MakesAmong};
ghost use Rattle.spd_apply.specs.Operations.{is_act};
ghost use Rattle.spd_build.specs.Functions.{numbers};
ghost use Rattle.spd_check.specs.Certificates.{own_low};
ghost use Rattle.spd_check.specs.Functions.{own_functions};
ghost use Rattle.spd_check.specs.inner.Judging.{AreBeside, AreSomeBeside, beside_zero};

use crate::once::apply_once;
use spd_apply::{Keep, LeafMap, OpFault, Second, map_leaves};
use spd_backup::Bounds;
use spd_nodes::{Forest, Leaf, Ref, Steps};
use std::alloc::Global;
use std::sync::ledger::Ledger;

/// An action's number beside 0, as a Pair.
#[derive(Clone, Copy, Debug)]
struct BesideZero;

impl LeafMap for BesideZero {
    ghost fits = { λ _ a. is_act a };

    ghost of = { λ _ a. beside_zero a };

    fn fits(&self, a: Leaf) -> bool {
        match a {
            Leaf::Act(_) => true,
            _ => false,
        }
    }

    fn of(&self, a: Leaf) -> Leaf {
        match a {
            Leaf::Act(action) => Leaf::Pair(action as i128, 0),
            _ => a,
        }
    }
}

/// The lower bound of the policy's own action at each state. It goes from action to action, and keeps beside the policy's number the bound
/// of each state whose action it is.
pub(crate) fn own_lower<F: Forest, L: Ledger>(
    alloc: Global,
    forest: &mut F,
    act: Ref,
    bounds: &[Bounds],
    memo_size: usize,
    steps: &mut Steps<L>,
) -> Result<Ref, OpFault>
    requires ready { AreSomeBeside (F.shows forest.old) bounds.now act }
    requires few { length bounds.now ≤ 64 }
    requires memo_size { 0 < memo_size }
    ensures made { (m : Process) (w : List ℕ → ℤ) (policy : List ℕ → ℕ) → AreBeside m w policy (F.shows forest.old) bounds.now act → MakesAmong (F.shows forest.old) (F.shows forest.new) (numbers (λ s t. own_low m w policy s)) (own_functions m w policy) result }
    ensures keeps { F.kept forest.new ≡ F.kept forest.old }
{
    let _ = forest.layout();
    let none = map_leaves(alloc, forest, &BesideZero, act, steps)?;
    let mut kept = none;
    for i in 0..bounds.len() {
        let keep = Keep(i as u32);
        kept = apply_once(alloc, forest, &keep, kept, bounds[i].lo, memo_size, steps)?;
    }
    map_leaves(alloc, forest, &Second, kept, steps)
}
