//! Leaves of diagrams: the greatest one, and the one at a state.

ghost use Rattle.std.specs.Prelude.{◌≡◌, ◌≤◌, All, IfOk, length, true};
ghost use Rattle.spd_model.specs.States.{IsState};
ghost use Rattle.spd_nodes.specs.Shown.{Shown, IsWhole, meaning};
ghost use Rattle.spd_nodes.specs.Trees.{leaf_eq};
ghost use Rattle.spd_weigh.specs.Leaves.{number_of};
ghost use Rattle.spd_residual.specs.Residual.{first_upper};
ghost use Rattle.spd_residual.specs.inner.Finding.{action_number, IsLastLeaf};

use spd_apply::leaves_of;
use spd_backup::Bounds;
use spd_model::State;
use spd_nodes::{Forest, Leaf, Ref, View};
use spd_search::Wanted;
use std::alloc::{AllocError, Global};

/// The one leaf that is looked for.
#[derive(Clone, Copy, Debug)]
pub(crate) struct Sought(pub Leaf);

impl Wanted for Sought {
    ghost wants = { λ sought leaf. leaf_eq sought.0 leaf };

    fn is_wanted(&self, leaf: Leaf) -> bool {
        self.0 == leaf
    }
}

/// The number of a leaf, which is 0 where it isn't one.
pub(crate) fn number_of(leaf: Leaf) -> i128
    ensures { result ≡ number_of leaf }
{
    match leaf {
        Leaf::Num(number) => number,
        _ => 0,
    }
}

/// The number of an action's leaf.
pub(crate) fn action_of(leaf: Leaf) -> u32
    ensures { result ≡ action_number leaf }
{
    match leaf {
        Leaf::Act(action) => action,
        _ => 0,
    }
}

/// The last leaf of a diagram, in their order: the greatest one where all are numbers. It fails only for want of memory.
pub(crate) fn last_leaf<F: Forest>(
    alloc: Global,
    forest: &mut F,
    r: Ref,
) -> Result<Leaf, AllocError>
    requires known { (F.shows forest.old).knows r ≡ true }
    requires whole { IsWhole (F.shows forest.old) r }
    ensures same { F.shows forest.new ≡ F.shows forest.old }
    ensures keeps { F.kept forest.new ≡ F.kept forest.old }
    ensures last { IfOk result (λ leaf. IsLastLeaf (F.shows forest.old).sizes (meaning (F.shows forest.old) r) leaf) }
{
    let _ = forest.layout();
    let leaves = leaves_of(alloc, forest, r)?;
    match leaves.last() {
        Some(leaf) => Ok(*leaf),
        None => unreachable!(),
    }
}

/// The leaf of a diagram at a present state, where the next state is the same one. Calls nest at most as deep as there are levels: 512.
pub fn leaf_at<F: Forest>(forest: &mut F, r: Ref, state: &State) -> Leaf
    requires known { (F.shows forest.old).knows r ≡ true }
    requires state { IsState (F.shows forest.old).sizes state.now }
    ensures same { F.shows forest.new ≡ F.shows forest.old }
    ensures keeps { F.kept forest.new ≡ F.kept forest.old }
    ensures leaf { result ≡ meaning (F.shows forest.old) r state.now state.now }
{
    match forest.view(r) {
        View::Leaf(leaf) => leaf,
        View::Test { level, yes, no } => {
            let (var, _, value) = forest.layout().what(level);
            if state.get(var as usize) == value {
                leaf_at(forest, yes, state)
            } else {
                leaf_at(forest, no, state)
            }
        }
    }
}

/// The number of the first action whose upper bound has a leaf at a state, or the number of all actions where none has it.
pub fn first_upper<F: Forest>(forest: &mut F, bounds: &[Bounds], leaf: Leaf, state: &State) -> u32
    requires known { All (λ b. (F.shows forest.old).knows b.hi ≡ true) bounds.now }
    requires few { length bounds.now ≤ 64 }
    requires state { IsState (F.shows forest.old).sizes state.now }
    ensures same { F.shows forest.new ≡ F.shows forest.old }
    ensures keeps { F.kept forest.new ≡ F.kept forest.old }
    ensures first { result ≡ first_upper (F.shows forest.old) bounds.now leaf state.now }
{
    let sought = Sought(leaf);
    for i in 0..bounds.len() {
        let upper = leaf_at(forest, bounds[i].hi, state);
        if sought.is_wanted(upper) {
            return i as u32;
        }
    }
    bounds.len() as u32
}
