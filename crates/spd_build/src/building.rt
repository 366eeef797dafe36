//! A model's parts as lists of nodes.

ghost use Rattle.std.specs.Prelude.{◌≡◌, ◌<◌, map, true, All, IfOk};
ghost use Rattle.spd_model.specs.States.{sizes};
ghost use Rattle.spd_nodes.specs.Shown.{Shown, IsWhole, meaning};
ghost use Rattle.spd_frozen.specs.Freezing.{IsOfPresent};
ghost use Rattle.spd_frozen.specs.Frozen.{frozen_of};
ghost use Rattle.spd_frozen.specs.Mixed.{mixed_of};
ghost use Rattle.spd_build.specs.Built.{Builds, IsBuiltWhole};
ghost use Rattle.spd_build.specs.Drawn.{IsDrawn};

use crate::drawing::{Drawn, draw};
use crate::{BuildFault, Built};
use spd_frozen::{Frozen, Memory, Mixed, freeze, freeze_mixed};
use spd_model::Model;
use spd_nodes::{Forest, Ref, Steps};
use std::alloc::Global;
use std::sync::ledger::Ledger;

/// The lists of nodes of some diagrams over present and next values, in order.
fn freeze_weights<F: Forest>(
    alloc: Global,
    forest: &mut F,
    refs: &[Ref],
) -> Result<Vec<Mixed>, Memory>
    requires known { All (λ r. (F.shows forest.old).knows r ≡ true) refs.now }
    requires whole { All (λ r. IsWhole (F.shows forest.old) r) refs.now }
    ensures same { F.shows forest.new ≡ F.shows forest.old }
    ensures keeps { F.kept forest.new ≡ F.kept forest.old }
    ensures lists { IfOk result (λ lists. lists.items ≡ map (λ r. mixed_of (F.shows forest.old).sizes (meaning (F.shows forest.old) r)) refs.now) }
{
    let mut lists = Vec::with_capacity(alloc, refs.len())?;
    for r in refs {
        lists.push(freeze_mixed(alloc, forest, *r)?)?;
    }
    Ok(lists)
}

/// The lists of nodes of some diagrams over present values, in order.
fn freeze_rewards<F: Forest>(
    alloc: Global,
    forest: &mut F,
    refs: &[Ref],
) -> Result<Vec<Frozen>, Memory>
    requires known { All (λ r. (F.shows forest.old).knows r ≡ true) refs.now }
    requires whole { All (λ r. IsWhole (F.shows forest.old) r) refs.now }
    requires present { All (λ r. IsOfPresent (F.shows forest.old) r) refs.now }
    ensures same { F.shows forest.new ≡ F.shows forest.old }
    ensures keeps { F.kept forest.new ≡ F.kept forest.old }
    ensures lists { IfOk result (λ lists. lists.items ≡ map (λ r. frozen_of (F.shows forest.old).sizes (λ s. meaning (F.shows forest.old) r s s)) refs.now) }
{
    let mut lists = Vec::with_capacity(alloc, refs.len())?;
    for r in refs {
        lists.push(freeze(alloc, forest, *r)?)?;
    }
    Ok(lists)
}

/// What a model built is, of the diagrams of its parts.
fn built_of<F: Forest>(
    alloc: Global,
    model: &Model,
    forest: &mut F,
    drawn: &Drawn,
) -> Result<Built, Memory>
    requires layout { (F.shows forest.old).sizes ≡ sizes model.now }
    requires drawn { IsDrawn model.now (F.shows forest.old) drawn.now }
    ensures same { F.shows forest.new ≡ F.shows forest.old }
    ensures keeps { F.kept forest.new ≡ F.kept forest.old }
    ensures built { IfOk result (IsBuiltWhole model.now) }
{
    let weights = freeze_weights(alloc, forest, drawn.weights.as_slice())?;
    let rewards = freeze_rewards(alloc, forest, drawn.rewards.as_slice())?;
    let start = freeze(alloc, forest, drawn.start)?;
    let sizes = forest.layout().sizes().to_vec(alloc)?;
    Ok(Built {
        weights,
        rewards,
        start,
        sizes,
        g: model.discount,
    })
}

/// A model's probabilities, rewards and first value as lists of nodes (the setup of SPUDD, UAI 1999). `forest` is one over the model's
/// variables; all diagrams are made in it first, and each of the tables of answers on the way keeps at most `memo_size` answers.
///
/// `Sum` comes exactly where the probabilities of a variable's next values don't sum to one, at the first action, variable and state
/// in this order. `Range` comes exactly where all sums are one and a reward passes 10^18 units of 10^-9, at the first action and state.
/// `Full` comes only where the forest is full and lacks a node of the functions of building: it may stand before both. It publishes
/// nodes of these functions alone.
pub fn build<F: Forest, L: Ledger>(
    alloc: Global,
    model: &Model,
    forest: &mut F,
    memo_size: usize,
    steps: &mut Steps<L>,
) -> Result<Built, BuildFault>
    requires layout { (F.shows forest.old).sizes ≡ sizes model.now }
    requires memo_size { 0 < memo_size }
    ensures built { Builds model.now (F.shows forest.old) (F.shows forest.new) result }
    ensures keeps { F.kept forest.new ≡ F.kept forest.old }
{
    let drawn = draw(alloc, model, forest, memo_size, steps)?;
    let built = built_of(alloc, model, forest, &drawn)?;
    Ok(built)
}
