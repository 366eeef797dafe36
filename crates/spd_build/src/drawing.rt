//! A model's parts as diagrams.

ghost use Rattle.std.specs.Prelude.{◌≡◌, ◌<◌, IfOk};
ghost use Rattle.spd_model.specs.States.{sizes};
ghost use Rattle.spd_nodes.specs.Shown.{Shown};
ghost use Rattle.spd_build.specs.Building.{BuildsPart};
ghost use Rattle.spd_build.specs.Drawn.{IsDrawn};

use crate::BuildFault;
use crate::rewards::all_rewards;
use crate::start::greatest_of;
use crate::tables::all_weights;
use crate::trees::dds_of;
use spd_memo::Memo;
use spd_model::Model;
use spd_nodes::{Forest, Ref, Steps};
use std::alloc::Global;
use std::sync::ledger::Ledger;

/// A model's probabilities, rewards and first value as diagrams of a forest, in the order of `Built`.
#[derive(Debug, Drop)]
pub(crate) struct Drawn {
    pub weights: Vec<Ref>,
    pub rewards: Vec<Ref>,
    pub start: Ref,
}

/// The diagrams of a model's parts. All sums of probabilities are tested before the range of any reward.
pub(crate) fn draw<F: Forest, L: Ledger>(
    alloc: Global,
    model: &Model,
    forest: &mut F,
    memo_size: usize,
    steps: &mut Steps<L>,
) -> Result<Drawn, BuildFault>
    requires layout { (F.shows forest.old).sizes ≡ sizes model.now }
    requires memo_size { 0 < memo_size }
    ensures part { BuildsPart model.now (F.shows forest.old) (F.shows forest.new) result }
    ensures drawn { IfOk result (IsDrawn model.now (F.shows forest.new)) }
    ensures keeps { F.kept forest.new ≡ F.kept forest.old }
{
    let _ = forest.layout();
    // Reading a field tells the proof what every model keeps.
    let _vars = &model.vars;
    let mut adds = Memo::new(alloc, memo_size)?;
    let mut maxima = Memo::new(alloc, memo_size)?;
    let dds = dds_of(alloc, model, forest, steps)?;
    let weights = all_weights(alloc, model, forest, &dds, &mut adds, steps)?;
    let rewards = all_rewards(alloc, model, forest, &dds, &mut adds, memo_size, steps)?;
    let start = greatest_of(forest, &rewards, &mut maxima, steps)?;
    Ok(Drawn {
        weights,
        rewards,
        start,
    })
}
