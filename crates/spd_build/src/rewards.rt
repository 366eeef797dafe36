//! The rewards of actions.

ghost use Rattle.std.specs.Prelude.{◌≡◌, ℕ, ◌-ℤ◌, ◌<◌, length, map, true, None, Contains, IfOk, MatchResult};
ghost use Rattle.std.specs.List.{AllZip};
ghost use Rattle.spd_model.specs.Chances.{first_wrong_sum, first_wide_reward};
ghost use Rattle.spd_model.specs.Lawful.{IsLawful, AreRewards};
ghost use Rattle.spd_model.specs.Process.{Process};
ghost use Rattle.spd_model.specs.States.{sizes};
ghost use Rattle.spd_model.specs.declared.process.Action.{Action};
ghost use Rattle.spd_nodes.specs.Made.{HasMade};
ghost use Rattle.spd_nodes.specs.Shown.{Shown, IsWhole, StandsFor, MakesAmong};
ghost use Rattle.spd_apply.specs.Operations.{num_of, num_fits};
ghost use Rattle.spd_frozen.specs.Told.{number_of};
ghost use Rattle.spd_build.specs.Building.{net_reward, HoldAdds, HoldNets, all_parts, sum_functions, net_functions, BuildsPart};
ghost use Rattle.spd_build.specs.Fitting.{StandForTrees};
ghost use Rattle.spd_build.specs.Functions.{reward as reward_function, building_functions};
ghost use Rattle.spd_build.specs.Ranges.{is_wide, wide_after, RewardCause};

use crate::BuildFault;
use crate::lists::{push, with_room};
use crate::trees::{number, tree_of};
use spd_apply::{Add, LeafOp, OpFault, apply};
use spd_memo::Memo;
use spd_model::{Action, Model, Tree};
use spd_nodes::{Forest, Leaf, Ref, Steps};
use spd_scaled::floor_div;
use spd_search::{Wanted, first_found};
use std::alloc::Global;
use std::sync::ledger::Ledger;

/// The greatest magnitude of a reward, in units of 10^-9.
const REWARD_LIMIT: u128 = 1_000_000_000_000_000_000;

/// What is gained less what is paid, both in units of 10^-12, as a reward in units of 10^-9, rounded down. Two Num fit where their
/// difference is an `i128`.
#[derive(Clone, Copy, Debug)]
pub(crate) struct NetReward;

impl LeafOp for NetReward {
    ghost fits = { λ _ a b. num_fits (λ x y. x -ℤ y) a b };

    ghost of = { λ _ a b. num_of net_reward a b };

    fn fits(&self, a: Leaf, b: Leaf) -> bool {
        match (a, b) {
            (Leaf::Num(x), Leaf::Num(y)) => x.checked_sub(y).is_some(),
            _ => false,
        }
    }

    fn of(&self, a: Leaf, b: Leaf) -> Leaf {
        match (a, b) {
            (Leaf::Num(x), Leaf::Num(y)) => Leaf::Num(floor_div(x - y, 1000)),
            _ => a,
        }
    }
}

/// The diagram of the sum of some parts of a reward or of a cost, in units of 10^-12. `dds` has the diagrams of all the model's
/// decision diagrams.
fn sum_parts<F: Forest, L: Ledger>(
    alloc: Global,
    model: &Model,
    forest: &mut F,
    parts: &[Tree],
    dds: &[Ref],
    adds: &mut Memo,
    steps: &mut Steps<L>,
) -> Result<Ref, OpFault>
    requires layout { (F.shows forest.old).sizes ≡ sizes model.now }
    requires dds { StandForTrees (F.shows forest.old) model.now model.now.dds dds.now }
    requires parts { AreRewards model.now parts.now }
    requires adds { HoldAdds (F.shows forest.old) adds.old }
    ensures made { MakesAmong (F.shows forest.old) (F.shows forest.new) (all_parts model.now parts.now) (sum_functions model.now parts.now) result }
    ensures keeps { F.kept forest.new ≡ F.kept forest.old }
    ensures adds { HoldAdds (F.shows forest.new) adds.new }
{
    let _ = forest.layout();
    let mut sum = number(forest, 0, steps)?;
    for part in parts {
        let tree = tree_of(alloc, model, forest, part, dds, steps)?;
        sum = apply(forest, &Add, sum, tree, adds, steps)?;
    }
    Ok(sum)
}

/// The diagram of an action's reward, in units of 10^-9. `gained` is that of the sum of the reward's parts, in units of 10^-12.
fn reward_after<F: Forest, L: Ledger>(
    alloc: Global,
    model: &Model,
    forest: &mut F,
    gained: Ref,
    action: &Action,
    dds: &[Ref],
    adds: &mut Memo,
    nets: &mut Memo,
    steps: &mut Steps<L>,
) -> Result<Ref, OpFault>
    requires layout { (F.shows forest.old).sizes ≡ sizes model.now }
    requires gained { StandsFor (F.shows forest.old) gained (all_parts model.now model.now.reward) }
    requires action { Contains model.now.actions action.now }
    requires dds { StandForTrees (F.shows forest.old) model.now model.now.dds dds.now }
    requires adds { HoldAdds (F.shows forest.old) adds.old }
    requires nets { HoldNets (F.shows forest.old) nets.old }
    ensures made { MakesAmong (F.shows forest.old) (F.shows forest.new) (reward_function model.now action.now) (net_functions model.now action.now) result }
    ensures keeps { F.kept forest.new ≡ F.kept forest.old }
    ensures adds { HoldAdds (F.shows forest.new) adds.new }
    ensures nets { HoldNets (F.shows forest.new) nets.new }
{
    let _ = forest.layout();
    // Reading a field tells the proof what every model keeps.
    let _vars = &model.vars;
    let paid = sum_parts(
        alloc,
        model,
        forest,
        action.cost.as_slice(),
        dds,
        adds,
        steps,
    )?;
    apply(forest, &NetReward, gained, paid, nets, steps)
}

/// Whether a leaf is a number that passes the limit of rewards, 10^18 in units of 10^-9.
#[derive(Clone, Copy, Debug)]
pub(crate) struct PastLimit;

impl Wanted for PastLimit {
    ghost wants = { λ _ leaf. is_wide leaf };

    fn is_wanted(&self, leaf: Leaf) -> bool {
        match leaf {
            Leaf::Num(x) => x.unsigned_abs() > REWARD_LIMIT,
            _ => false,
        }
    }
}

/// The number of a leaf, which is 0 where it isn't one.
pub(crate) fn number_of(leaf: Leaf) -> i128
    ensures { result ≡ number_of leaf }
{
    match leaf {
        Leaf::Num(x) => x,
        _ => 0,
    }
}

/// Tests that the reward of the action of this number passes its limit at no state. It makes no nodes.
fn test_range<F: Forest>(
    alloc: Global,
    forest: &mut F,
    number: usize,
    reward: Ref,
) -> Result<(), BuildFault>
    requires number { number < 64 }
    requires known { (F.shows forest.old).knows reward ≡ true }
    requires whole { IsWhole (F.shows forest.old) reward }
    ensures same { F.shows forest.new ≡ F.shows forest.old }
    ensures keeps { F.kept forest.new ≡ F.kept forest.old }
    ensures range { (m : Process) (a : Action) → IsLawful m → (F.shows forest.old).sizes ≡ sizes m → StandsFor (F.shows forest.old) reward (reward_function m a) → MatchResult result (λ _. wide_after m (number, a) ≡ None) (RewardCause m (number, a) (F.shows forest.new)) }
{
    match first_found(alloc, forest, reward, &PastLimit)? {
        None => Ok(()),
        Some(found) => Err(BuildFault::Range {
            action: number as u32,
            value: number_of(found.leaf),
            state: found.state,
        }),
    }
}

/// The diagram of an action's reward, which passes its limit at no state. The action is that of this number.
fn limited_reward<F: Forest, L: Ledger>(
    alloc: Global,
    model: &Model,
    forest: &mut F,
    gained: Ref,
    number: usize,
    action: &Action,
    dds: &[Ref],
    adds: &mut Memo,
    nets: &mut Memo,
    steps: &mut Steps<L>,
) -> Result<Ref, BuildFault>
    requires layout { (F.shows forest.old).sizes ≡ sizes model.now }
    requires gained { StandsFor (F.shows forest.old) gained (all_parts model.now model.now.reward) }
    requires number { number < 64 }
    requires action { Contains model.now.actions action.now }
    requires dds { StandForTrees (F.shows forest.old) model.now model.now.dds dds.now }
    requires adds { HoldAdds (F.shows forest.old) adds.old }
    requires nets { HoldNets (F.shows forest.old) nets.old }
    ensures made { HasMade (F.shows forest.old) (F.shows forest.new) (building_functions model.now) }
    ensures stand { IfOk result (λ r. StandsFor (F.shows forest.new) r (reward_function model.now action.now)) }
    ensures range { MatchResult result (λ _. wide_after model.now (number, action.now) ≡ None) (RewardCause model.now (number, action.now) (F.shows forest.new)) }
    ensures keeps { F.kept forest.new ≡ F.kept forest.old }
    ensures adds { HoldAdds (F.shows forest.new) adds.new }
    ensures nets { HoldNets (F.shows forest.new) nets.new }
{
    // Reading a field tells the proof what every model keeps.
    let _vars = &model.vars;
    let reward = reward_after(alloc, model, forest, gained, action, dds, adds, nets, steps)?;
    test_range(alloc, forest, number, reward)?;
    Ok(reward)
}

/// The diagrams of all actions' rewards, in units of 10^-9, where no reward passes its limit. All sums of probabilities are one, and
/// `dds` has the diagrams of all the model's decision diagrams. The memo of net rewards keeps at most `memo_size` answers.
pub(crate) fn all_rewards<F: Forest, L: Ledger>(
    alloc: Global,
    model: &Model,
    forest: &mut F,
    dds: &[Ref],
    adds: &mut Memo,
    memo_size: usize,
    steps: &mut Steps<L>,
) -> Result<Vec<Ref>, BuildFault>
    requires layout { (F.shows forest.old).sizes ≡ sizes model.now }
    requires dds { StandForTrees (F.shows forest.old) model.now model.now.dds dds.now }
    requires adds { HoldAdds (F.shows forest.old) adds.old }
    requires memo_size { 0 < memo_size }
    requires sums { first_wrong_sum model.now ≡ None }
    ensures part { BuildsPart model.now (F.shows forest.old) (F.shows forest.new) result }
    ensures stand { IfOk result (λ refs. AllZip (StandsFor (F.shows forest.new)) refs.items (map (reward_function model.now) model.now.actions)) }
    ensures limits { IfOk result (λ _. first_wide_reward model.now ≡ None) }
    ensures keeps { F.kept forest.new ≡ F.kept forest.old }
{
    let _ = forest.layout();
    let mut nets = Memo::new(alloc, memo_size)?;
    let mut rewards = with_room(alloc, model.actions.len())?;
    let gained = sum_parts(
        alloc,
        model,
        forest,
        model.reward.as_slice(),
        dds,
        adds,
        steps,
    )?;
    for (number, action) in model.actions.as_slice().iter().enumerate() {
        let reward = limited_reward(
            alloc, model, forest, gained, number, action, dds, adds, &mut nets, steps,
        )?;
        push(&mut rewards, reward)?;
    }
    Ok(rewards)
}
