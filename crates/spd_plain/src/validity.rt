//! Whether a model is valid: its probabilities sum to one, and its rewards keep their limit.

ghost use Rattle.std.specs.Prelude.{◌≡◌, ◌<◌, ◌*◌, ◌^◌, map, pos, unsigned_abs, Contains, option_map};
ghost use Rattle.spd_scaled.specs.Scaled.{IsWithin};
ghost use Rattle.spd_model.specs.Numbers.{total};
ghost use Rattle.spd_model.specs.States.{sizes, states, IsState};
ghost use Rattle.spd_model.specs.Trees.{value_of};
ghost use Rattle.spd_model.specs.Lawful.{AreRewards};
ghost use Rattle.spd_model.specs.Chances.{reward_of, first_wrong_sum as first_wrong_sum_of, first_wide_reward as first_wide_reward_of};
ghost use Rattle.spd_plain.specs.inner.Faults.{sum_record, reward_record, wrong_sum_at as wrong_sum_at_of, wrong_sum_of_var as wrong_sum_of_var_of, wrong_sum_after as wrong_sum_after_of, wide_reward_after as wide_reward_after_of};
ghost use Rattle.spd_plain.specs.inner.Reach.{places_of, reach_at, reaches_after, reaches_of};
ghost use Rattle.spd_plain.specs.inner.Axes.{IsSpace, IsAxis};

use crate::chances::chance_sum;
use crate::reach::Reach;
use crate::scales::{ONE, REWARD_LIMIT};
use crate::space::{Axis, Space, same_state};
use spd_model::{Action, Model, State, Tree};
use spd_scaled::floor_div;
use sqlite_items::Items;

/// A sum of probabilities that isn't one.
#[derive(Drop)]
pub struct WrongSum {
    pub action: u32,
    pub var: u32,
    pub state: State,
    /// In units of 10^-12.
    pub sum: i128,
}

/// A reward that passes its limit.
#[derive(Drop)]
pub struct WideReward {
    pub action: u32,
    pub state: State,
    /// In units of 10^-9.
    pub value: i128,
}

/// For how many states of the variables after it a variable's sums of probabilities may differ.
fn sum_count(axis: &Axis, reach: Reach) -> usize
    ensures { result ≡ places_of reach axis.now.after }
{
    match reach {
        Reach::Own => 1,
        Reach::Later => axis.after,
    }
}

/// The first sum of a variable's probabilities after `action` at `s` that isn't one.
fn wrong_sum_at(
    model: &Model,
    number: usize,
    action: &Action,
    s: &State,
    axis: &Axis,
    reach: Reach,
    space: &Space,
) -> Option<WrongSum>
    requires number { number < 64 }
    requires action { Contains model.now.actions action.now }
    requires state { IsState (sizes model.now) s.now }
    requires axis { IsAxis model.now axis.now }
    requires reach { reach ≡ reach_at model.now action.now axis.now.var }
    requires space { IsSpace model.now space.now }
    ensures { option_map sum_record result ≡ wrong_sum_at_of model.now (number, action.now) axis.now.var s.now }
{
    for place in 0..sum_count(axis, reach) {
        let sum = chance_sum(model, action, s, axis, space, place);
        if sum != ONE {
            return Some(WrongSum {
                action: number as u32,
                var: axis.var as u32,
                state: same_state(model, s),
                sum,
            });
        }
    }
    None
}

/// The first of a variable's sums after `action` that isn't one, by state.
fn wrong_sum_of_var(
    model: &Model,
    number: usize,
    action: &Action,
    axis: &Axis,
    reach: Reach,
    space: &Space,
) -> Option<WrongSum>
    requires number { number < 64 }
    requires action { Contains model.now.actions action.now }
    requires axis { IsAxis model.now axis.now }
    requires reach { reach ≡ reach_at model.now action.now axis.now.var }
    requires space { IsSpace model.now space.now }
    ensures { option_map sum_record result ≡ wrong_sum_of_var_of model.now (number, action.now) axis.now.var }
{
    for s in space.states.as_slice() {
        let wrong = wrong_sum_at(model, number, action, s, axis, reach, space);
        if wrong.is_some() {
            return wrong;
        }
    }
    None
}

/// The first sum after `action` that isn't one, by variable and state.
fn wrong_sum_after(
    model: &Model,
    number: usize,
    action: &Action,
    reaches: &[Reach],
    space: &Space,
) -> Option<WrongSum>
    requires number { number < 64 }
    requires action { Contains model.now.actions action.now }
    requires reaches { reaches.now ≡ reaches_after model.now action.now }
    requires space { IsSpace model.now space.now }
    ensures { option_map sum_record result ≡ wrong_sum_after_of model.now (number, action.now) }
{
    let axes = space.axes.as_slice();
    for var in 0..axes.len() {
        let wrong = wrong_sum_of_var(model, number, action, &axes[var], reaches[var], space);
        if wrong.is_some() {
            return wrong;
        }
    }
    None
}

/// The first sum of probabilities that isn't one, by action, variable and state.
pub(crate) fn first_wrong_sum(
    model: &Model,
    reaches: &[Items<Reach>],
    space: &Space,
) -> Option<WrongSum>
    requires reaches { reaches.now ≡ reaches_of model.now }
    requires space { IsSpace model.now space.now }
    ensures { option_map sum_record result ≡ first_wrong_sum_of model.now }
{
    for (number, action) in model.actions.as_slice().iter().enumerate() {
        let wrong = wrong_sum_after(model, number, action, reaches[number].as_slice(), space);
        if wrong.is_some() {
            return wrong;
        }
    }
    None
}

/// The sum of what trees come to at a state.
fn total_of(model: &Model, trees: &[Tree], s: &State) -> i128
    requires trees { AreRewards model.now trees.now }
    requires state { IsState (sizes model.now) s.now }
    ensures sum { result ≡ total (map (λ tree. value_of model.now tree s.now s.now) trees.now) }
    ensures within { IsWithin (pos (2097152 * 10 ^ 30)) result }
{
    let mut sum = 0;
    for tree in trees {
        sum += model.value(tree, s, s);
    }
    sum
}

/// The reward of `action` at `s`, in units of 10^-9.
pub(crate) fn reward(model: &Model, action: &Action, s: &State) -> i128
    requires action { Contains model.now.actions action.now }
    requires state { IsState (sizes model.now) s.now }
    ensures { result ≡ reward_of model.now action.now s.now }
{
    let gained = total_of(model, model.reward.as_slice(), s);
    let paid = total_of(model, action.cost.as_slice(), s);
    floor_div(gained - paid, 1000)
}

/// The first state at which an action's reward passes its limit.
fn wide_reward_after(
    model: &Model,
    number: usize,
    action: &Action,
    space: &Space,
) -> Option<WideReward>
    requires number { number < 64 }
    requires action { Contains model.now.actions action.now }
    requires space { IsSpace model.now space.now }
    ensures { option_map reward_record result ≡ wide_reward_after_of model.now (number, action.now) }
{
    for s in space.states.as_slice() {
        let value = reward(model, action, s);
        if value.unsigned_abs() > REWARD_LIMIT {
            return Some(WideReward {
                action: number as u32,
                state: same_state(model, s),
                value,
            });
        }
    }
    None
}

/// The first reward that passes its limit, by action and state.
pub(crate) fn first_wide_reward(model: &Model, space: &Space) -> Option<WideReward>
    requires { IsSpace model.now space.now }
    ensures { option_map reward_record result ≡ first_wide_reward_of model.now }
{
    for (number, action) in model.actions.as_slice().iter().enumerate() {
        let wide = wide_reward_after(model, number, action, space);
        if wide.is_some() {
            return wide;
        }
    }
    None
}
