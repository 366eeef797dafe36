//! Value iteration on plain tables.

ghost use Rattle.std.specs.Prelude.{All, ◌≡◌, ◌-◌, ◌≤◌, ◌^◌, pos, ◌≤ℤ◌, ◌<ℤ◌, IfOk, IfErr, OnOk, None};
ghost use Rattle.spd_scaled.specs.Scaled.{IsWithin};
ghost use Rattle.spd_model.specs.Chances.{IsValid, first_wrong_sum as first_wrong_sum_of, first_wide_reward as first_wide_reward_of};
ghost use Rattle.spd_model.specs.States.{sizes, state_count};
ghost use Rattle.spd_model.specs.Turns.{stops_at, error_of as error_of_residual, turn as turn_of, stop_of};
ghost use Rattle.spd_model.specs.ResultText.{result_of};
ghost use Rattle.spd_plain.specs.inner.Outlooks.{outlooks_of};
ghost use Rattle.spd_plain.specs.inner.Reach.{reaches_of};
ghost use Rattle.spd_plain.specs.Space.{state_limit};
ghost use Rattle.spd_plain.specs.inner.Axes.{IsSpace};
ghost use Rattle.spd_plain.specs.inner.Sweeps.{CanSweep, IsSweep, AreLimited, stop_record};
ghost use Rattle.spd_plain.specs.Plain.{plain_of, told_of, Cause, FaultCause, IsShaped, IsPlaced, IsInvalid};

use crate::expectation::Work;
use crate::outlook::{Outlook, tabulate};
use crate::ranges::merge_ranges;
use crate::reach::{Reach, reaches};
use crate::scales::DISCOUNT_ONE;
use crate::space::{Space, count_states};
use crate::sweep::{Sweep, policy, residual_place, start, sweep_states};
use crate::validity::{first_wide_reward, first_wrong_sum};
use spd_model::{Model, Side, State, Why};
use spd_scaled::ceil_div;
use sqlite_items::Items;
use std::alloc::{AllocError, Global};

/// What value iteration ends with.
#[derive(Debug, Drop)]
pub struct Plain {
    /// The turn at which the run stopped.
    pub turn: u32,
    /// Why it stopped there.
    pub why: Why,
    /// The value of each state in order, in units of 10^-9.
    pub value: Items<i128>,
    /// The number of the action that the policy takes at each state in order.
    pub policy: Items<u32>,
    /// The Bellman residual of the value, in units of 10^-9.
    pub residual: i128,
    /// The first state at which the residual lies.
    pub place: State,
    /// The side of the value on which it lies there.
    pub side: Side,
    /// The number of the action whose bound lies there.
    pub action: u32,
    /// How far the value may be from the optimal one, in units of 10^-9.
    pub error: i128,
}

/// Why a model has no value function.
#[derive(Debug, Drop)]
pub enum PlainFault {
    /// The model has more than 4,096 states: the first product of leading variables' numbers of values that passes this.
    TooManyStates {
        product: u32,
    },
    /// The probabilities of a variable's next values don't sum to one: the first such action, variable and state, and the sum in units
    /// of 10^-12, which is that for the first next values of the variables after it at which it isn't one.
    Sum {
        action: u32,
        var: u32,
        state: State,
        sum: i128,
    },
    /// A reward passes its limit: the first such action and state, and the reward in units of 10^-9.
    Range {
        action: u32,
        state: State,
        value: i128,
    },
    /// There is no memory.
    Memory,
}

/// Where a run of value iteration stopped.
#[derive(Drop)]
pub struct Stop {
    pub turn: u32,
    pub why: Why,
    /// The value of each state in order, in units of 10^-9.
    pub value: Vec<i128>,
    /// What a sweep over all states finds there.
    pub sweep: Sweep,
}

/// One minus the discount, in units of 10^-6.
fn discount_left(model: &Model) -> i128
    ensures value { result ≡ pos (1000000 - model.now.discount) }
    ensures positive { pos 0 <ℤ result }
{
    DISCOUNT_ONE - model.discount as i128
}

/// Whether a run stops at a turn with this residual.
fn is_done(model: &Model, residual: i128) -> bool
    requires { IsWithin (pos (10 ^ 31)) residual }
    ensures { result ≡ stops_at model.now residual }
{
    2 * residual * DISCOUNT_ONE <= model.tolerance * discount_left(model)
}

/// How far a value with this residual may be from the optimal one, in units of 10^-9, rounded up.
fn error_of(model: &Model, residual: i128) -> i128
    requires { IsWithin (pos (10 ^ 31)) residual }
    ensures { result ≡ error_of_residual model.now residual }
{
    ceil_div(residual * DISCOUNT_ONE, discount_left(model))
}

/// Runs value iteration up to the first turn at which the stop rule holds, and at most to turn `turns`.
fn run_turns(
    alloc: Global,
    model: &Model,
    rows: &[Items<Outlook>],
    space: &Space,
    turns: u32,
    span: i128,
    work: &mut Work,
) -> Result<Stop, AllocError>
    requires valid { IsValid model.now }
    requires few { state_count (sizes model.now) ≤ state_limit }
    requires space { IsSpace model.now space.now }
    requires rows { rows.now ≡ outlooks_of model.now }
    requires turns { turns ≤ 1000000 }
    requires span_low { pos 0 ≤ℤ span }
    requires span_high { span ≤ℤ pos (10 ^ 30) }
    ensures stop { IfOk result (λ stop. stop_record stop ≡ stop_of model.now turns span) }
    ensures table { IfOk result (λ stop. stop.value.items ≡ turn_of model.now span stop.turn) }
    ensures values { IfOk result (λ stop. CanSweep model.now space.now stop.value.items) }
    ensures sweep { IfOk result (λ stop. IsSweep model.now stop.value.items stop.sweep) }
    ensures limited { IfOk result (λ stop. All AreLimited stop.sweep.ranges.items) }
{
    let mut value = start(alloc, model, rows)?;
    let mut turn = 0;
    loop {
        let sweep = sweep_states(alloc, model, rows, space, &value, work)?;
        if is_done(model, sweep.residual) {
            return Ok(Stop {
                turn,
                why: Why::Done,
                value,
                sweep,
            });
        }
        if turn == turns {
            return Ok(Stop {
                turn,
                why: Why::Limit,
                value,
                sweep,
            });
        }
        value = merge_ranges(alloc, &sweep.ranges, span)?;
        turn += 1;
    }
}

impl From<AllocError> for PlainFault {
    ghost use Rattle.spd_plain.specs.declared.solve.PlainFault.TheVariants.{Memory};

    ghost from_gives = { λ _ fault. fault ≡ Memory };

    fn from(_error: AllocError) -> PlainFault {
        PlainFault::Memory
    }
}

/// What a run takes of a valid model that hasn't too many states.
#[derive(Drop)]
pub struct Checked {
    /// Its states and its variables, each in order.
    pub space: Space,
    /// The reach of each table of each action in order.
    pub reaches: Vec<Items<Reach>>,
}

/// Whether a model is valid and hasn't too many states: the first fault that it has, in the order of `plain_solve`, or what a run takes of it.
fn check_model(alloc: Global, model: &Model) -> Result<Checked, PlainFault>
    ensures space { IfOk result (λ checked. IsSpace model.now checked.space) }
    ensures reaches { IfOk result (λ checked. checked.reaches.items ≡ reaches_of model.now) }
    ensures sums { OnOk result (first_wrong_sum_of model.now ≡ None) }
    ensures rewards { OnOk result (first_wide_reward_of model.now ≡ None) }
    ensures cause { IfErr result (FaultCause model.now) }
{
    let count = match count_states(model) {
        Ok(count) => count,
        Err(product) => return Err(PlainFault::TooManyStates { product }),
    };
    let space = Space::new(alloc, model, count)?;
    let reaches = reaches(alloc, model)?;
    if let Some(wrong) = first_wrong_sum(model, &reaches, &space) {
        return Err(PlainFault::Sum {
            action: wrong.action,
            var: wrong.var,
            state: wrong.state,
            sum: wrong.sum,
        });
    }
    if let Some(wide) = first_wide_reward(model, &space) {
        return Err(PlainFault::Range {
            action: wide.action,
            state: wide.state,
            value: wide.value,
        });
    }
    Ok(Checked { space, reaches })
}

/// The value function, the policy and the residual of a valid model.
fn solve_valid(
    alloc: Global,
    model: &Model,
    reaches: &[Items<Reach>],
    space: &Space,
    turns: u32,
    span: i128,
) -> Result<Plain, AllocError>
    requires valid { IsValid model.now }
    requires few { state_count (sizes model.now) ≤ state_limit }
    requires reaches { reaches.now ≡ reaches_of model.now }
    requires space { IsSpace model.now space.now }
    requires turns { turns ≤ 1000000 }
    requires span_low { pos 0 ≤ℤ span }
    requires span_high { span ≤ℤ pos (10 ^ 30) }
    ensures { IfOk result (λ p. p ≡ plain_of model.now turns span) }
{
    let rows = tabulate(alloc, model, reaches, space)?;
    let mut work = Work::new(alloc, rows.len())?;
    let stop = run_turns(alloc, model, &rows, space, turns, span, &mut work)?;
    let policy = policy(alloc, model, &rows, space, &stop.value, &mut work)?;
    let place = residual_place(model, &rows, space, &stop.value, &stop.sweep, &mut work)?;
    let residual = stop.sweep.residual;
    Ok(Plain {
        turn: stop.turn,
        why: stop.why,
        value: Items::from_vec(stop.value),
        policy: Items::from_vec(policy),
        residual,
        place: place.state,
        side: place.side,
        action: place.action,
        error: error_of(model, residual),
    })
}

/// Runs value iteration on a model, up to the first turn at which the stop rule holds and at most to turn `turns`.
///
/// `span` is the width of the ranges that are merged, in units of 10^-9. A model of more than 4,096 states is refused by
/// `TooManyStates`, then one whose probabilities don't all sum to one by `Sum`, then one with a reward above 10^18 units by `Range`.
/// `Memory` comes where there is none.
pub fn plain_solve(
    alloc: Global,
    model: &Model,
    turns: u32,
    span: i128,
) -> Result<Plain, PlainFault>
    requires turns { turns ≤ 1000000 }
    requires span_low { pos 0 ≤ℤ span }
    requires span_high { span ≤ℤ pos (10 ^ 30) }
    ensures valid { OnOk result (IsValid model.now) }
    ensures solved { IfOk result (λ p. p ≡ plain_of model.now turns span) }
    ensures told { IfOk result (λ p. told_of model.now p ≡ result_of model.now turns span) }
    ensures cause { Cause model.now result }
    ensures shaped { IfOk result (IsShaped model.now) }
    ensures placed { IfErr result (IsPlaced model.now) }
    ensures invalid { IfErr result (IsInvalid model.now) }
{
    let checked = check_model(alloc, model)?;
    Ok(solve_valid(alloc, model, &checked.reaches, &checked.space, turns, span)?)
}
