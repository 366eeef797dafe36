//! A sweep over all states: the Bellman backup of a table, and its residual.

ghost use Rattle.std.specs.Prelude.{All, ◌≡◌, ◌<◌, ◌-ℤ◌, ◌||◌, if◌then◌else◌, [], length, pos, slice_index_or, IfOk};
ghost use Rattle.std.specs.Int.{int_max};
ghost use Rattle.std.specs.Ordering.{int_eq};
ghost use Rattle.spd_scaled.specs.Scaled.{IsWithin};
ghost use Rattle.spd_model.specs.declared.Side.TheVariants.{Above, Below};
ghost use Rattle.spd_model.specs.States.{sizes, states, at, table_of, state_count as state_count_of};
ghost use Rattle.spd_model.specs.Chances.{IsValid};
ghost use Rattle.spd_model.specs.Backup.{policy_of};
ghost use Rattle.spd_model.specs.Turns.{value_limit, start_of, place_of, state_of_residual};
ghost use Rattle.spd_plain.specs.inner.Outlooks.{outlooks_of};
ghost use Rattle.spd_plain.specs.inner.Sweeps.{CanSweep, IsSweep, AreLimited, place_record};

use crate::backup::{best_action, best_bounds, best_reward};
use crate::expectation::Work;
use crate::outlook::Outlook;
use crate::ranges::Bounds;
use crate::space::{Space, same_state};
use spd_model::{Model, Side, State};
use sqlite_items::Items;
use std::alloc::{AllocError, Global};

/// What a sweep over all states finds.
#[derive(Drop)]
pub struct Sweep {
    /// The greatest lower and the greatest upper bound over all actions, one entry per state in order.
    pub ranges: Vec<Bounds>,
    /// The Bellman residual, in units of 10^-9.
    pub residual: i128,
}

/// How far a state's bounds lie from its value, above or below it.
fn gap(bounds: &Bounds, value: i128) -> i128
    requires bounds { AreLimited bounds.now }
    requires value { IsWithin (pos value_limit) value }
    ensures { result ≡ int_max (bounds.now.high -ℤ value) (value -ℤ bounds.now.low) }
{
    (bounds.high - value).max(value - bounds.low)
}

/// Backs up each state, where `values` follows.
pub(crate) fn sweep_states(
    alloc: Global,
    model: &Model,
    rows: &[Items<Outlook>],
    space: &Space,
    values: &[i128],
    work: &mut Work,
) -> Result<Sweep, AllocError>
    requires rows { rows.now ≡ outlooks_of model.now }
    requires values { CanSweep model.now space.now values.now }
    ensures sweep { IfOk result (IsSweep model.now values.now) }
    ensures limited { IfOk result (λ sweep. All AreLimited sweep.ranges.items) }
{
    let states = space.states.as_slice();
    let mut ranges = Vec::with_capacity(alloc, states.len())?;
    let mut residual: i128 = 0;
    for place in 0..states.len() {
        let bounds = best_bounds(
            model,
            rows[place].as_slice(),
            &states[place],
            space,
            values,
            work,
        )?;
        residual = residual.max(gap(&bounds, values[place]));
        ranges.push(bounds)?;
    }
    Ok(Sweep { ranges, residual })
}

/// The table of turn 0: the greatest reward over all actions, one entry per state in order.
pub(crate) fn start(
    alloc: Global,
    model: &Model,
    rows: &[Items<Outlook>],
) -> Result<Vec<i128>, AllocError>
    requires rows { rows.now ≡ outlooks_of model.now }
    ensures { IfOk result (λ values. values.items ≡ start_of model.now) }
{
    // Reading a field tells the proof what every model keeps.
    let _actions = &model.actions;
    let mut values = Vec::with_capacity(alloc, rows.len())?;
    for row in rows {
        values.push(best_reward(row.as_slice()))?;
    }
    Ok(values)
}

/// The number of the first action with the greatest lower bound, where `values` follows, one entry per state in order.
pub(crate) fn policy(
    alloc: Global,
    model: &Model,
    rows: &[Items<Outlook>],
    space: &Space,
    values: &[i128],
    work: &mut Work,
) -> Result<Vec<u32>, AllocError>
    requires rows { rows.now ≡ outlooks_of model.now }
    requires values { CanSweep model.now space.now values.now }
    ensures { IfOk result (λ actions. actions.items ≡ table_of (sizes model.now) (policy_of model.now (at (sizes model.now) values.now))) }
{
    let states = space.states.as_slice();
    let mut actions = Vec::with_capacity(alloc, states.len())?;
    for place in 0..states.len() {
        let outlooks = rows[place].as_slice();
        let s = &states[place];
        actions.push(best_action(model, outlooks, s, space, values, Side::Below, work)?)?;
    }
    Ok(actions)
}

/// Where a residual lies.
#[derive(Drop)]
pub struct ResidualPlace {
    pub state: State,
    pub side: Side,
    pub action: u32,
}

/// Whether one of a state's two gaps equals the residual.
fn has_gap(bounds: &Bounds, value: i128, residual: i128) -> bool
    requires bounds { AreLimited bounds.now }
    requires value { IsWithin (pos value_limit) value }
    ensures { result ≡ (int_eq residual (bounds.now.high -ℤ value) || int_eq residual (value -ℤ bounds.now.low)) }
{
    residual == bounds.high - value || residual == value - bounds.low
}

/// The side of the residual at a state at which it lies: above where both gaps equal it.
fn side_of(bounds: &Bounds, value: i128, residual: i128) -> Side
    requires bounds { AreLimited bounds.now }
    requires value { IsWithin (pos value_limit) value }
    ensures { result ≡ (if int_eq residual (bounds.now.high -ℤ value) then Above else Below) }
{
    if residual == bounds.high - value {
        Side::Above
    } else {
        Side::Below
    }
}

/// The first state at which one of the two gaps equals the residual, by its place in the order of states.
fn first_place_of(model: &Model, values: &[i128], sweep: &Sweep) -> usize
    requires valid { IsValid model.now }
    requires count { length values.now ≡ state_count_of (sizes model.now) }
    requires bounded { All (IsWithin (pos value_limit)) values.now }
    requires sweep { IsSweep model.now values.now sweep.now }
    requires limited { All AreLimited sweep.now.ranges.items }
    ensures within { result < state_count_of (sizes model.now) }
    ensures first { slice_index_or (states (sizes model.now)) result [] ≡ state_of_residual model.now (at (sizes model.now) values.now) sweep.now.residual }
{
    // Reading a field tells the proof what every model keeps.
    let _vars = &model.vars;
    let ranges = sweep.ranges.as_slice();
    for place in 0..values.len() {
        if has_gap(&ranges[place], values[place], sweep.residual) {
            return place;
        }
    }
    unreachable!()
}

/// Where the residual of a sweep lies: its first state, its side, and the action whose bound it is.
pub(crate) fn residual_place(
    model: &Model,
    rows: &[Items<Outlook>],
    space: &Space,
    values: &[i128],
    sweep: &Sweep,
    work: &mut Work,
) -> Result<ResidualPlace, AllocError>
    requires rows { rows.now ≡ outlooks_of model.now }
    requires values { CanSweep model.now space.now values.now }
    requires sweep { IsSweep model.now values.now sweep.now }
    requires limited { All AreLimited sweep.now.ranges.items }
    ensures { IfOk result (λ place. place_record place ≡ place_of model.now (at (sizes model.now) values.now) sweep.now.residual) }
{
    let place = first_place_of(model, values, sweep);
    let ranges = sweep.ranges.as_slice();
    let side = side_of(&ranges[place], values[place], sweep.residual);
    let s = &space.states.as_slice()[place];
    let action = best_action(model, rows[place].as_slice(), s, space, values, side, work)?;
    Ok(ResidualPlace {
        state: same_state(model, s),
        side,
        action,
    })
}
