//! Rounded expectations: one variable after another is summed out of a table, which shrinks in place.

ghost use Rattle.std.specs.Prelude.{All, ℕ, ◌≡◌, ◌<◌, ◌*◌, ◌+◌, ◌≤◌, [], length, pos, slice_index_or, Contains, IfOk, OnOk};
ghost use Rattle.spd_scaled.specs.Scaled.{IsWithin, floor_div as floor_of, ceil_div as ceil_of};
ghost use Rattle.spd_model.specs.States.{sizes, state_count, at, IsState};
ghost use Rattle.spd_model.specs.Chances.{one, IsValid};
ghost use Rattle.spd_model.specs.Backup.{expectation};
ghost use Rattle.spd_model.specs.Turns.{value_limit};
ghost use Rattle.spd_plain.specs.Space.{state_limit};
ghost use Rattle.spd_plain.specs.inner.Axes.{IsSpace};
ghost use Rattle.spd_plain.specs.inner.Outlooks.{outlook_of};
ghost use Rattle.spd_plain.specs.inner.Expectations.{rounding_of, weighted, IsReady};

use crate::chances::tell_chances;
use crate::outlook::Outlook;
use crate::scales::ONE;
use crate::space::{Axis, Space};
use spd_model::{Action, Model, Side, State};
use spd_scaled::{ceil_div, floor_div};
use std::alloc::{AllocError, Global};

/// The buffers of an expectation, each with room for one entry per state.
#[derive(Drop)]
pub struct Work {
    /// The table that is rounded down, in units of 10^-9.
    pub low: Vec<i128>,
    /// The table that is rounded up, in units of 10^-9.
    pub high: Vec<i128>,
    /// The probabilities of one variable's values where the variables after it have their first values, in units of 10^-12.
    pub own: Vec<i128>,
    /// The probabilities of one variable's values for each state of the variables after it, in units of 10^-12.
    pub chances: Vec<i128>,
}

impl Work {
    /// Empty buffers for tables of `count` entries.
    pub(crate) fn new(alloc: Global, count: usize) -> Result<Work, AllocError>
        ensures { IfOk result (λ work. (work.low.items ≡ []) × (work.high.items ≡ []) × (work.own.items ≡ []) × (work.chances.items ≡ [])) }
    {
        Ok(Work {
            low: Vec::with_capacity(alloc, count)?,
            high: Vec::with_capacity(alloc, count)?,
            own: Vec::with_capacity(alloc, count)?,
            chances: Vec::with_capacity(alloc, count)?,
        })
    }
}

/// The sum, over the values of a variable, of the probability of each times what `values` has there, where the variables after it
/// have the values of their state at `place`.
fn weighted_sum(chances: &[i128], values: &[i128], size: usize, after: usize, place: usize) -> i128
    requires ready { IsReady size after chances.now values.now }
    requires place { place < after }
    ensures sum { result ≡ weighted size after chances.now values.now place }
    ensures within { IsWithin (pos (value_limit * 1000000000000)) result }
{
    let mut sum = 0;
    for value in 0..size {
        let index = value * after + place;
        sum += chances[index] * values[index];
    }
    sum
}

/// A quotient by one, as a probability, rounded up above and down below.
fn rounded(side: Side, sum: i128) -> i128
    requires { IsWithin (pos (value_limit * 1000000000000)) sum }
    ensures value { result ≡ rounding_of side sum one }
    ensures within { IsWithin (pos value_limit) result }
{
    match side {
        Side::Above => ceil_div(sum, ONE),
        Side::Below => floor_div(sum, ONE),
    }
}

/// Sums a variable out of a table over its states and those of the variables after it: an entry for each of the latter is left.
fn sum_out(chances: &[i128], size: usize, after: usize, side: Side, values: &mut Vec<i128>)
    requires { IsReady size after chances.now values.old.items }
    ensures count { length values.new.items ≡ after }
    ensures each { (k : ℕ) → k < after → slice_index_or values.new.items k (pos 0) ≡ rounding_of side (weighted size after chances.now values.old.items k) one }
    ensures bounded { All (IsWithin (pos value_limit)) values.new.items }
{
    for place in 0..after {
        let sum = weighted_sum(chances, values, size, after, place);
        values[place] = rounded(side, sum);
    }
    values.truncate(after);
}

/// Leaves the rounded expectations of `values` after `action` at `s` as the only entries of the two tables.
pub(crate) fn expect(
    model: &Model,
    action: &Action,
    outlook: &Outlook,
    s: &State,
    space: &Space,
    values: &[i128],
    work: &mut Work,
) -> Result<(), AllocError>
    requires valid { IsValid model.now }
    requires few { state_count (sizes model.now) ≤ state_limit }
    requires action { Contains model.now.actions action.now }
    requires outlook { outlook.now ≡ outlook_of model.now s.now action.now }
    requires state { IsState (sizes model.now) s.now }
    requires space { IsSpace model.now space.now }
    requires count { length values.now ≡ state_count (sizes model.now) }
    requires values { All (IsWithin (pos value_limit)) values.now }
    ensures count { OnOk result ((length work.new.low.items ≡ 1) × (length work.new.high.items ≡ 1)) }
    ensures low { OnOk result (slice_index_or work.new.low.items 0 (pos 0) ≡ expectation floor_of model.now (at (sizes model.now) values.now) action.now s.now) }
    ensures high { OnOk result (slice_index_or work.new.high.items 0 (pos 0) ≡ expectation ceil_of model.now (at (sizes model.now) values.now) action.now s.now) }
    ensures bounded { OnOk result (All (IsWithin (pos value_limit)) work.new.low.items × All (IsWithin (pos value_limit)) work.new.high.items) }
{
    let axes = space.axes.as_slice();
    work.low.clear();
    work.low.extend_from_slice(values)?;
    work.high.clear();
    work.high.extend_from_slice(values)?;
    for var in 0..axes.len() {
        let axis = &axes[var];
        tell_chances(
            model,
            action,
            outlook,
            s,
            axis,
            space,
            &mut work.own,
            &mut work.chances,
        )?;
        sum_out(
            &work.chances,
            axis.size,
            axis.after,
            Side::Below,
            &mut work.low,
        );
        sum_out(
            &work.chances,
            axis.size,
            axis.after,
            Side::Above,
            &mut work.high,
        );
    }
    Ok(())
}
