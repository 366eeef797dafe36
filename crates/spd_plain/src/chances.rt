//! The probabilities of a variable's next values, read from the tables of a model.

ghost use Rattle.std.specs.Prelude.{ℕ, ◌≡◌, ◌<◌, ◌≤◌, ◌+◌, ◌*◌, ◌^◌, [], length, drop, pos, slice_index_or, Contains, IfOk, OnOk};
ghost use Rattle.spd_scaled.specs.Scaled.{IsWithin};
ghost use Rattle.spd_model.specs.States.{sizes, states, IsState};
ghost use Rattle.spd_model.specs.Chances.{sizes_after, sum_of};
ghost use Rattle.spd_plain.specs.Space.{state_limit};
ghost use Rattle.spd_plain.specs.inner.Axes.{IsSpace, IsAxis};
ghost use Rattle.spd_plain.specs.inner.Chances.{chance_of, values_of, TellsChances};
ghost use Rattle.spd_plain.specs.inner.Outlooks.{outlook_of};

use crate::outlook::Outlook;
use crate::reach::Reach;
use crate::space::{Axis, Space};
use spd_model::{Action, Model, State};
use sqlite_items::Items;
use std::alloc::{AllocError, Global};

/// The probability, after `action` at `s`, of the value of `axis` in the state at `place` of the variables from that of `axis` on, where
/// the variables after it have their values of that state; in units of 10^-12.
fn chance_at(
    model: &Model,
    action: &Action,
    s: &State,
    axis: &Axis,
    space: &Space,
    place: usize,
) -> i128
    requires action { Contains model.now.actions action.now }
    requires state { IsState (sizes model.now) s.now }
    requires axis { IsAxis model.now axis.now }
    requires space { IsSpace model.now space.now }
    requires place { place < axis.now.size * axis.now.after }
    ensures value { result ≡ chance_of model.now action.now s.now axis.now.var (slice_index_or (states (drop axis.now.var (sizes model.now))) place []) }
    ensures within { IsWithin (pos (10 ^ 30)) result }
{
    let next = &space.states.as_slice()[place];
    model.value(&action.tables.as_slice()[axis.var], s, next)
}

/// The sum of the probabilities of a variable's values after `action` at `s`, where the variables after it have the values of their
/// state at `place`.
pub(crate) fn chance_sum(
    model: &Model,
    action: &Action,
    s: &State,
    axis: &Axis,
    space: &Space,
    place: usize,
) -> i128
    requires action { Contains model.now.actions action.now }
    requires state { IsState (sizes model.now) s.now }
    requires axis { IsAxis model.now axis.now }
    requires space { IsSpace model.now space.now }
    requires place { place < axis.now.after }
    ensures { result ≡ sum_of model.now action.now s.now axis.now.var (slice_index_or (states (sizes_after model.now axis.now.var)) place []) }
{
    let mut sum = 0;
    for value in 0..axis.size {
        sum += chance_at(model, action, s, axis, space, value * axis.after + place);
    }
    sum
}

/// Reads the probabilities of a variable's values after `action` at `s`, where the variables after it have their first values.
fn read_own(
    model: &Model,
    action: &Action,
    s: &State,
    axis: &Axis,
    space: &Space,
    own: &mut Vec<i128>,
) -> Result<(), AllocError>
    requires action { Contains model.now.actions action.now }
    requires state { IsState (sizes model.now) s.now }
    requires axis { IsAxis model.now axis.now }
    requires space { IsSpace model.now space.now }
    ensures { OnOk result (own.new.items ≡ values_of model.now action.now s.now axis.now.var) }
{
    own.clear();
    for value in 0..axis.size {
        own.push(chance_at(model, action, s, axis, space, value * axis.after))?;
    }
    Ok(())
}

/// The probabilities of a variable's values after `action` at `s`, where the variables after it have their first values.
pub(crate) fn kept_chances(
    alloc: Global,
    model: &Model,
    action: &Action,
    s: &State,
    axis: &Axis,
    space: &Space,
) -> Result<Items<i128>, AllocError>
    requires action { Contains model.now.actions action.now }
    requires state { IsState (sizes model.now) s.now }
    requires axis { IsAxis model.now axis.now }
    requires space { IsSpace model.now space.now }
    ensures { IfOk result (λ kept. kept ≡ values_of model.now action.now s.now axis.now.var) }
{
    let mut kept = Vec::with_capacity(alloc, axis.size)?;
    read_own(model, action, s, axis, space, &mut kept)?;
    Ok(Items::from_vec(kept))
}

/// Writes each entry of `kept` as often as `after` says.
fn spread(kept: &[i128], after: usize, chances: &mut Vec<i128>) -> Result<(), AllocError>
    requires room { length kept.now * after ≤ state_limit }
    ensures len { OnOk result (length chances.new.items ≡ length kept.now * after) }
    ensures each { OnOk result ((v k : ℕ) → v < length kept.now → k < after
        → slice_index_or chances.new.items (v * after + k) (pos 0) ≡ slice_index_or kept.now v (pos 0)) }
{
    chances.clear();
    for (value, chance) in kept.iter().enumerate() {
        chances.resize((value + 1) * after, *chance)?;
    }
    Ok(())
}

/// Reads the probabilities of a variable's values, for each state of the variables after it.
fn read_chances(
    model: &Model,
    action: &Action,
    s: &State,
    axis: &Axis,
    space: &Space,
    chances: &mut Vec<i128>,
) -> Result<(), AllocError>
    requires action { Contains model.now.actions action.now }
    requires state { IsState (sizes model.now) s.now }
    requires axis { IsAxis model.now axis.now }
    requires space { IsSpace model.now space.now }
    ensures { OnOk result (TellsChances model.now action.now s.now axis.now.var chances.new.items) }
{
    chances.clear();
    for place in 0..axis.size * axis.after {
        chances.push(chance_at(model, action, s, axis, space, place))?;
    }
    Ok(())
}

/// Tells the probabilities of a variable's values after `action` at `s`, for each state of the variables after it. Those that don't
/// follow these variables are taken from what `outlook` keeps, or where it keeps none are read once each into `own`.
pub(crate) fn tell_chances(
    model: &Model,
    action: &Action,
    outlook: &Outlook,
    s: &State,
    axis: &Axis,
    space: &Space,
    own: &mut Vec<i128>,
    chances: &mut Vec<i128>,
) -> Result<(), AllocError>
    requires action { Contains model.now.actions action.now }
    requires outlook { outlook.now ≡ outlook_of model.now s.now action.now }
    requires state { IsState (sizes model.now) s.now }
    requires axis { IsAxis model.now axis.now }
    requires space { IsSpace model.now space.now }
    ensures { OnOk result (TellsChances model.now action.now s.now axis.now.var chances.new.items) }
{
    match outlook.reaches.as_slice()[axis.var] {
        Reach::Later => read_chances(model, action, s, axis, space, chances),
        Reach::Own => match outlook.kept.get(axis.var) {
            Some(kept) => spread(kept.as_slice(), axis.after, chances),
            None => {
                read_own(model, action, s, axis, space, own)?;
                spread(own, axis.after, chances)
            }
        },
    }
}
