//! The states of a model in order, and the place of each variable in that order.

ghost use Rattle.std.specs.Prelude.{◌≡◌, ◌<◌, ◌≤◌, IfOk, IfErr, Some};
ghost use Rattle.spd_model.specs.States.{sizes, states, state_count, IsState};
ghost use Rattle.spd_plain.specs.Space.{state_limit, first_large_product};
ghost use Rattle.spd_plain.specs.inner.Axes.{axes_of, IsSpace};

use spd_model::{Model, State};
use sqlite_items::Items;
use std::alloc::{AllocError, Global};

/// The greatest number of states that tables are made of.
const STATE_LIMIT: usize = 4096;

/// A variable in the order of the states.
#[derive(Clone, Copy)]
pub struct Axis {
    /// The number of the variable.
    pub var: usize,
    /// How many values it has.
    pub size: usize,
    /// How many states the variables after it have.
    pub after: usize,
}

/// The states of a model and its variables, each in order.
#[derive(Drop)]
pub struct Space {
    pub states: Items<State>,
    pub axes: Items<Axis>,
}

/// How many states a model has; where they pass the limit, the first product of leading variables' sizes that passes it.
pub(crate) fn count_states(model: &Model) -> Result<usize, u32>
    ensures count { IfOk result (λ count. (count ≡ state_count (sizes model.now)) × (count ≤ state_limit)) }
    ensures passed { IfErr result (λ product. (state_limit < state_count (sizes model.now)) × (first_large_product model.now ≡ Some product)) }
{
    let mut count = 1;
    for var in model.vars.as_slice() {
        count *= var.values.len();
        if count > STATE_LIMIT {
            return Err(count as u32);
        }
    }
    Ok(count)
}

/// The same state once more.
pub(crate) fn same_state(model: &Model, s: &State) -> State
    requires { IsState (sizes model.now) s.now }
    ensures { result ≡ s.now }
{
    // Reading a field tells the proof what every model keeps.
    let _vars = &model.vars;
    State::of(s.values())
}

/// All states in order.
fn all_states(alloc: Global, model: &Model, count: usize) -> Result<Vec<State>, AllocError>
    requires { count ≡ state_count (sizes model.now) }
    ensures { IfOk result (λ all. all.items ≡ states (sizes model.now)) }
{
    let mut all = Vec::with_capacity(alloc, count)?;
    let mut next = Some(model.first_state());
    while let Some(state) = next {
        next = model.next_state(&state);
        all.push(state)?;
    }
    Ok(all)
}

/// The variables in order.
fn all_axes(alloc: Global, model: &Model, count: usize) -> Result<Vec<Axis>, AllocError>
    requires { count ≡ state_count (sizes model.now) }
    ensures { IfOk result (λ axes. axes.items ≡ axes_of model.now) }
{
    let vars = model.vars.as_slice();
    let mut axes = Vec::with_capacity(alloc, vars.len())?;
    let mut after = count;
    for var in 0..vars.len() {
        let size = vars[var].values.len();
        after /= size;
        axes.push(Axis { var, size, after })?;
    }
    Ok(axes)
}

impl Space {
    /// The states of a model that has so many of them.
    pub(crate) fn new(alloc: Global, model: &Model, count: usize) -> Result<Space, AllocError>
        requires count { count ≡ state_count (sizes model.now) }
        requires few { count ≤ state_limit }
        ensures { IfOk result (IsSpace model.now) }
    {
        // Reading a field tells the proof what every model keeps.
        let _vars = &model.vars;
        Ok(Space {
            states: Items::from_vec(all_states(alloc, model, count)?),
            axes: Items::from_vec(all_axes(alloc, model, count)?),
        })
    }
}
