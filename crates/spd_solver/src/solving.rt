//! Solving a model, and why it isn't solved.
ghost use Rattle.std.specs.Prelude.{◌≡◌, IfOk, IfErr};
ghost use Rattle.spd_model.specs.Options.{AreOptions};
ghost use Rattle.spd_model.specs.States.{sizes, IsState};
ghost use Rattle.spd_solver.specs.inner.Stages.{IsSolution, IsUnsolved, named_sum, named_reward};
ghost use Rattle.spd_solver.specs.declared.solving.Unsolved.TheVariants as Unsolved;

use crate::command::Way;
use crate::diagrams::solve_on_diagrams;
use crate::states::state_text;
use crate::status::Stage;
use crate::tables::solve_on_tables;
use crate::watch::Watch;
use spd_frozen::Iterate;
use spd_model::{Model, Options, State, Text, Why};
use spd_tasks::Gate;
use spd_text::{action_name, var_name};
use sqlite_items::Items;
use std::alloc::{AllocError, Global};
use std::sync::Arc;
use std::thread::Threads;

/// What the run of a model came to: the turn at which it stopped, and why it stopped there.
#[derive(Drop)]
pub(crate) struct Solution {
    pub iterate: Arc<Iterate>,
    pub why: Why,
}

/// Why a model isn't solved.
#[derive(Debug, Drop)]
pub(crate) enum Unsolved {
    /// It has more than 4,096 states, and was to be solved over tables: the first product of the leading variables' numbers of values that
    /// passes this.
    TooManyStates {
        product: u32,
    },
    /// The probabilities of this variable's values after this action at this state don't sum to one. The sum is in units of 10^-12.
    Sum {
        action: Text,
        var: Text,
        state: Text,
        sum: i128,
    },
    /// The reward of this action at this state passes its limit, in units of 10^-9.
    Range {
        action: Text,
        state: Text,
        value: i128,
    },
    /// On decision diagrams this stage has more than `limit` nodes.
    NodeLimit {
        stage: Stage,
        limit: u32,
    },
    /// Memory was wanted and not found.
    Memory,
}

impl From<AllocError> for Unsolved {
    ghost from_gives = { λ _ why. why ≡ Unsolved.Memory };

    fn from(_: AllocError) -> Unsolved {
        Unsolved::Memory
    }
}

/// A sum of probabilities that isn't one, with the names of what it is of. The sum is in units of 10^-12.
pub(crate) fn wrong_sum(
    alloc: Global,
    model: &Model,
    action: u32,
    var: u32,
    state: &State,
    sum: i128,
) -> Result<Unsolved, AllocError>
    requires { IsState (sizes model.now) state.now }
    ensures { IfOk result (λ why. why ≡ named_sum model.now action var state.now sum) }
{
    Ok(Unsolved::Sum {
        action: Items::from_slice(alloc, action_name(model, action))?,
        var: Items::from_slice(alloc, var_name(model, var))?,
        state: state_text(alloc, model, state)?,
        sum,
    })
}

/// A reward that passes its limit, with the names of what it is of. The reward is in units of 10^-9.
pub(crate) fn wide_reward(
    alloc: Global,
    model: &Model,
    action: u32,
    state: &State,
    value: i128,
) -> Result<Unsolved, AllocError>
    requires { IsState (sizes model.now) state.now }
    ensures { IfOk result (λ why. why ≡ named_reward model.now action state.now value) }
{
    Ok(Unsolved::Range {
        action: Items::from_slice(alloc, action_name(model, action))?,
        state: state_text(alloc, model, state)?,
        value,
    })
}

/// What a model's run comes to in this way, with these options.
pub(crate) fn solve_model<R: Threads + Sync, G: Gate + Watch>(
    rt: &R,
    gate: &G,
    alloc: Global,
    way: Way,
    model: &Model,
    options: &Options,
) -> Result<Solution, Unsolved>
    requires { AreOptions options.now }
    ensures solved { IfOk result (IsSolution way model.now options.now) }
    ensures refused { IfErr result (IsUnsolved way model.now options.now) }
{
    match way {
        Way::Diagrams => solve_on_diagrams(rt, gate, alloc, model, *options),
        Way::Tables => solve_on_tables(alloc, model, options),
    }
}
