//! Solving a model over tables: value iteration, and then from its tables to the diagrams that the text of a result lists.
ghost use Rattle.std.specs.Prelude.{◌≡◌, ◌<◌, length, map, pos, All, IfOk, IfErr};
ghost use Rattle.spd_scaled.specs.Scaled.{IsWithin};
ghost use Rattle.spd_model.specs.Options.{AreOptions};
ghost use Rattle.spd_model.specs.Turns.{value_limit};
ghost use Rattle.spd_nodes.specs.declared.leaf.Leaf.TheVariants.{Num, Act};
ghost use Rattle.spd_plain.specs.Plain.{IsPlaced, IsShaped, told_of};
ghost use Rattle.spd_frozen.specs.Fits.{FitsModel};
ghost use Rattle.spd_frozen.specs.Told.{told};
ghost use Rattle.spd_solver.specs.inner.Stages.{IsSolution, IsUnsolved, told_fault};
ghost use Rattle.spd_solver.specs.declared.command.Way.TheVariants as Way;

use crate::solving::{Solution, Unsolved, wide_reward, wrong_sum};
use spd_bellman::{law_bound, law_bounded, law_turns};
use spd_frozen::{Iterate, Residual, of_table};
use spd_model::{Model, Options};
use spd_nodes::Leaf;
use spd_plain::{Plain, PlainFault, plain_solve};
use std::alloc::{AllocError, Global};
use std::sync::Arc;

/// A leaf for each of these values.
fn value_leaves(alloc: Global, values: &[i128]) -> Result<Vec<Leaf>, AllocError>
    ensures { IfOk result (λ leaves. leaves.items ≡ map (λ x. Num x) values.now) }
{
    values.iter().map(|value| Leaf::Num(*value)).collect(alloc)
}

/// A leaf for each of these actions.
fn action_leaves(alloc: Global, actions: &[u32]) -> Result<Vec<Leaf>, AllocError>
    ensures { IfOk result (λ leaves. leaves.items ≡ map (λ a. Act a) actions.now) }
{
    actions
        .iter()
        .map(|action| Leaf::Act(*action))
        .collect(alloc)
}

/// What a result tells: the reduced diagrams of its tables, and all else as it is.
fn iterate_of(alloc: Global, model: &Model, plain: Plain) -> Result<Iterate, AllocError>
    requires shaped { IsShaped model.now plain }
    requires values { All (IsWithin (pos value_limit)) plain.value }
    requires choices { All (λ a. a < length model.now.actions) plain.policy }
    requires action { plain.action < length model.now.actions }
    ensures told { IfOk result (λ x. told x ≡ told_of model.now plain) }
    ensures fits { IfOk result (FitsModel model.now) }
{
    // Reading a field tells the proof what every model keeps.
    let _vars = &model.vars;
    let values = value_leaves(alloc, plain.value.as_slice())?;
    let choices = action_leaves(alloc, plain.policy.as_slice())?;
    Ok(Iterate {
        turn: plain.turn,
        value: of_table(alloc, model, &values)?,
        policy: of_table(alloc, model, &choices)?,
        residual: Residual {
            r: plain.residual,
            at: plain.place,
            side: plain.side,
            action: plain.action,
        },
        error: plain.error,
    })
}

/// A fault of a model, with the names of what is at fault.
fn named(alloc: Global, model: &Model, fault: PlainFault) -> Result<Unsolved, AllocError>
    requires { IsPlaced model.now fault }
    ensures { IfOk result (λ why. why ≡ told_fault model.now fault) }
{
    match fault {
        PlainFault::TooManyStates { product } => Ok(Unsolved::TooManyStates { product }),
        PlainFault::Sum {
            action,
            var,
            state,
            sum,
        } => wrong_sum(alloc, model, action, var, &state, sum),
        PlainFault::Range {
            action,
            state,
            value,
        } => wide_reward(alloc, model, action, &state, value),
        PlainFault::Memory => Ok(Unsolved::Memory),
    }
}

/// What a model's run over tables comes to with these options.
pub(crate) fn solve_on_tables(
    alloc: Global,
    model: &Model,
    options: &Options,
) -> Result<Solution, Unsolved>
    requires { AreOptions options.now }
    ensures solved { IfOk result (IsSolution Way.Tables model.now options.now) }
    ensures refused { IfErr result (IsUnsolved Way.Tables model.now options.now) }
{
    // Reading a field tells the proof what every model keeps.
    let _vars = &model.vars;
    // The value of each turn is within its limit, the one at which the run stops is near optimal, and some turn may be enough.
    law_bounded();
    law_bound();
    law_turns();
    let plain = match plain_solve(alloc, model, options.turns, options.span) {
        Ok(plain) => plain,
        Err(fault) => return Err(named(alloc, model, fault)?),
    };
    let why = plain.why;
    let iterate = iterate_of(alloc, model, plain)?;
    match Arc::new(alloc, iterate) {
        Ok(iterate) => Ok(Solution { iterate, why }),
        Err(_) => Err(Unsolved::Memory),
    }
}
