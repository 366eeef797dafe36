//! What is told of a turn, as lists of nodes.

ghost use Rattle.std.specs.Prelude.{◌≡◌, ◌-◌, ◌^◌, ◌<ℤ◌, pos, IfOk};
ghost use Rattle.spd_scaled.specs.Scaled.{IsWithin};
ghost use Rattle.spd_model.specs.Turns.{stops_at, error_of as error_of_residual};
ghost use Rattle.spd_turn.specs.Turn.{IsPresent, IsToldOf};

use crate::ending::Finished;
use spd_frozen::{Iterate, Memory, Residual, freeze};
use spd_model::Model;
use spd_nodes::{Forest, Ref};
use spd_scaled::ceil_div;
use std::alloc::Global;

/// One, as a discount.
const DISCOUNT_ONE: i128 = 1_000_000;

/// One minus the discount, in units of 10^-6.
fn discount_left(model: &Model) -> i128
    ensures value { result ≡ pos (1000000 - model.now.discount) }
    ensures positive { pos 0 <ℤ result }
{
    DISCOUNT_ONE - model.discount as i128
}

/// How far a value with this residual may be from the best one, in units of 10^-9, rounded up.
fn error_of(model: &Model, residual: i128) -> i128
    requires { IsWithin (pos (10 ^ 31)) residual }
    ensures { result ≡ error_of_residual model.now residual }
{
    ceil_div(residual * DISCOUNT_ONE, discount_left(model))
}

/// Whether a run stops at a turn with this residual.
pub fn is_done(model: &Model, residual: i128) -> bool
    requires { IsWithin (pos (10 ^ 31)) residual }
    ensures { result ≡ stops_at model.now residual }
{
    2 * residual * DISCOUNT_ONE <= model.tolerance * discount_left(model)
}

/// What is told of a turn with these diagrams of its value, of its policy and of the next turn's value, and with this residual.
///
/// The only error is want of memory.
pub fn tell<F: Forest>(
    alloc: Global,
    model: &Model,
    forest: &mut F,
    turn: u32,
    value: Ref,
    policy: Ref,
    next: Ref,
    residual: Residual,
) -> Result<Finished, Memory>
    requires value { IsPresent (F.shows forest.old) value }
    requires policy { IsPresent (F.shows forest.old) policy }
    requires next { IsPresent (F.shows forest.old) next }
    requires residual { IsWithin (pos (10 ^ 31)) residual.r }
    ensures same { F.shows forest.new ≡ F.shows forest.old }
    ensures keeps { F.kept forest.new ≡ F.kept forest.old }
    ensures told { IfOk result (IsToldOf model.now (F.shows forest.old) turn value policy next residual) }
{
    let value = freeze(alloc, forest, value)?;
    let policy = freeze(alloc, forest, policy)?;
    let next = freeze(alloc, forest, next)?;
    let error = error_of(model, residual.r);
    let iterate = Iterate {
        turn,
        value,
        policy,
        residual,
        error,
    };
    Ok(Finished { iterate, next })
}
