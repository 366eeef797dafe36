//! The line of a place at which a certificate fails.
ghost use Rattle.std.specs.Prelude.{◌≡◌, ◌++◌, ◌∷◌, []};
ghost use Rattle.spd_model.specs.States.{sizes, IsState};
ghost use Rattle.spd_text.specs.Failure.{failure_line};
ghost use Rattle.spd_text.specs.Writing.{Wrote, Counted};
ghost use Rattle.spd_text.specs.inner.Pieces.{shown, spaced, Writes};

use crate::names::{action_name, side_word};
use crate::result::put_state;
use crate::waiting::{Waiting, put, put_all};
use spd_edge::{Failed, Sink};
use spd_model::{Model, Side, State};

/// Writes the line `no`, with the state, the side and the action at which a certificate fails, ended by LF. It takes no memory.
///
/// # Errors
///
/// `Failed` where a write failed: the sink then took a front of the line.
pub fn write_failure<K: Sink>(
    k: &mut K,
    model: &Model,
    at: &State,
    side: Side,
    action: u32,
) -> Result<(), Failed>
    requires { IsState (sizes model.now) at.now }
    ensures text { Wrote (K.taken k.old) (failure_line model.now (record { state = at.now; side = side; action = action })) result (K.taken k.new) }
    ensures count { Counted (K.faults k.old) result (K.faults k.new) }
    ensures named { K.name k.new ≡ K.name k.old }
{
    let mut waiting = Waiting::new();
    put_failure(k, &mut waiting, model, at, side, action)?;
    waiting.flush(k)
}

/// Writes the line, or lets its end wait.
fn put_failure<K: Sink>(
    k: &mut K,
    waiting: &mut Waiting,
    model: &Model,
    at: &State,
    side: Side,
    action: u32,
) -> Result<(), Failed>
    requires { IsState (sizes model.now) at.now }
    ensures { Writes (shown K.taken K.faults K.name k.old) waiting.old (failure_line model.now (record { state = at.now; side = side; action = action })) result (shown K.taken K.faults K.name k.new) waiting.new }
{
    put(k, waiting, b"no")?;
    put_state(k, waiting, model, at)?;
    put_choice(k, waiting, side_word(side), action_name(model, action))
}

/// Writes these words for the side and the action, and ends the line.
fn put_choice<K: Sink>(
    k: &mut K,
    waiting: &mut Waiting,
    side: &[u8],
    action: &[u8],
) -> Result<(), Failed>
    ensures { Writes (shown K.taken K.faults K.name k.old) waiting.old (spaced (side.now ∷ action.now ∷ []) ++ 10 ∷ []) result (shown K.taken K.faults K.name k.new) waiting.new }
{
    put_all(k, waiting, &[b" ", side, b" ", action, b"\n"])
}
