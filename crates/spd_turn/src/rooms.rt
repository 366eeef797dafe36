//! A turn in a table that has room enough.

ghost use Rattle.std.specs.Prelude.{◌≡◌, ◌≤◌, IfOk, IfErr};
ghost use Rattle.spd_model.specs.Chances.{IsValid};
ghost use Rattle.spd_model.specs.Options.{AreOptions};
ghost use Rattle.spd_build.specs.Built.{IsBuilt, frozen_numbers};
ghost use Rattle.spd_turn.specs.Turn.{value_of_turn};
ghost use Rattle.spd_turn.specs.Attempts.{IsTurnIn};
ghost use Rattle.spd_turn.specs.Runs.{IsFaultOf};

use crate::trying::{Attempt, try_turn};
use spd_apply::OpFault;
use spd_build::Built;
use spd_frozen::Frozen;
use spd_model::{Model, Options};
use spd_nodes::Steps;
use spd_tasks::Gate;
use std::alloc::Global;
use std::sync::ledger::Ledger;
use std::thread::Threads;

/// Why a turn wasn't made.
#[derive(Clone, Copy, Debug, PartialEq, Eq, Drop)]
pub enum TurnFault {
    /// The turn has more nodes than its table may hold.
    NodeLimit { turn: u32, limit: u32 },
    /// There is no memory.
    Memory,
}

/// Turn `turn` of value iteration on a valid model, in a table that begins with room for `room` nodes, and has four times the room each time
/// that it was too small, up to `options.nodes`. A turn that is made again calls the gate again. `value` is the turn's value as a list of
/// nodes.
///
/// NodeLimit comes only where the turn has more than `options.nodes` nodes, and Memory may come at any time.
pub fn turn_in_room<G: Gate, R: Threads + Sync, L: Ledger>(
    rt: &R,
    alloc: Global,
    gate: &G,
    model: &Model,
    built: &Built,
    value: &Frozen,
    turn: u32,
    room: u32,
    options: Options,
    steps: &mut Steps<L>,
) -> Result<Attempt, TurnFault>
    requires valid { IsValid model.now }
    requires built { IsBuilt model.now built.now }
    requires value { value.now ≡ frozen_numbers model.now (value_of_turn model.now options.span turn) }
    requires options { AreOptions options }
    requires room_low { 16 ≤ room }
    requires room_high { room ≤ options.nodes }
    ensures ok { IfOk result (IsTurnIn model.now options.span turn) }
    ensures room_least { IfOk result (λ a. room ≤ a.cons.size.limit) }
    ensures room { IfOk result (λ a. a.cons.size.limit ≤ options.nodes) }
    ensures fault { IfErr result (IsFaultOf model.now options.span options.nodes turn) }
{
    match try_turn(
        rt, alloc, gate, model, built, value, turn, room, options, steps,
    ) {
        Ok(made) => Ok(made),
        Err(OpFault::Memory) => Err(TurnFault::Memory),
        Err(OpFault::Full) => {
            if room == options.nodes {
                return Err(TurnFault::NodeLimit { turn, limit: room });
            }
            let more = room.saturating_mul(4).min(options.nodes);
            turn_in_room(
                rt, alloc, gate, model, built, value, turn, more, options, steps,
            )
        }
    }
}
