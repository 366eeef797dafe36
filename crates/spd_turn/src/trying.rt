//! A turn in a table of its own.

ghost use Rattle.std.specs.Prelude.{◌≡◌, ◌+◌, ◌≤◌, ℕ, List, ℤ, length, IfOk, IfErr, OnOk, true};
ghost use Rattle.spd_cons_core.specs.Invariants.{shares};
ghost use Rattle.spd_model.specs.Chances.{IsValid};
ghost use Rattle.spd_model.specs.Options.{AreOptions};
ghost use Rattle.spd_model.specs.States.{sizes};
ghost use Rattle.spd_model.specs.Turns.{turn as table_of_turn};
ghost use Rattle.spd_nodes.specs.declared.forest.StoreFault.TheVariants as F;
ghost use Rattle.spd_nodes.specs.Grove.{shown_of, standing_of};
ghost use Rattle.spd_nodes.specs.KnownTrees.{AllFitIn, shown_by};
ghost use Rattle.spd_nodes.specs.Levels.{slots};
ghost use Rattle.spd_nodes.specs.Made.{HasMade};
ghost use Rattle.spd_build.specs.Built.{IsBuilt, frozen_numbers};
ghost use Rattle.spd_turn.specs.Turn.{IsFinished, turn_functions, value_of_turn};
ghost use Rattle.spd_turn.specs.Parts.{ArePartsOf, IsValueList, IsSomeValue, MakesParts};
ghost use Rattle.spd_turn.specs.Attempts.{KnowsTurn, IsTurnIn, IsTooSmall};

use crate::ending::{Finished, finish};
use crate::parts::{TurnParts, thaw_parts};
use crate::waves::backup_actions;
use spd_apply::OpFault;
use spd_build::{Built, layout_of};
use spd_cons::{Cons, Seat};
use spd_frozen::Frozen;
use spd_model::{Model, Options};
use spd_nodes::{Grove, Layout, Steps};
use spd_tasks::Gate;
use std::alloc::Global;
use std::sync::ledger::Ledger;
use std::thread::Threads;

/// A turn with the table of its nodes.
#[derive(Drop)]
pub struct Attempt {
    /// What the turn ended with.
    pub finished: Finished,
    /// The table.
    pub cons: Cons,
    /// The table's seat, which stands for all of its seats.
    pub seat: Seat,
}

/// Backs up all actions, and ends the turn.
fn turn_on<'a, G: Gate, R: Threads + Sync, L: Ledger>(
    rt: &R,
    alloc: Global,
    gate: &G,
    model: &Model,
    grove: &mut Grove<'a>,
    parts: &'a TurnParts,
    turn: u32,
    options: Options,
    steps: &mut Steps<L>,
) -> Result<Finished, OpFault>
    requires valid { IsValid model.now }
    requires options { AreOptions options }
    requires ready { ArePartsOf model.now (value_of_turn model.now options.span turn) (shown_of grove.old) parts.now }
    requires splits { length parts.now.thawed.rewards.items ≤ grove.old.seat.mind.splits }
    ensures sizes { grove.new.sizes ≡ grove.old.sizes }
    ensures table { grove.new.seat.table ≡ grove.old.seat.table }
    ensures shares { shares grove.new.seat.mind ≡ shares grove.old.seat.mind }
    ensures splits { OnOk result (grove.new.seat.mind.splits + length parts.now.thawed.rewards.items ≡ grove.old.seat.mind.splits) }
    ensures made { HasMade (shown_of grove.old) (shown_of grove.new) (turn_functions model.now options.span (table_of_turn model.now options.span turn)) }
    ensures full { IfErr result (λ e. e ≡ F.Full → (shown_of grove.new).full ≡ true) }
    ensures finished { IfOk result (IsFinished model.now options.span turn) }
    ensures knows { OnOk result (KnowsTurn model.now options.span turn (shown_of grove.new)) }
{
    let bounds = backup_actions(
        rt,
        alloc,
        gate,
        grove,
        &parts.thawed,
        parts.w,
        options.workers as usize,
        options.memo as usize,
    )?;
    finish(
        alloc,
        model,
        grove,
        turn,
        options.span,
        parts.w,
        bounds.as_slice(),
        options.memo as usize,
        steps,
    )
}

/// The diagrams with which a turn begins, made through a seat of the table. It gives the seat back.
fn thaw_in<L: Ledger>(
    alloc: Global,
    model: &Model,
    built: &Built,
    value: &Frozen,
    cons: &Cons,
    layout: &Layout,
    seat: Seat,
    steps: &mut Steps<L>,
) -> (Seat, Result<TurnParts, OpFault>)
    requires valid { IsValid model.now }
    requires built { IsBuilt model.now built.now }
    requires value { IsSomeValue model.now value.now }
    requires layout { layout.now ≡ sizes model.now }
    requires own { seat.table ≡ cons.now }
    requires fit { AllFitIn (slots layout.now) seat.mind.knows }
    ensures standing { standing_of (record { sizes = layout.now; seat = result.0 }) ≡ standing_of (record { sizes = layout.now; seat = seat }) }
    ensures fit { AllFitIn (slots layout.now) result.0.mind.knows }
    ensures made { (v : List ℕ → ℤ) → IsValueList model.now v value.now → MakesParts model.now v (shown_by layout.now seat) (shown_by layout.now result.0) result.1 }
{
    let mut grove = Grove::new(cons, seat, layout);
    let parts = thaw_parts(alloc, model, built, value, &mut grove, steps);
    (grove.seat(), parts)
}

/// A turn, of the diagrams with which it begins, made through a seat of the table. It gives the seat back.
fn turn_in<'a, G: Gate, R: Threads + Sync, L: Ledger>(
    rt: &R,
    alloc: Global,
    gate: &G,
    model: &Model,
    cons: &'a Cons,
    layout: &'a Layout,
    seat: Seat,
    parts: &'a TurnParts,
    turn: u32,
    options: Options,
    steps: &mut Steps<L>,
) -> (Seat, Result<Finished, OpFault>)
    requires valid { IsValid model.now }
    requires options { AreOptions options }
    requires own { seat.table ≡ cons.now }
    requires fit { AllFitIn (slots layout.now) seat.mind.knows }
    requires ready { ArePartsOf model.now (value_of_turn model.now options.span turn) (shown_by layout.now seat) parts.now }
    requires splits { length parts.now.thawed.rewards.items ≤ seat.mind.splits }
    ensures table { result.0.table ≡ seat.table }
    ensures shares { shares result.0.mind ≡ shares seat.mind }
    ensures splits { OnOk result.1 (result.0.mind.splits + length parts.now.thawed.rewards.items ≡ seat.mind.splits) }
    ensures made { HasMade (shown_by layout.now seat) (shown_by layout.now result.0) (turn_functions model.now options.span (table_of_turn model.now options.span turn)) }
    ensures full { IfErr result.1 (λ e. e ≡ F.Full → result.0.mind.ended ≡ true) }
    ensures finished { IfOk result.1 (IsFinished model.now options.span turn) }
    ensures knows { OnOk result.1 (KnowsTurn model.now options.span turn (shown_by layout.now result.0)) }
{
    let mut grove = Grove::new(cons, seat, layout);
    let finished = turn_on(
        rt, alloc, gate, model, &mut grove, parts, turn, options, steps,
    );
    (grove.seat(), finished)
}

/// How many seats a turn's table has: one for each action beside the first one.
pub fn seats_of(model: &Model) -> u32
    ensures count { result ≡ length model.now.actions + 1 }
    ensures few { result ≤ 128 }
{
    model.actions.len() as u32 + 1
}

/// Turn `turn` of value iteration on a valid model in a table of its own, which has room for `room` nodes and a seat for each action beside
/// the first one. `value` is the turn's value as a list of nodes.
///
/// Full comes only where the turn has more nodes than `room`, and Memory may come at any time.
pub fn try_turn<G: Gate, R: Threads + Sync, L: Ledger>(
    rt: &R,
    alloc: Global,
    gate: &G,
    model: &Model,
    built: &Built,
    value: &Frozen,
    turn: u32,
    room: u32,
    options: Options,
    steps: &mut Steps<L>,
) -> Result<Attempt, OpFault>
    requires valid { IsValid model.now }
    requires built { IsBuilt model.now built.now }
    requires value { value.now ≡ frozen_numbers model.now (value_of_turn model.now options.span turn) }
    requires options { AreOptions options }
    requires room_low { 16 ≤ room }
    requires room_high { room ≤ 8388608 }
    ensures ok { IfOk result (IsTurnIn model.now options.span turn) }
    ensures room { IfOk result (λ a. a.cons.size.limit ≡ room) }
    ensures fault { IfErr result (IsTooSmall model.now options.span turn room) }
{
    // Reading a field tells the proof what every model keeps.
    let _vars = &model.vars;
    let layout = match layout_of(alloc, model) {
        Ok(layout) => layout,
        Err(_) => return Err(OpFault::Memory),
    };
    let (cons, first) = match Cons::new(alloc, room, seats_of(model)) {
        Ok(opened) => opened,
        Err(_) => return Err(OpFault::Memory),
    };
    let (begun, parts) = thaw_in(alloc, model, built, value, &cons, &layout, first, steps);
    // A seat tells the proof what it has published.
    begun.facts();
    let parts = parts?;
    let (seat, finished) = turn_in(
        rt, alloc, gate, model, &cons, &layout, begun, &parts, turn, options, steps,
    );
    seat.facts();
    let finished = finished?;
    Ok(Attempt {
        finished,
        cons,
        seat,
    })
}
