//! A run of value iteration.

ghost use Rattle.std.specs.Prelude.{◌≡◌, ◌+◌, ◌≤◌, ◌<◌, min, max, IfOk, IfErr};
ghost use Rattle.std.specs.Int.{IsNextPowerOfTwo};
ghost use Rattle.std.specs.Arc.{arc_value};
ghost use Rattle.spd_model.specs.Chances.{IsValid};
ghost use Rattle.spd_model.specs.Options.{AreOptions};
ghost use Rattle.spd_build.specs.Built.{IsBuilt, frozen_numbers};
ghost use Rattle.spd_turn.specs.Turn.{value_of_turn};
ghost use Rattle.spd_turn.specs.Attempts.{IsTurnIn};
ghost use Rattle.spd_turn.specs.Runs.{IsFaultOf, IsRun, StandsAt, AnswersRun};

use crate::ending::Finished;
use crate::rooms::{TurnFault, turn_in_room};
use crate::telling::is_done;
use crate::trying::{Attempt, seats_of};
use spd_build::Built;
use spd_cons::{Cons, Seat};
use spd_frozen::{Frozen, Iterate};
use spd_model::{Model as Process, Options, Why};
use spd_nodes::Steps;
use spd_tasks::Gate;
use std::alloc::Global;
use std::marker::{Brand, Model};
use std::sync::Arc;
use std::sync::ledger::{Blank, Ledger};
use std::thread::Threads;

/// What going on with a run did.
#[derive(Clone, Copy, Debug, PartialEq, Eq)]
pub enum Advance {
    /// The run stands at the next turn.
    Turned,
    /// The run stops where it stands.
    Stopped(Why),
}

/// A run of value iteration on a valid model: it stands at a turn, with the table of this turn's nodes.
#[derive(Drop)]
pub struct Run<'a> {
    model: &'a Process,
    built: &'a Built,
    options: Options,
    iterate: Arc<Iterate>,
    next: Frozen,
    cons: Cons,
    seat: Seat,
}

impl<'a> Model for Run<'a> {
    ghost use Rattle.std.specs.Arc.{arc_value};
    ghost use Rattle.spd_model.specs.contracts.tree.Tree as tree;
    ghost use Rattle.std.specs.Coded.{codes};
    ghost use Rattle.spd_turn.specs.Runs.{RunValue, IsRun};

    ghost Value = { RunValue };

    ghost coded = { Prim.hlevel (codes, tree.the_row.coded) };

    ghost view = { λ r. record { process = r.model.now; built = r.built.now; options = r.options; iterate = arc_value r.iterate; next = r.next; table = r.cons; seat = r.seat } };

    ghost invariant = { λ r. IsRun (record { process = r.model.now; built = r.built.now; options = r.options; iterate = arc_value r.iterate; next = r.next; table = r.cons; seat = r.seat }) };
}

/// The same as `turn_in_room`, where no step is counted.
fn make_turn<G: Gate, R: Threads + Sync, L: Ledger>(
    rt: &R,
    alloc: Global,
    gate: &G,
    model: &Process,
    built: &Built,
    value: &Frozen,
    turn: u32,
    room: u32,
    options: Options,
    blank: Blank,
) -> Result<Attempt, TurnFault>
    requires name { blank.name ≡ L.name }
    requires parts { blank.parts ≡ L.parts }
    requires one { 0 < blank.parts }
    requires valid { IsValid model.now }
    requires built { IsBuilt model.now built.now }
    requires value { value.now ≡ frozen_numbers model.now (value_of_turn model.now options.span turn) }
    requires options { AreOptions options }
    requires room_low { 16 ≤ room }
    requires room_high { room ≤ options.nodes }
    ensures ok { IfOk result (IsTurnIn model.now options.span turn) }
    ensures room { IfOk result (λ a. a.cons.size.limit ≤ options.nodes) }
    ensures fault { IfErr result (IsFaultOf model.now options.span options.nodes turn) }
{
    let mut steps = Steps::<L>::new(blank);
    turn_in_room(
        rt, alloc, gate, model, built, value, turn, room, options, &mut steps,
    )
}

/// The room that the table of a turn has at least, where the node limit allows it.
const FIRST_ROOM: usize = 1_024;

/// How many nodes are expected of the turn after turn `turn`, which made so many: the first turns of a run grow fast.
fn expected_after(turn: u32, made: usize) -> usize
    ensures { made ≤ result }
{
    match turn {
        0 => made.saturating_mul(8),
        1 => made.saturating_mul(2),
        _ => made.saturating_add(made / 2),
    }
}

/// The greatest limit of a table of `seats` seats that has as many buckets as one of this limit: their number is a power of two, at least
/// twice that of the limit and the seats.
fn fill_up(limit: u32, seats: u32) -> u32
    requires limit { limit ≤ 8388608 }
    requires seats { seats ≤ 128 }
    ensures { IsNextPowerOfTwo (limit + seats) (result + seats) }
{
    (limit + seats).next_power_of_two() - seats
}

/// The room with which a turn begins of which so many nodes are expected: at least for these and for 1,024, filled up to the greatest
/// one with as many buckets, but no more than `nodes`.
fn room_for(expected: usize, seats: u32, nodes: u32) -> u32
    requires nodes_low { 16 ≤ nodes }
    requires nodes_high { nodes ≤ 8388608 }
    requires seats { seats ≤ 128 }
    ensures low { 16 ≤ result }
    ensures enough { min nodes (max 1024 expected) ≤ result }
    ensures high { result ≤ nodes }
{
    let least = expected.max(FIRST_ROOM).min(nodes as usize) as u32;
    fill_up(least, seats).min(nodes)
}

/// The room with which the turn after turn `turn` begins, which made so many nodes: at least as much as these need, but no more than
/// `nodes`.
fn room_after(turn: u32, made: usize, seats: u32, nodes: u32) -> u32
    requires nodes_low { 16 ≤ nodes }
    requires nodes_high { nodes ≤ 8388608 }
    requires seats { seats ≤ 128 }
    ensures low { 16 ≤ result }
    ensures enough { min nodes (max 1024 made) ≤ result }
    ensures high { result ≤ nodes }
{
    room_for(expected_after(turn, made), seats, nodes)
}

impl<'a> Run<'a> {
    /// A run at turn 0, of a valid model and what it was built into.
    ///
    /// NodeLimit comes only where turn 0 has more than `options.nodes` nodes, and Memory may come at any time.
    pub fn start<G: Gate, R: Threads + Sync>(
        rt: &R,
        alloc: Global,
        gate: &G,
        model: &'a Process,
        built: &'a Built,
        options: Options,
    ) -> Result<Run<'a>, TurnFault>
        requires valid { IsValid model.now }
        requires built { IsBuilt model.now built.now }
        requires options { AreOptions options }
        ensures ok { IfOk result (StandsAt model.now options 0) }
        ensures fault { IfErr result (IsFaultOf model.now options.span options.nodes 0) }
    {
        // Reading a field tells the proof what every model keeps.
        let _vars = &model.vars;
        let room = room_for(FIRST_ROOM, seats_of(model), options.nodes);
        let Attempt {
            finished,
            cons,
            seat,
        } = make_turn::<_, _, Brand>(
            rt,
            alloc,
            gate,
            model,
            built,
            &built.start,
            0,
            room,
            options,
            Blank::new(1),
        )?;
        let Finished { iterate, next } = finished;
        match Arc::new(alloc, iterate) {
            Ok(iterate) => Ok(Run {
                model,
                built,
                options,
                iterate,
                next,
                cons,
                seat,
            }),
            Err(_) => Err(TurnFault::Memory),
        }
    }

    /// What is told of the present turn.
    pub fn now(&self) -> &Arc<Iterate>
        ensures iterate { arc_value result.now ≡ self.now.iterate }
        ensures run { IsRun self.now }
    {
        &self.iterate
    }

    /// Goes on to the next turn, where the run doesn't stop at the present one: it is done where the stop rule holds, and else it is at the
    /// limit at turn `options.turns`.
    ///
    /// NodeLimit comes only where the next turn has more than `options.nodes` nodes, and Memory may come at any time. Where it answers an
    /// error or that it stops, the run is as before.
    pub fn advance<G: Gate, R: Threads + Sync>(
        &mut self,
        rt: &R,
        alloc: Global,
        gate: &G,
    ) -> Result<Advance, TurnFault>
        ensures { AnswersRun self.old self.new result }
    {
        let model = self.model;
        // Reading a field tells the proof what every model keeps.
        let _vars = &model.vars;
        if is_done(model, self.iterate.residual.r) {
            return Ok(Advance::Stopped(Why::Done));
        }
        let turn = self.iterate.turn;
        if turn == self.options.turns {
            return Ok(Advance::Stopped(Why::Limit));
        }
        let made = self.seat.published();
        let room = room_after(turn, made, seats_of(model), self.options.nodes);
        let Attempt {
            finished,
            cons,
            seat,
        } = make_turn::<_, _, Brand>(
            rt,
            alloc,
            gate,
            model,
            self.built,
            &self.next,
            turn + 1,
            room,
            self.options,
            Blank::new(1),
        )?;
        let Finished { iterate, next } = finished;
        let iterate = match Arc::new(alloc, iterate) {
            Ok(iterate) => iterate,
            Err(_) => return Err(TurnFault::Memory),
        };
        self.iterate = iterate;
        self.next = next;
        self.cons = cons;
        self.seat = seat;
        Ok(Advance::Turned)
    }

    /// The table of the present turn.
    pub fn cons(&self) -> &Cons
        ensures { result.now ≡ self.now.table }
    {
        &self.cons
    }

    /// The table's seat, which stands for all of its seats.
    pub fn seat(&self) -> &Seat
        ensures { result.now ≡ self.now.seat }
    {
        &self.seat
    }
}
