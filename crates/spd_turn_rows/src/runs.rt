//! Runs that stop, and runs whose next turn has no room.
ghost use Rattle.spd_model.specs.Chances.{IsValid};
ghost use Rattle.spd_build.specs.Built.{IsBuilt};

use crate::told::{NODES_0, NODES_1, TURN_0, TURN_1, built_of, check_told, machine, options};
use spd_build::Built;
use spd_model::{Model, Why};
use spd_tasks::Open;
use spd_turn::{Advance, Run, TurnFault};
use std::alloc::Global;
use std::marker::Brand;
use std::sync::ledger::Blank;
use std::test::Fail;
use std::thread::Threads;

/// Fails where a run stands at another turn than is wanted, or its table has other nodes or another seat.
fn check_turn(alloc: Global, run: &Run<'_>, want: &str, nodes: usize) -> Result<(), Fail> {
    check_told(alloc, run.now(), want)?;
    if run.seat().published() != nodes {
        return Err(Fail::new(format_args!("{} nodes", run.seat().published())));
    }
    if !run.cons().is_whole(run.seat()) {
        return Err(Fail::new("the seat doesn't stand for all seats"));
    }
    Ok(())
}

/// Fails where going on answers something else than is wanted.
fn check_advance<R: AllocGlobal + Threads + Sync>(
    rt: &R,
    run: &mut Run<'_>,
    want: Result<Advance, TurnFault>,
) -> Result<(), Fail> {
    let answer = run.advance(rt, rt.alloc(), &Open);
    if answer != want {
        return Err(Fail::new(format_args!("{answer:?}")));
    }
    Ok(())
}

/// A run to the turn limit, where it stops and stays.
fn check_stops<R: AllocGlobal + Threads + Sync>(
    rt: &R,
    model: &Model,
    built: &Built,
) -> Result<(), Fail>
    requires valid { IsValid model.now }
    requires built { IsBuilt model.now built.now }
{
    let alloc = rt.alloc();
    let mut run = Run::start(rt, alloc, &Open, model, built, options(1000))?;
    check_turn(alloc, &run, TURN_0, NODES_0)?;
    check_advance(rt, &mut run, Ok(Advance::Turned))?;
    check_turn(alloc, &run, TURN_1, NODES_1)?;
    check_advance(rt, &mut run, Ok(Advance::Stopped(Why::Limit)))?;
    check_turn(alloc, &run, TURN_1, NODES_1)
}

/// A run whose turn 1 has no room, and which stays at turn 0. A table has room for one entry more for each of its three seats.
fn check_faults<R: AllocGlobal + Threads + Sync>(
    rt: &R,
    model: &Model,
    built: &Built,
) -> Result<(), Fail>
    requires valid { IsValid model.now }
    requires built { IsBuilt model.now built.now }
{
    let alloc = rt.alloc();
    let mut run = Run::start(rt, alloc, &Open, model, built, options(26))?;
    let fault = TurnFault::NodeLimit { turn: 1, limit: 26 };
    check_advance(rt, &mut run, Err(fault))?;
    check_advance(rt, &mut run, Err(fault))?;
    check_turn(alloc, &run, TURN_0, NODES_0)
}

#[test]
fn a_run_stops_at_its_limit(rt: HostRuntime) -> Result<(), Fail> {
    let model = machine(rt.alloc())?;
    let built = built_of::<Brand>(rt.alloc(), &model, Blank::new(1))?;
    check_stops(&rt, &model, &built)
}

#[test]
fn a_run_stays_where_a_turn_has_no_room(rt: HostRuntime) -> Result<(), Fail> {
    let model = machine(rt.alloc())?;
    let built = built_of::<Brand>(rt.alloc(), &model, Blank::new(1))?;
    check_faults(&rt, &model, &built)
}
