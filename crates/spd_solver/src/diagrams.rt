//! Solving a model on decision diagrams (SPUDD, UAI 1999; APRICODD, NIPS 2000): it is built, and then turns are made until the run stops.
ghost use Rattle.std.specs.Prelude.{◌≡◌, ◌<◌, [], IfOk, IfErr};
ghost use Rattle.spd_model.specs.Options.{AreOptions};
ghost use Rattle.spd_model.specs.States.{sizes};
ghost use Rattle.spd_nodes.specs.Store.{shown};
ghost use Rattle.spd_build.specs.Built.{Builds, IsBuiltWhole};
ghost use Rattle.spd_solver.specs.inner.Stages.{IsOf, IsPlacedFault, IsSolution, IsUnsolved, StopsFor, told_build_fault, told_turn_fault};
ghost use Rattle.spd_solver.specs.declared.command.Way.TheVariants as Way;

use crate::solving::{Solution, Unsolved, wide_reward, wrong_sum};
use crate::status::Stage;
use crate::watch::Watch;
use spd_bellman::{law_bound, law_stop, law_turns};
use spd_build::{BuildFault, Built, build, layout_of};
use spd_model::{Model, Options, Why};
use spd_nodes::{Alone, Steps};
use spd_tasks::Gate;
use spd_turn::{Advance, Run, TurnFault};
use std::alloc::{AllocError, Global};
use std::marker::Brand;
use std::sync::ledger::{Blank, Ledger};
use std::thread::Threads;

/// The same as `build`, where no step is counted.
fn build_in<L: Ledger>(
    alloc: Global,
    model: &Model,
    forest: &mut Alone,
    memo_size: usize,
    blank: Blank,
) -> Result<Built, BuildFault>
    requires name { blank.name ≡ L.name }
    requires parts { blank.parts ≡ L.parts }
    requires one { 0 < blank.parts }
    requires layout { forest.old.sizes ≡ sizes model.now }
    requires memo_size { 0 < memo_size }
    ensures built { Builds model.now (shown forest.old) (shown forest.new) result }
    ensures limit { forest.new.limit ≡ forest.old.limit }
{
    let mut steps = Steps::<L>::new(blank);
    build(alloc, model, forest, memo_size, &mut steps)
}

/// A fault of building with room for `nodes` nodes, with the names of what is at fault.
fn named(
    alloc: Global,
    model: &Model,
    fault: BuildFault,
    nodes: u32,
) -> Result<Unsolved, AllocError>
    requires { IsPlacedFault model.now fault }
    ensures { IfOk result (λ why. why ≡ told_build_fault model.now nodes fault) }
{
    match fault {
        BuildFault::Sum {
            action,
            var,
            state,
            sum,
        } => wrong_sum(alloc, model, action, var, &state, sum),
        BuildFault::Range {
            action,
            state,
            value,
        } => wide_reward(alloc, model, action, &state, value),
        BuildFault::Full => Ok(Unsolved::NodeLimit {
            stage: Stage::Building,
            limit: nodes,
        }),
        BuildFault::Memory => Ok(Unsolved::Memory),
    }
}

/// A model's parts as lists of nodes, made in a forest of at most as many nodes as the options allow.
fn build_model(alloc: Global, model: &Model, options: Options) -> Result<Built, Unsolved>
    requires { AreOptions options }
    ensures built { IfOk result (IsBuiltWhole model.now) }
    ensures refused { IfErr result (IsUnsolved Way.Diagrams model.now options) }
{
    let layout = layout_of(alloc, model)?;
    let mut forest = Alone::new(alloc, layout, options.nodes)?;
    match build_in::<Brand>(
        alloc,
        model,
        &mut forest,
        options.memo as usize,
        Blank::new(1),
    ) {
        Ok(built) => Ok(built),
        Err(fault) => Err(named(alloc, model, fault, options.nodes)?),
    }
}

impl From<TurnFault> for Unsolved {
    ghost from_gives = { λ fault why. why ≡ told_turn_fault fault };

    fn from(fault: TurnFault) -> Unsolved {
        match fault {
            TurnFault::NodeLimit { turn, limit } => Unsolved::NodeLimit {
                stage: Stage::Turn(turn),
                limit,
            },
            TurnFault::Memory => Unsolved::Memory,
        }
    }
}

/// Goes on with a run of a model until it stops, and says why it stops where it then stands. The gate is told of each turn.
fn run_to_stop<G: Gate + Watch, R: Threads + Sync>(
    rt: &R,
    alloc: Global,
    gate: &G,
    model: &Model,
    run: &mut Run<'_>,
) -> Result<Why, Unsolved>
    ensures same { IsOf run.old.process run.old.options run.new }
    ensures stops { IfOk result (StopsFor run.new) }
    ensures fault { IfErr result (IsUnsolved Way.Diagrams run.old.process run.old.options) }
{
    // A run stops at the first turn at which its rule holds.
    law_stop();
    loop {
        gate.turned(model, run.now(), run.seat().published());
        match run.advance(rt, alloc, gate)? {
            Advance::Turned => {}
            Advance::Stopped(why) => return Ok(why),
        }
    }
}

/// What a model's run on decision diagrams comes to with these options.
pub(crate) fn solve_on_diagrams<R: Threads + Sync, G: Gate + Watch>(
    rt: &R,
    gate: &G,
    alloc: Global,
    model: &Model,
    options: Options,
) -> Result<Solution, Unsolved>
    requires { AreOptions options }
    ensures solved { IfOk result (IsSolution Way.Diagrams model.now options) }
    ensures refused { IfErr result (IsUnsolved Way.Diagrams model.now options) }
{
    // Reading a field tells the proof what every model keeps.
    let _vars = &model.vars;
    // The value at which the run stops is near optimal, and some turn may be enough.
    law_bound();
    law_turns();
    let built = build_model(alloc, model, options)?;
    let mut run = Run::start(rt, alloc, gate, model, &built, options)?;
    let why = run_to_stop(rt, alloc, gate, model, &mut run)?;
    let iterate = run.now().clone()?;
    Ok(Solution { iterate, why })
}
