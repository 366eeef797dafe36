//! The model, and what is told of its first turns.
ghost use Rattle.std.specs.Prelude.{◌≡◌, ◌≤◌, ◌<◌, IfOk};
ghost use Rattle.spd_model.specs.Chances.{IsValid};
ghost use Rattle.spd_model.specs.Options.{AreOptions};
ghost use Rattle.spd_build.specs.Built.{IsBuilt};

use spd_build::{Built, build, layout_of};
use spd_frozen::Iterate;
use spd_model::{Model, Options};
use spd_nodes::{Alone, Steps};
use spd_reader::read_model;
use std::alloc::Global;
use std::sync::ledger::{Blank, Ledger};
use std::test::Fail;

/// A machine that is worth 1 while it is up. It stays as it is, or is mended at the cost of 0.3.
const MACHINE: &str = "(variables (machine up down))
action stay
machine (machine (up (machine' (up (1)) (down (0)))) (down (machine' (up (0)) (down (1)))))
endaction
action mend
machine (machine' (up (1)) (down (0)))
cost (0.3)
endaction
reward (machine (up (1)) (down (0)))
discount 0.5
tolerance 0.1";

/// The value is 1 and 0. To stay is worth 1 + 0.5 and 0, to mend 1 - 0.3 + 0.5 and 0 - 0.3 + 0.5, so the best is 1.5 and 0.2: the first lies 0.5
/// above the value.
pub const TURN_0: &str = "turn 0 \
value [Leaf(Num(1000000000)), Leaf(Num(0)), Branch { var: 0, kids: [0, 1] }] \
policy [Leaf(Act(0)), Leaf(Act(1)), Branch { var: 0, kids: [0, 1] }] \
residual 500000000 at [0] Above 0 error 1000000000";

/// How many nodes turn 0 has. The weights have the leaves 0 and 1 and two tests, the rewards the leaves 1, 0.7 and -0.3 and two tests; the value
/// at the next state is a test. To stay makes 0.5 and 1.5 and a test above each, to mend 1.2 and 0.2 and a test. The greater of both is a test, the
/// policy has two leaves and a test, the pairs of bounds too. How far the bound lies above the value is a test, how far it lies below it has the
/// leaves -0.5 and -0.2 and a test: 4 + 5 + 1 + 4 + 3 + 1 + 3 + 3 + 1 + 3.
pub const NODES_0: usize = 28;

/// The value is 1.5 and 0.2. To stay is worth 1 + 0.75 and 0.1, to mend 0.7 + 0.75 and -0.3 + 0.75, so the best is 1.75 and 0.45: both lie 0.25 above
/// the value.
pub const TURN_1: &str = "turn 1 \
value [Leaf(Num(1500000000)), Leaf(Num(200000000)), Branch { var: 0, kids: [0, 1] }] \
policy [Leaf(Act(0)), Leaf(Act(1)), Branch { var: 0, kids: [0, 1] }] \
residual 250000000 at [0] Above 0 error 500000000";

/// How many nodes turn 1 has. The weights and rewards are as before, the value has two leaves and a test, and a test at the next state. To stay
/// makes 0.75 and 0.1 and a test, and 1.75 and a test; to mend 1.45 and 0.45 and a test. The greater of both is a test, the policy and the pairs
/// have two leaves and a test each, and the gaps are the leaves 0.25 and -0.25: 9 + 3 + 1 + 5 + 3 + 1 + 3 + 3 + 2.
pub const NODES_1: usize = 30;

/// How a run goes: two workers, at most so many nodes, and to turn 1.
pub fn options(nodes: u32) -> Options
    requires low { 16 ≤ nodes }
    requires high { nodes ≤ 8388608 }
    ensures options { AreOptions result }
    ensures nodes { result.nodes ≡ nodes }
{
    Options {
        workers: 2,
        nodes,
        turns: 1,
        ..Options::default()
    }
}

/// The model.
pub fn machine(alloc: Global) -> Result<Model, Fail> {
    match read_model(alloc, MACHINE.as_bytes()) {
        Ok(model) => Ok(model),
        Err(unread) => Err(Fail::new(format_args!("{unread:?}"))),
    }
}

/// What a valid model is built into.
pub fn built_of<L: Ledger>(alloc: Global, model: &Model, blank: Blank) -> Result<Built, Fail>
    requires name { blank.name ≡ L.name }
    requires parts { blank.parts ≡ L.parts }
    requires one { 0 < blank.parts }
    ensures valid { IfOk result (λ _. IsValid model.now) }
    ensures built { IfOk result (IsBuilt model.now) }
{
    // Reading a field tells the proof what every model keeps.
    let _vars = &model.vars;
    let mut steps = Steps::<L>::new(blank);
    let mut forest = Alone::new(alloc, layout_of(alloc, model)?, 1000)?;
    match build(alloc, model, &mut forest, 1000, &mut steps) {
        Ok(built) => Ok(built),
        Err(fault) => Err(Fail::new(format_args!("{fault:?}"))),
    }
}

/// Fails where something else is told of a turn than is wanted.
pub fn check_told(alloc: Global, iterate: &Iterate, want: &str) -> Result<(), Fail> {
    let residual = &iterate.residual;
    let told = format!(in alloc;
        "turn {} value {:?} policy {:?} residual {} at {:?} {:?} {} error {}",
        iterate.turn,
        iterate.value.nodes(),
        iterate.policy.nodes(),
        residual.r,
        residual.at.values(),
        residual.side,
        residual.action,
        iterate.error
    )?;
    if told.as_str() != want {
        return Err(Fail::new(format_args!("{told}")));
    }
    Ok(())
}
