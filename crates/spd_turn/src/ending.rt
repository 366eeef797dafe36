//! The end of a turn: from the bounds of all actions to what is told of the turn, and the value that follows.

ghost use Rattle.std.specs.Prelude.{◌≡◌, ◌<◌, ◌≤ℤ◌, pos, IfOk, OnOk};
ghost use Rattle.spd_model.specs.Chances.{IsValid};
ghost use Rattle.spd_model.specs.Turns.{turn as table_of_turn};
ghost use Rattle.spd_nodes.specs.Made.{MakesAll};
ghost use Rattle.spd_backup.specs.Expected.{IsMade};
ghost use Rattle.spd_turn.specs.Turn.{CanFinish, IsFinished, finish_functions, greatest_low};

use crate::telling::tell;
use spd_apply::OpFault;
use spd_backup::Bounds;
use spd_frozen::{Frozen, Iterate};
use spd_model::Model;
use spd_nodes::{Forest, Ref, Steps};
use spd_policy::best;
use spd_ranges::merge;
use spd_residual::residual;
use std::alloc::Global;
use std::sync::ledger::Ledger;

/// What a turn ends with.
#[derive(Debug, Drop)]
pub struct Finished {
    /// What is told of the turn.
    pub iterate: Iterate,
    /// The value of the next turn at each state, with leaves in units of 10^-9.
    pub next: Frozen,
}

/// Ends turn `turn` of value iteration on a valid model, where `w` is the diagram of its value and `bounds` are those of all actions, in
/// file order, where that value follows: it makes the best bounds and the policy (SPUDD, UAI 1999), merges the best bounds at `span`, in
/// units of 10^-9, into the value of the next turn (APRICODD, NIPS 2000), and finds the residual. The turn's value, its policy and the next
/// value are written down as lists of nodes, and the error is that of the residual, rounded up.
///
/// It makes only nodes of the functions of a turn's end. Full comes only where a call of the forest answered Full in this call, and
/// Memory where the heap gave none. Each of its tables keeps at most `memo_size` answers.
pub fn finish<F: Forest, L: Ledger>(
    alloc: Global,
    model: &Model,
    forest: &mut F,
    turn: u32,
    span: i128,
    w: Ref,
    bounds: &[Bounds],
    memo_size: usize,
    steps: &mut Steps<L>,
) -> Result<Finished, OpFault>
    requires valid { IsValid model.now }
    requires ready { CanFinish model.now span turn (F.shows forest.old) w bounds.now }
    requires span { pos 0 ≤ℤ span }
    requires memo_size { 0 < memo_size }

    ensures made { MakesAll (F.shows forest.old) (F.shows forest.new) (finish_functions model.now span (table_of_turn model.now span turn)) result }
    ensures finished { IfOk result (IsFinished model.now span turn) }
    // The greatest lower bound goes on to be known, as all that was known does.
    ensures low { OnOk result (IsMade (F.shows forest.new) (greatest_low model.now span turn)) }
    ensures keeps { F.kept forest.new ≡ F.kept forest.old }
{
    // Reading a field tells the proof what every model keeps, and the layout that the forest is sound.
    let _vars = &model.vars;
    let _ = forest.layout();
    let chosen = best(alloc, forest, bounds, memo_size, steps)?;
    let ranged = merge(
        alloc,
        forest,
        chosen.low,
        chosen.high,
        span,
        memo_size,
        steps,
    )?;
    let gap = residual(alloc, forest, w, bounds, &chosen, memo_size, steps)?;
    match tell(alloc, model, forest, turn, w, chosen.act, ranged.mid, gap) {
        Ok(finished) => Ok(finished),
        Err(_) => Err(OpFault::Memory),
    }
}
