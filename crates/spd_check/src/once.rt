//! An operation that is carried out once.

ghost use Rattle.std.specs.Prelude.{◌≡◌, ◌<◌, true};
ghost use Rattle.spd_nodes.specs.Shown.{Shown, IsWhole, MakesDiagram, meaning};
ghost use Rattle.spd_apply.specs.Outcome.{at_each, FitEverywhere};

use spd_apply::{LeafOp, OpFault, apply};
use spd_memo::Memo;
use spd_nodes::{Forest, Ref, Steps};
use std::alloc::Global;
use std::sync::ledger::Ledger;

/// An operation on the leaves of two diagrams, with a memo of its own.
pub(crate) fn apply_once<F: Forest, O: LeafOp, L: Ledger>(
    alloc: Global,
    forest: &mut F,
    op: &O,
    f: Ref,
    g: Ref,
    memo_size: usize,
    steps: &mut Steps<L>,
) -> Result<Ref, OpFault>
    requires left { (F.shows forest.old).knows f ≡ true }
    requires right { (F.shows forest.old).knows g ≡ true }
    requires left_whole { IsWhole (F.shows forest.old) f }
    requires right_whole { IsWhole (F.shows forest.old) g }
    requires fit { FitEverywhere (O.fits op.now) (F.shows forest.old) f g }
    requires memo_size { 0 < memo_size }
    ensures made { MakesDiagram (F.shows forest.old) (F.shows forest.new) (at_each (O.of op.now) (meaning (F.shows forest.old) f) (meaning (F.shows forest.old) g)) result }
    ensures keeps { F.kept forest.new ≡ F.kept forest.old }
{
    let _ = forest.layout();
    match Memo::new(alloc, memo_size) {
        Ok(mut memo) => apply(forest, op, f, g, &mut memo, steps),
        Err(_) => Err(OpFault::Memory),
    }
}
