//! The gaps between a value and the best bounds, as diagrams.

ghost use Rattle.std.specs.Prelude.{◌≡◌, ◌-ℤ◌, ◌<◌, true};
ghost use Rattle.std.specs.Int.{int_max};
ghost use Rattle.spd_nodes.specs.Shown.{Shown, IsWhole, MakesDiagram, meaning};
ghost use Rattle.spd_apply.specs.Operations.{num_of};
ghost use Rattle.spd_apply.specs.Outcome.{at_each, FitEverywhere};
ghost use Rattle.spd_residual.specs.Residual.{Gaps, IsValued};
ghost use Rattle.spd_residual.specs.inner.Finding.{HaveGaps, MakesGaps};

use spd_apply::{LeafOp, Max, OpFault, Sub, apply};
use spd_memo::Memo;
use spd_nodes::{Forest, Ref, Steps};
use spd_policy::Best;
use std::alloc::Global;
use std::sync::ledger::Ledger;

/// The gaps of a value at each state, in units of 10^-9.
#[derive(Clone, Copy, Debug)]
pub(crate) struct GapDiagrams {
    /// How far the greatest upper bound lies above the value.
    pub above: Ref,
    /// How far the greatest lower bound lies below it.
    pub below: Ref,
    /// The greater of the two.
    pub greater: Ref,
}

/// An operation on the leaves of two diagrams, with a memo of its own.
fn apply_once<F: Forest, O: LeafOp, L: Ledger>(
    alloc: Global,
    forest: &mut F,
    op: &O,
    f: Ref,
    g: Ref,
    memo_size: usize,
    steps: &mut Steps<L>,
) -> Result<Ref, OpFault>
    requires left { (F.shows forest.old).knows f ≡ true }
    requires right { (F.shows forest.old).knows g ≡ true }
    requires left_whole { IsWhole (F.shows forest.old) f }
    requires right_whole { IsWhole (F.shows forest.old) g }
    requires fit { FitEverywhere (O.fits op.now) (F.shows forest.old) f g }
    requires memo_size { 0 < memo_size }
    ensures made { MakesDiagram (F.shows forest.old) (F.shows forest.new) (at_each (O.of op.now) (meaning (F.shows forest.old) f) (meaning (F.shows forest.old) g)) result }
    ensures keeps { F.kept forest.new ≡ F.kept forest.old }
{
    let _ = forest.layout();
    match Memo::new(alloc, memo_size) {
        Ok(mut memo) => apply(forest, op, f, g, &mut memo, steps),
        Err(_) => Err(OpFault::Memory),
    }
}

/// The gaps of a value between the greatest lower and the greatest upper bound.
pub(crate) fn gaps_of<F: Forest, L: Ledger>(
    alloc: Global,
    forest: &mut F,
    w: Ref,
    best: &Best,
    memo_size: usize,
    steps: &mut Steps<L>,
) -> Result<GapDiagrams, OpFault>
    requires value { IsValued (F.shows forest.old) w }
    requires low { IsValued (F.shows forest.old) best.now.low }
    requires high { IsValued (F.shows forest.old) best.now.high }
    requires memo_size { 0 < memo_size }
    ensures made { (g : Gaps) → HaveGaps g (F.shows forest.old) w best.now → MakesGaps g (F.shows forest.old) (F.shows forest.new) result }
    ensures keeps { F.kept forest.new ≡ F.kept forest.old }
{
    let _ = forest.layout();
    let above = apply_once(alloc, forest, &Sub, best.high, w, memo_size, steps)?;
    let below = apply_once(alloc, forest, &Sub, w, best.low, memo_size, steps)?;
    let greater = apply_once(alloc, forest, &Max, above, below, memo_size, steps)?;
    Ok(GapDiagrams {
        above,
        below,
        greater,
    })
}
