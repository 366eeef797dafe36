//! An operation on leaves, carried out on two diagrams.

ghost use Rattle.std.specs.Prelude.{◌≡◌, ℕ, ◌+◌, ◌*◌, ◌≤◌, true};
ghost use Rattle.spd_nodes.specs.Refs.{node_count};
ghost use Rattle.spd_nodes.specs.Shown.{Shown, IsWhole, MakesDiagram, meaning};
ghost use Rattle.spd_apply.specs.Applied.{applied};
ghost use Rattle.spd_apply.specs.Outcome.{FitEverywhere, at_each};
ghost use Rattle.spd_apply.specs.Rules.{HoldsAnswers};

use crate::leaf_op::LeafOp;
use crate::make::make_pair;
use crate::pointwise::Pointwise;
use crate::rule::OpFault;
use spd_memo::Memo;
use spd_nodes::{Forest, Ref, Steps};
use std::sync::ledger::Ledger;

/// The diagram of an operation's answers at each state, for two diagrams whose leaves fit wherever they meet. The memo holds
/// only answers of this operation, for Refs that the forest knows.
///
/// It makes only nodes of its answer. Full comes only where a call of the forest answered Full in this call. Calls nest at
/// most three deep a level, and there are at most 512 levels. A memo that may keep as many pairs as there are nodes of the one
/// diagram times nodes of the other bounds the find-or-make calls: there are at most so many, whatever the memo kept before.
pub fn apply<F: Forest, O: LeafOp, L: Ledger>(
    forest: &mut F,
    op: &O,
    f: Ref,
    g: Ref,
    memo: &mut Memo,
    steps: &mut Steps<L>,
) -> Result<Ref, OpFault>
    requires left { (F.shows forest.old).knows f ≡ true }
    requires right { (F.shows forest.old).knows g ≡ true }
    requires left_whole { IsWhole (F.shows forest.old) f }
    requires right_whole { IsWhole (F.shows forest.old) g }
    requires fit { FitEverywhere (O.fits op.now) (F.shows forest.old) f g }
    requires memo { HoldsAnswers (applied (O.of op.now)) (F.shows forest.old) memo.old }

    ensures made { MakesDiagram (F.shows forest.old) (F.shows forest.new) (at_each (O.of op.now) (meaning (F.shows forest.old) f) (meaning (F.shows forest.old) g)) result }
    ensures keeps { F.kept forest.new ≡ F.kept forest.old }
    ensures memo { HoldsAnswers (applied (O.of op.now)) (F.shows forest.new) memo.new }
    ensures capacity { memo.new.capacity ≡ memo.old.capacity }
    ensures steps { node_count ((F.shows forest.old).tree f) * node_count ((F.shows forest.old).tree g) ≤ memo.old.capacity → steps.new ≤ steps.old + node_count ((F.shows forest.old).tree f) * node_count ((F.shows forest.old).tree g) }
{
    let _ = forest.layout();
    make_pair(forest, &Pointwise { op }, f, g, memo, steps)
}
