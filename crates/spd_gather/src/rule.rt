//! How an operation on several diagrams goes down from their roots.

ghost use Rattle.std.specs.Prelude.{◌≡◌, ℕ, List, IfOk, IfSome};
ghost use Rattle.spd_nodes.specs.Trees.{Tree};
ghost use Rattle.spd_nodes.specs.Shown.{Shown, IsSound, KnowsAs, MakesTree};
ghost use Rattle.spd_gather.specs.Lists.{IsListPlan, AreMet, trees_of};

use crate::pool::Pool;
use spd_apply::OpFault;
use spd_nodes::{Forest, Level, Ref, Steps};
use std::alloc::AllocError;
use std::sync::ledger::Ledger;

/// How an operation goes on from a list.
#[derive(Drop)]
pub enum ListPlan {
    /// It goes no further, and makes its answer by calls of the forest alone.
    Bottom,
    /// It makes what it makes of another list.
    Below(Vec<Ref>),
    /// A test of what it makes of two lists.
    Test {
        level: Level,
        yes: Vec<Ref>,
        no: Vec<Ref>,
    },
}

/// An operation that makes a diagram of several, by going down from their roots.
pub trait ListRule {
    /// What it makes of some trees.
    ghost making: { Self → List Tree → Tree };

    /// Which trees it may meet, where the variables have these numbers of values.
    ghost may: { Self → List ℕ → List Tree → Type 0 };

    /// Of which trees it goes no further.
    ghost ends: { Self → List ℕ → List Tree → Type 0 };

    /// What it makes of a list, where a known Ref is seen to be that before any table is asked.
    fn known<F: Forest>(&self, forest: &mut F, list: &[Ref]) -> Option<Ref>
        requires sound { IsSound (F.shows forest.old) }
        requires met { AreMet (may self.now (F.shows forest.old).sizes) (F.shows forest.old) list.now }
        ensures same { F.shows forest.new ≡ F.shows forest.old }
        ensures keeps { F.kept forest.new ≡ F.kept forest.old }
        ensures known { IfSome result (λ r. KnowsAs (F.shows forest.old) r (making self.now (trees_of (F.shows forest.old) list.now))) };

    /// How it goes on from a list, in vectors of a pool. It fails only for want of memory.
    fn plan<F: Forest>(
        &self,
        forest: &mut F,
        list: &[Ref],
        pool: &mut Pool,
    ) -> Result<ListPlan, AllocError>
        requires sound { IsSound (F.shows forest.old) }
        requires met { AreMet (may self.now (F.shows forest.old).sizes) (F.shows forest.old) list.now }
        ensures same { F.shows forest.new ≡ F.shows forest.old }
        ensures keeps { F.kept forest.new ≡ F.kept forest.old }
        ensures plan { IfOk result (λ p. IsListPlan (making self.now) (may self.now (F.shows forest.old).sizes) (ends self.now (F.shows forest.old).sizes) (F.shows forest.old) list.now p) };

    /// What it makes of a list from which it goes no further.
    fn bottom<F: Forest, L: Ledger>(
        &self,
        forest: &mut F,
        list: &[Ref],
        steps: &mut Steps<L>,
    ) -> Result<Ref, OpFault>
        requires sound { IsSound (F.shows forest.old) }
        requires met { AreMet (may self.now (F.shows forest.old).sizes) (F.shows forest.old) list.now }
        requires ends { ends self.now (F.shows forest.old).sizes (trees_of (F.shows forest.old) list.now) }
        ensures made { MakesTree (F.shows forest.old) (F.shows forest.new) (making self.now (trees_of (F.shows forest.old) list.now)) result }
        ensures keeps { F.kept forest.new ≡ F.kept forest.old };
}
