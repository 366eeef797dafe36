//! How an operation on diagrams goes down from the roots of two of them.

ghost use Rattle.std.specs.Prelude.{◌≡◌, ℕ, ◌+◌, ◌≤◌, List, true};
ghost use Rattle.spd_nodes.specs.Trees.{Tree};
ghost use Rattle.spd_nodes.specs.Shown.{Shown, IsSound, MakesTree};
ghost use Rattle.spd_apply.specs.Rules.{IsNodeAt, IsPlan};

use spd_nodes::{Forest, Leaf, Level, Ref, Steps, StoreFault, View};
use std::sync::ledger::Ledger;

/// An operation fails as its forest does: it answers Full only where a call of the forest answered Full in this call.
pub type OpFault = StoreFault;

/// A diagram with its root, which was viewed.
#[derive(Clone, Copy)]
pub struct Node {
    pub name: Ref,
    pub root: View,
}

/// What an operation makes below a test.
#[derive(Clone, Copy)]
pub enum Below {
    /// This Ref, which is known.
    Known(Ref),
    /// What it makes of these two.
    Pair(Ref, Ref),
}

/// What an operation makes of two diagrams.
#[derive(Clone, Copy)]
pub enum Plan {
    /// This leaf.
    Leaf(Leaf),
    /// What it makes below.
    Below(Below),
    /// A test of what it makes below.
    Test { level: Level, yes: Below, no: Below },
    /// Several nodes at once: it goes no further, and makes them by calls of the forest alone.
    Bottom,
}

/// An operation that makes a diagram of two, by going down from their roots (Bryant, 1986). One that takes a single diagram
/// takes it twice.
pub trait Rule {
    /// What it makes of two trees.
    ghost making: { Self → Tree → Tree → Tree };

    /// Which trees it may meet, where the variables have these numbers of values.
    ghost may: { Self → List ℕ → Tree → Tree → Type 0 };

    /// How it goes on from two diagrams. It never answers `Bottom`.
    fn plan<F: Forest>(&self, forest: &F, f: Node, g: Node) -> Plan
        requires sound { IsSound (F.shows forest.now) }
        requires left { IsNodeAt (F.shows forest.now) f }
        requires right { IsNodeAt (F.shows forest.now) g }
        requires may { may self.now (F.shows forest.now).sizes ((F.shows forest.now).tree f.name) ((F.shows forest.now).tree g.name) }
        ensures plan { IsPlan (making self.now) (may self.now (F.shows forest.now).sizes) (λ _ _. ⊥) (F.shows forest.now) f.name g.name result };
}

/// A rule that ends at some diagrams in several nodes at once.
pub trait Descent {
    /// What it makes of two trees.
    ghost making: { Self → Tree → Tree → Tree };

    /// Which trees it may meet, where the variables have these numbers of values.
    ghost may: { Self → List ℕ → Tree → Tree → Type 0 };

    /// Of which trees it goes no further.
    ghost ends: { Self → List ℕ → Tree → Tree → Type 0 };

    /// How many find-or-make calls more than one it takes at most where it goes no further.
    ghost more_steps: { Self → ℕ };

    /// How it goes on from two diagrams.
    fn plan<F: Forest>(&self, forest: &F, f: Node, g: Node) -> Plan
        requires sound { IsSound (F.shows forest.now) }
        requires left { IsNodeAt (F.shows forest.now) f }
        requires right { IsNodeAt (F.shows forest.now) g }
        requires may { may self.now (F.shows forest.now).sizes ((F.shows forest.now).tree f.name) ((F.shows forest.now).tree g.name) }
        ensures plan { IsPlan (making self.now) (may self.now (F.shows forest.now).sizes) (ends self.now (F.shows forest.now).sizes) (F.shows forest.now) f.name g.name result };

    /// What it makes of two diagrams from which it goes no further.
    fn bottom<F: Forest, L: Ledger>(
        &self,
        forest: &mut F,
        f: Node,
        g: Node,
        steps: &mut Steps<L>,
    ) -> Result<Ref, OpFault>
        requires sound { IsSound (F.shows forest.old) }
        requires left { IsNodeAt (F.shows forest.old) f }
        requires right { IsNodeAt (F.shows forest.old) g }
        requires may { may self.now (F.shows forest.old).sizes ((F.shows forest.old).tree f.name) ((F.shows forest.old).tree g.name) }
        requires ends { ends self.now (F.shows forest.old).sizes ((F.shows forest.old).tree f.name) ((F.shows forest.old).tree g.name) }
        ensures made { MakesTree (F.shows forest.old) (F.shows forest.new) (making self.now ((F.shows forest.old).tree f.name) ((F.shows forest.old).tree g.name)) result }
        ensures keeps { F.kept forest.new ≡ F.kept forest.old }
        ensures cost { steps.new ≤ steps.old + (1 + more_steps self.now) };
}

/// A rule needs no bottom of its own. One that is asked for where what it makes is the first diagram answers that.
impl<R: Rule> Descent for R {
    ghost making = { λ r. R.making r };

    ghost may = { λ r sizes t u. R.may r sizes t u };

    ghost ends = { λ r _ t u. R.making r t u ≡ t };

    ghost more_steps = { λ _. 0 };

    fn plan<F: Forest>(&self, forest: &F, f: Node, g: Node) -> Plan {
        Rule::plan(self, forest, f, g)
    }

    fn bottom<F: Forest, L: Ledger>(
        &self,
        _forest: &mut F,
        f: Node,
        _g: Node,
        _steps: &mut Steps<L>,
    ) -> Result<Ref, OpFault> {
        Ok(f.name)
    }
}
