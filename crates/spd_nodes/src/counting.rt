//! A forest that counts the calls of another one.

ghost use Rattle.std.specs.Prelude.{◌≡◌, ℕ, ◌+◌, ◌%◌, ◌^◌, ◌<◌, [], ◌∷◌, IfOk, IfErr, true};
ghost use Rattle.spd_nodes.specs.Levels.{levels_of, slots};
ghost use Rattle.spd_nodes.specs.Trees.{Ends, join, CanTest};
ghost use Rattle.spd_nodes.specs.Shown.{Shown, IsSound, Grows, MakesOnly, KnowsAs, IsViewOf, IsWhole, Faults, meaning, test_steps};
ghost use Rattle.spd_nodes.specs.States.{test_tree};

use crate::forest::{Forest, Ref, StoreFault, View};
use crate::layout::{Layout, Level};
use crate::leaf::Leaf;
use spd_cons_core::Steps;
use std::sync::ledger::Ledger;

/// A forest that counts the find-or-make calls of another one while it runs. It shows what that one shows.
#[derive(Drop)]
pub struct Counting<F> {
    /// The forest whose calls are counted.
    pub forest: F,
    /// How many calls of `leaf` and `test` there were, modulo 2^64.
    pub calls: u64,
}

impl<F: Forest> Forest for Counting<F> {
    type Kept = F::Kept;

    ghost shows = { λ c. F.shows c.forest };

    ghost kept = { λ c. F.kept c.forest };

    fn layout(&self) -> &Layout {
        self.forest.layout()
    }

    fn leaf<L: Ledger>(&mut self, leaf: Leaf, steps: &mut Steps<L>) -> Result<Ref, StoreFault>
        ensures sound { IsSound (F.shows self.new.forest) }
        ensures grows { Grows (F.shows self.old.forest) (F.shows self.new.forest) }
        ensures keeps { F.kept self.new.forest ≡ F.kept self.old.forest }
        ensures ok { IfOk result (λ r. KnowsAs (F.shows self.new.forest) r (Ends leaf)) }
        ensures makes { MakesOnly (F.shows self.old.forest) (F.shows self.new.forest) (Ends leaf ∷ []) }
        ensures fault { IfErr result (λ e. Faults e (F.shows self.new.forest) (Ends leaf ∷ [])) }
        ensures cost { steps.new ≡ steps.old + 1 }
        ensures calls { self.new.calls ≡ (self.old.calls + 1) % 2 ^ 64 }
    {
        self.calls = self.calls.wrapping_add(1);
        self.forest.leaf(leaf, steps)
    }

    fn test<L: Ledger>(
        &mut self,
        level: Level,
        yes: Ref,
        no: Ref,
        steps: &mut Steps<L>,
    ) -> Result<Ref, StoreFault>
        requires level { level.0 < levels_of (slots (F.shows self.old.forest).sizes) }
        requires yes { (F.shows self.old.forest).knows yes ≡ true }
        requires no { (F.shows self.old.forest).knows no ≡ true }
        requires fits { CanTest (slots (F.shows self.old.forest).sizes) level.0 ((F.shows self.old.forest).tree yes) ((F.shows self.old.forest).tree no) }

        ensures sound { IsSound (F.shows self.new.forest) }
        ensures grows { Grows (F.shows self.old.forest) (F.shows self.new.forest) }
        ensures keeps { F.kept self.new.forest ≡ F.kept self.old.forest }
        ensures ok { IfOk result (λ r. KnowsAs (F.shows self.new.forest) r (join level.0 ((F.shows self.old.forest).tree yes) ((F.shows self.old.forest).tree no))) }
        ensures makes { MakesOnly (F.shows self.old.forest) (F.shows self.new.forest) (join level.0 ((F.shows self.old.forest).tree yes) ((F.shows self.old.forest).tree no) ∷ []) }
        ensures fault { IfErr result (λ e. Faults e (F.shows self.new.forest) (join level.0 ((F.shows self.old.forest).tree yes) ((F.shows self.old.forest).tree no) ∷ [])) }
        ensures cost { steps.new ≡ steps.old + test_steps yes no }
        ensures calls { self.new.calls ≡ (self.old.calls + test_steps yes no) % 2 ^ 64 }
    {
        let calls = if yes.0 == no.0 { 0 } else { 1 };
        self.calls = self.calls.wrapping_add(calls);
        self.forest.test(level, yes, no, steps)
    }

    fn view(&mut self, r: Ref) -> View
        requires known { (F.shows self.old.forest).knows r ≡ true }
        ensures sound { IsSound (F.shows self.new.forest) }
        ensures same { F.shows self.new.forest ≡ F.shows self.old.forest }
        ensures keeps { F.kept self.new.forest ≡ F.kept self.old.forest }
        ensures view { IsViewOf (F.shows self.old.forest) r result }
        ensures tree { IsWhole (F.shows self.old.forest) r → (F.shows self.old.forest).tree r ≡ test_tree (F.shows self.old.forest).sizes (meaning (F.shows self.old.forest) r) }
        ensures calls { self.new.calls ≡ self.old.calls }
    {
        self.forest.view(r)
    }
}
