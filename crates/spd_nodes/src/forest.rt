//! The trait of stores of reduced test trees, each of them once.

ghost use Rattle.std.specs.Prelude.{◌≡◌, ℕ, ◌+◌, ◌<◌, [], ◌∷◌, IfOk, IfErr, true};
ghost use Rattle.spd_nodes.specs.Levels.{levels_of, slots};
ghost use Rattle.spd_nodes.specs.Trees.{Ends, join, CanTest};
ghost use Rattle.spd_nodes.specs.Shown.{Shown, IsSound, Grows, MakesOnly, KnowsAs, IsViewOf, IsWhole, Faults, meaning, test_steps};
ghost use Rattle.spd_nodes.specs.States.{test_tree};

use crate::layout::{Layout, Level};
use crate::leaf::Leaf;
use spd_cons_core::{Entry, Steps};
use std::sync::ledger::Ledger;

/// The name of a test tree in a forest.
pub type Ref = Entry;

/// The root of a test tree.
#[derive(Clone, Copy, Debug, PartialEq, Eq)]
pub enum View {
    /// The whole tree is this leaf.
    Leaf(Leaf),
    /// A test, with the tree where it holds and the tree where it doesn't.
    Test { level: Level, yes: Ref, no: Ref },
}

/// Why a forest gave no Ref.
#[derive(Clone, Copy, Debug, PartialEq, Eq, Drop)]
pub enum StoreFault {
    /// The forest is full, and the node isn't known to it.
    Full,
    /// There was no memory.
    Memory,
}

/// A store of reduced test trees, each of them once. Each call leaves what `shows` and `kept` say of it.
pub trait Forest {
    /// What no call changes besides the layout, as a limit or a table.
    type Kept;

    ghost shows: { Self → Shown };

    ghost kept: { Self → Self.Kept };

    /// The variables of the functions that its trees stand for.
    fn layout(&self) -> &Layout
        ensures sound { IsSound (shows self.now) }
        ensures sizes { result.now ≡ (shows self.now).sizes };

    /// The Ref of a leaf, which is made where it isn't known. It counts one step.
    fn leaf<L: Ledger>(&mut self, leaf: Leaf, steps: &mut Steps<L>) -> Result<Ref, StoreFault>
        ensures sound { IsSound (shows self.new) }
        ensures grows { Grows (shows self.old) (shows self.new) }
        ensures keeps { kept self.new ≡ kept self.old }
        ensures ok { IfOk result (λ r. KnowsAs (shows self.new) r (Ends leaf)) }
        ensures makes { MakesOnly (shows self.old) (shows self.new) (Ends leaf ∷ []) }
        ensures fault { IfErr result (λ e. Faults e (shows self.new) (Ends leaf ∷ [])) }
        ensures cost { steps.new ≡ steps.old + 1 };

    /// The Ref of the test of `level` with these children, which is made where it isn't known, in one step. Where both
    /// children are equal it is `no`, without a step. The children are whole and past the level's variable and kind, but
    /// `no` may be that one's next test.
    fn test<L: Ledger>(
        &mut self,
        level: Level,
        yes: Ref,
        no: Ref,
        steps: &mut Steps<L>,
    ) -> Result<Ref, StoreFault>
        requires level { level.0 < levels_of (slots (shows self.old).sizes) }
        requires yes { (shows self.old).knows yes ≡ true }
        requires no { (shows self.old).knows no ≡ true }
        requires fits { CanTest (slots (shows self.old).sizes) level.0 ((shows self.old).tree yes) ((shows self.old).tree no) }

        ensures sound { IsSound (shows self.new) }
        ensures grows { Grows (shows self.old) (shows self.new) }
        ensures keeps { kept self.new ≡ kept self.old }
        ensures ok { IfOk result (λ r. KnowsAs (shows self.new) r (join level.0 ((shows self.old).tree yes) ((shows self.old).tree no))) }
        ensures makes { MakesOnly (shows self.old) (shows self.new) (join level.0 ((shows self.old).tree yes) ((shows self.old).tree no) ∷ []) }
        ensures fault { IfErr result (λ e. Faults e (shows self.new) (join level.0 ((shows self.old).tree yes) ((shows self.old).tree no) ∷ [])) }
        ensures cost { steps.new ≡ steps.old + test_steps yes no };

    /// The root of a known Ref's tree, with the Refs of its children, which are known.
    fn view(&mut self, r: Ref) -> View
        requires known { (shows self.old).knows r ≡ true }
        ensures sound { IsSound (shows self.new) }
        ensures same { shows self.new ≡ shows self.old }
        ensures keeps { kept self.new ≡ kept self.old }
        ensures view { IsViewOf (shows self.old) r result }
        // The tree whose root this is is the test tree of the Ref's function.
        ensures tree { IsWhole (shows self.old) r → (shows self.old).tree r ≡ test_tree (shows self.old).sizes (meaning (shows self.old) r) };
}
