//! The forest for one thread.

ghost use Rattle.std.specs.Prelude.{◌≡◌, ℕ, ◌+◌, ◌<◌, ◌≤◌, ◌≢◌, ◌↔◌, [], ◌∷◌, IfOk, IfErr, OnErr, true, length};
ghost use Rattle.spd_nodes.specs.Keys.{IsAbsent};
ghost use Rattle.spd_nodes.specs.Levels.{levels_of, slots};
ghost use Rattle.spd_nodes.specs.Store.{shown, leaf_key, key_view, KeyFits, LeavesNoRoom, FindsOrAdds};
ghost use Rattle.spd_nodes.specs.Trees.{Ends, join, CanTest};
ghost use Rattle.spd_nodes.specs.Shown.{Shown, IsSound, Grows, MakesOnly, KnowsAs, IsViewOf, Faults, test_steps};

use crate::forest::{Forest, Ref, StoreFault, View};
use crate::keys::Keys;
use crate::layout::{Layout, Level};
use crate::leaf::Leaf;
use spd_cons_core::{Entry, Key, Steps};
use std::alloc::{AllocError, Global};
use std::marker::Model;
use std::sync::ledger::Ledger;

/// A forest for one thread: a list of keys with a map from each to its place. Contracts see each variable's number of
/// values, the keys in order of their entries, and how many there may be.
#[derive(Drop)]
pub struct Alone {
    layout: Layout,
    keys: Keys,
    limit: u32,
}

impl Model for Alone {
    ghost use Rattle.spd_nodes.specs.Store.{Held, IsStore};

    ghost Value = { Held };

    ghost view = { λ a. record { sizes = a.layout; keys = a.keys; limit = a.limit } };

    ghost invariant = { λ a. IsStore (record { sizes = a.layout; keys = a.keys; limit = a.limit }) };
}

impl Alone {
    /// A forest of at most `limit` entries, that has none yet.
    pub fn new(alloc: Global, layout: Layout, limit: u32) -> Result<Alone, AllocError>
        ensures ok { IfOk result (λ a. a ≡ record { sizes = layout; keys = []; limit = limit }) }
        ensures sound { IfOk result (λ a. IsSound (shown a)) }
    {
        let _ = layout.sizes();
        Ok(Alone {
            layout,
            keys: Keys::new(alloc),
            limit,
        })
    }

    /// The entry of a key, which is put in the last place where it is new.
    fn find_or_add(&mut self, key: Key) -> Result<Ref, StoreFault>
        requires fits { KeyFits self.old key }
        ensures { FindsOrAdds self.old self.new key result }
    {
        if self.keys.len() >= self.limit as usize {
            return match self.keys.find(key) {
                Some(place) => Ok(Entry(place as u32)),
                None => Err(StoreFault::Full),
            };
        }
        match self.keys.find_or_add(key) {
            Ok(place) => Ok(Entry(place as u32)),
            Err(_) => Err(StoreFault::Memory),
        }
    }
}

/// The key of a leaf.
pub(crate) fn key_of(leaf: Leaf) -> Key
    ensures { result ≡ leaf_key leaf }
{
    match leaf {
        Leaf::Num(a) => Key::Num(a),
        Leaf::Pair(a, b) => Key::Pair(a, b),
        Leaf::Act(a) => Key::Act(a),
    }
}

/// What a key is seen as.
pub(crate) fn view_of(key: Key) -> View
    ensures { result ≡ key_view key }
{
    match key {
        Key::Test { level, yes, no } => View::Test {
            level: Level(level),
            yes,
            no,
        },
        Key::Num(a) => View::Leaf(Leaf::Num(a)),
        Key::Pair(a, b) => View::Leaf(Leaf::Pair(a, b)),
        Key::Act(a) => View::Leaf(Leaf::Act(a)),
    }
}

impl Forest for Alone {
    type Kept = u32;

    ghost shows = { λ a. shown a };

    ghost kept = { λ a. a.limit };

    fn layout(&self) -> &Layout {
        &self.layout
    }

    /// It fails only where the leaf isn't among the entries, and then nothing changes. Full comes exactly where `limit` of
    /// them stand besides.
    fn leaf<L: Ledger>(&mut self, leaf: Leaf, steps: &mut Steps<L>) -> Result<Ref, StoreFault>
        ensures sound { IsSound (shown self.new) }
        ensures grows { Grows (shown self.old) (shown self.new) }
        ensures keeps { self.new.limit ≡ self.old.limit }
        ensures err { OnErr result (self.new ≡ self.old) }
        ensures ok { IfOk result (λ r. KnowsAs (shown self.new) r (Ends leaf)) }
        ensures makes { MakesOnly (shown self.old) (shown self.new) (Ends leaf ∷ []) }
        ensures fault { IfErr result (λ e. Faults e (shown self.new) (Ends leaf ∷ [])) }
        ensures cost { steps.new ≡ steps.old + 1 }
        ensures absent { OnErr result (IsAbsent self.old.keys (leaf_key leaf)) }
        ensures full { (result ≡ Err StoreFault.Full) ↔ LeavesNoRoom self.old (leaf_key leaf) }
    {
        steps.tick();
        self.find_or_add(key_of(leaf))
    }

    /// It fails only where the children differ and the test isn't among the entries, and then nothing changes. Full comes
    /// exactly where `limit` of them stand besides.
    fn test<L: Ledger>(
        &mut self,
        level: Level,
        yes: Ref,
        no: Ref,
        steps: &mut Steps<L>,
    ) -> Result<Ref, StoreFault>
        requires level { level.0 < levels_of (slots self.old.sizes) }
        requires yes { (shown self.old).knows yes ≡ true }
        requires no { (shown self.old).knows no ≡ true }
        requires fits { CanTest (slots self.old.sizes) level.0 ((shown self.old).tree yes) ((shown self.old).tree no) }

        ensures sound { IsSound (shown self.new) }
        ensures grows { Grows (shown self.old) (shown self.new) }
        ensures keeps { self.new.limit ≡ self.old.limit }
        ensures err { OnErr result (self.new ≡ self.old) }
        ensures ok { IfOk result (λ r. KnowsAs (shown self.new) r (join level.0 ((shown self.old).tree yes) ((shown self.old).tree no))) }
        ensures makes { MakesOnly (shown self.old) (shown self.new) (join level.0 ((shown self.old).tree yes) ((shown self.old).tree no) ∷ []) }
        ensures fault { IfErr result (λ e. Faults e (shown self.new) (join level.0 ((shown self.old).tree yes) ((shown self.old).tree no) ∷ [])) }
        ensures cost { steps.new ≡ steps.old + test_steps yes no }
        ensures absent { OnErr result ((yes ≢ no) × IsAbsent self.old.keys (Key.Test level.0 yes no)) }
        ensures full { (result ≡ Err StoreFault.Full) ↔ ((yes ≢ no) × LeavesNoRoom self.old (Key.Test level.0 yes no)) }
    {
        let _ = self.layout();
        if yes.0 == no.0 {
            return Ok(no);
        }
        steps.tick();
        self.find_or_add(Key::Test {
            level: level.0,
            yes,
            no,
        })
    }

    fn view(&mut self, r: Ref) -> View {
        view_of(self.keys.at(r.0 as usize))
    }
}
