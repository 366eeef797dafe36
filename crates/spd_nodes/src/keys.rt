//! Keys in order, each with its place.

ghost use Rattle.std.specs.Prelude.{◌≡◌, ℕ, ◌<◌, List, [], length, slice_index_or, IfOk, OnErr, MatchOption};
ghost use Rattle.spd_nodes.specs.Keys.{IsPlace, IsAbsent, PlacesKey};

use indexmap::IndexSet;
use spd_cons_core::Key;
use std::alloc::{AllocError, Global};
use std::marker::Model;

/// Keys in the order in which they came, each once, with a map from each to its place. Contracts see the list.
#[derive(Drop)]
pub struct Keys {
    set: IndexSet<Key>,
}

impl Model for Keys {
    ghost use Rattle.std.specs.Prelude.{List};
    ghost use Rattle.spd_cons_core.specs.declared.key.Key.{Key};

    ghost Value = { List Key };

    ghost view = { λ k. k.set.keys };
}

impl Keys {
    pub fn new(alloc: Global) -> Keys
        ensures { result ≡ [] }
    {
        Keys {
            set: IndexSet::new(alloc),
        }
    }

    pub fn len(&self) -> usize
        ensures { result ≡ length self.now }
    {
        self.set.len()
    }

    /// The key at a place.
    pub fn at(&self, place: usize) -> Key
        requires { place < length self.now }
        ensures { IsPlace self.now result place }
    {
        self.set.as_slice()[place]
    }

    /// Where a key stands.
    pub fn find(&self, key: Key) -> Option<usize>
        ensures { MatchOption result (IsAbsent self.now key) (IsPlace self.now key) }
    {
        self.set.get_index_of(&key)
    }

    /// Where a key stands, which is put in the last place where it is new.
    pub fn find_or_add(&mut self, key: Key) -> Result<usize, AllocError>
        ensures ok { IfOk result (λ place. PlacesKey self.old self.new key place) }
        ensures err { OnErr result (self.new ≡ self.old) }
        ensures absent { OnErr result (IsAbsent self.old key) }
    {
        match self.set.insert_full(key) {
            Ok((place, _)) => Ok(place),
            Err(_) => Err(AllocError),
        }
    }
}
