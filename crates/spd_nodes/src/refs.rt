//! Refs in order, each once.

ghost use Rattle.std.specs.Prelude.{◌≡◌, ℕ, ◌<◌, ◌↔◌, List, [], length, slice_get, Some, IsTrue, OnOk, OnErr, Contains};
ghost use Rattle.spd_nodes.specs.Refs.{AddsRef};

use crate::forest::Ref;
use indexmap::IndexSet;
use std::alloc::{AllocError, Global};
use std::marker::Model;

/// Refs in the order in which they came, each once. Contracts see the list.
#[derive(Drop)]
pub struct Refs {
    set: IndexSet<Ref>,
}

impl Model for Refs {
    ghost use Rattle.std.specs.Prelude.{List};
    ghost use Rattle.spd_cons_core.specs.declared.key.Entry.{Entry};

    ghost Value = { List Entry };

    ghost view = { λ k. k.set.keys };
}

impl Refs {
    /// No Refs.
    pub fn new(alloc: Global) -> Refs
        ensures { result ≡ [] }
    {
        Refs {
            set: IndexSet::new(alloc),
        }
    }

    /// How many there are.
    pub fn len(&self) -> usize
        ensures { result ≡ length self.now }
    {
        self.set.len()
    }

    /// Whether there are none.
    pub fn is_empty(&self) -> bool
        ensures { IsTrue result ↔ (self.now ≡ []) }
    {
        self.set.is_empty()
    }

    /// All of them, in order.
    pub fn as_slice(&self) -> &[Ref]
        ensures { result.now ≡ self.now }
    {
        self.set.as_slice()
    }

    /// Whether a Ref is among them.
    pub fn contains(&self, r: Ref) -> bool
        ensures { IsTrue result ↔ Contains self.now r }
    {
        self.set.contains(&r)
    }

    /// Puts a Ref in the last place, if it isn't among them. It fails only where it isn't, for want of memory.
    pub fn add(&mut self, r: Ref) -> Result<(), AllocError>
        ensures ok { OnOk result (AddsRef self.old self.new r) }
        ensures err { OnErr result (self.new ≡ self.old) }
        ensures absent { OnErr result (¬ Contains self.old r) }
    {
        match self.set.insert(r) {
            Ok(_) => Ok(()),
            Err(_) => Err(AllocError),
        }
    }
}
