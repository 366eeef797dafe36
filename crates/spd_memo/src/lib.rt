//! Tables of the answers of one operation on diagrams, by their two operands.
//!
//! `spd_memo` has `Memo`, which keeps the answers of one operation by pairs of Refs, the most recently used first, over `lru`.
//! Its contracts say exactly which pairs stand in which order after a `get` and a `put`. It takes memory as it fills.
#![tactic(auto)]

ghost use Rattle.std.specs.Prelude.{◌≡◌, ℕ, ◌<◌, [], length, IfOk, OnOk, OnErr};
ghost use Rattle.spd_memo.specs.Kept.{KeptAnswers, IsKept, answer_in, promoted_in, put_in};

use lru::LruCache;
use spd_cons_core::Entry;
use std::alloc::{AllocError, Global};
use std::marker::Model;
use std::num::NonZeroUsize;

/// The answers of one operation for pairs of Refs, the most recently used first. It keeps at most `capacity` pairs, and
/// drops the one that was used least recently. Contracts see the pairs in this order, and the capacity.
#[derive(Drop)]
pub struct Memo {
    cache: LruCache<(Entry, Entry), Entry>,
}

impl Model for Memo {
    ghost use Rattle.spd_memo.specs.Kept.{KeptAnswers, IsKept};

    ghost Value = { KeptAnswers };

    ghost view = { λ m. record { pairs = m.cache.entries; capacity = m.cache.cap } };

    ghost invariant = { λ m. IsKept (record { pairs = m.cache.entries; capacity = m.cache.cap }) };
}

impl Memo {
    /// A memo that keeps no pair yet, and takes memory as it fills. It fails only for want of memory.
    pub fn new(alloc: Global, capacity: usize) -> Result<Memo, AllocError>
        requires { 0 < capacity }
        ensures { IfOk result (λ m. m ≡ record { pairs = []; capacity = capacity }) }
    {
        match NonZeroUsize::new(capacity) {
            Some(capacity) => Ok(Memo {
                cache: LruCache::sparse(alloc, capacity)?,
            }),
            None => unreachable!(),
        }
    }

    /// The answer that is kept for a pair, which then is the newest one. None comes exactly where the pair isn't kept.
    pub fn get(&mut self, f: Entry, g: Entry) -> Option<Entry>
        ensures answer { result ≡ answer_in self.old.pairs f g }
        ensures kept { self.new.pairs ≡ promoted_in self.old.pairs f g }
        ensures capacity { self.new.capacity ≡ self.old.capacity }
        ensures before { IsKept self.old }
        ensures distinct { IsKept self.new }
    {
        self.cache.get(&(f, g)).copied()
    }

    /// Keeps an answer for a pair, as the newest one. A pair that wasn't kept drops the oldest of `capacity` pairs. Where
    /// there is no memory, nothing changes.
    pub fn put(&mut self, f: Entry, g: Entry, r: Entry) -> Result<(), AllocError>
        ensures ok { OnOk result (self.new ≡ put_in self.old f g r) }
        ensures err { OnErr result (self.new ≡ self.old) }
        ensures distinct { IsKept self.new }
    {
        self.cache.put((f, g), r)?;
        Ok(())
    }

    /// How many pairs are kept.
    pub fn len(&self) -> usize
        ensures len { result ≡ length self.now.pairs }
        ensures distinct { IsKept self.now }
    {
        self.cache.len()
    }
}
