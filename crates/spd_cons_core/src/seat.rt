//! What a seat learns from each of its steps.
ghost use Rattle.std.specs.Prelude.{◌≡◌, ◌+◌, ◌^◌, ◌<◌, ◌≤◌, IfOk, OnOk, slice_index, ◌&&◌, is_none};
ghost use Rattle.std.specs.List.{fold};
ghost use Rattle.spd_cons_core.specs.Spelling.{words_of};
ghost use Rattle.spd_cons_core.specs.Seats.{entry, is_known, parts_known, learned};
ghost use Rattle.spd_cons_core.specs.Events.{can_load_bucket, after_bucket, can_claim, after_claim, can_store, can_exchange, can_compare, after_exchange, next_bucket, after_content, can_split, after_split, split_off, after_join};

use crate::Memory;
use crate::key::{Entry, Key};
use crate::mind::{Call, Known, Last, Mind};
use crate::spelling::words_of;
use std::alloc::Global;

impl Mind {
    /// Whether the seat knows an entry.
    pub(crate) fn knows_entry(&self, entry: Entry) -> bool
        ensures { result ≡ is_known self.now.knows entry }
    {
        self.knows.iter().any(|known| known.entry.0 == entry.0)
    }

    /// Whether the seat knows the entries in a key.
    pub(crate) fn knows_parts(&self, key: &Key) -> bool
        ensures { result ≡ parts_known self.now.knows key.now }
    {
        match *key {
            Key::Test { level: _, yes, no } => self.knows_entry(yes) && self.knows_entry(no),
            Key::Num(_) | Key::Pair(_, _) | Key::Act(_) => true,
        }
    }

    /// Whether the seat can load the bucket of its call for this key, or begin that call.
    pub(crate) fn can_load_bucket(&self, key: &Key) -> bool
        ensures { result ≡ can_load_bucket key.now self.now }
    {
        self.live
            && match self.call {
                Some(call) => call.key == *key && call.found.is_none() && !call.empty,
                None => self.knows_parts(key),
            }
    }

    /// Whether the seat can claim an entry.
    pub(crate) fn can_claim(&self) -> bool
        ensures { result ≡ can_claim self.now }
    {
        self.live && self.call.is_some_and(|call| call.empty) && self.spare.is_none() && !self.ended
    }

    /// Whether the seat, in this call, can store this word of the key in its spare.
    pub(crate) fn can_store(&self, word: u8, call: &Call) -> bool
        ensures { result ≡ can_store word call.now self.now }
    {
        self.live && call.empty && word == call.stored && word < 5
    }

    /// Whether the seat, in this call, can exchange the bucket.
    pub(crate) fn can_exchange(&self, call: &Call) -> bool
        ensures { result ≡ can_exchange call.now self.now }
    {
        self.live && call.empty && call.stored == 5
    }

    /// Whether the seat, in this call, can compare this word of this entry.
    pub(crate) fn can_compare(&self, entry: Entry, word: u8, call: &Call) -> bool
        ensures { result ≡ can_compare entry word call.now self.now }
    {
        self.live
            && call.found.is_some_and(|found| found.0 == entry.0)
            && word == call.right
            && word < 5
    }

    /// Whether two seats are live and in no call.
    pub(crate) fn can_join(&self, other: &Mind) -> bool
        ensures { result ≡ ((self.now.live && other.now.live) && (is_none self.now.call && is_none other.now.call)) }
    {
        self.live && other.live && self.call.is_none() && other.call.is_none()
    }

    /// Whether the seat can be split.
    pub(crate) fn can_split(&self) -> bool
        ensures { result ≡ can_split self.now }
    {
        self.live && self.call.is_none() && self.splits > 0
    }

    /// Learns an entry with its key, unless it knows that entry.
    fn learn(&mut self, known: Known) -> Result<(), Memory>
        ensures { OnOk result (self.new ≡ record self.old { knows = learned self.old.knows known }) }
    {
        if !self.knows_entry(known.entry) {
            self.knows.push(known)?;
        }
        Ok(())
    }

    /// Learns entries with their keys, the first one first.
    fn learn_all(&mut self, knowns: &[Known]) -> Result<(), Memory>
        ensures { OnOk result (self.new ≡ record self.old { knows = fold learned self.old.knows knowns.now }) }
    {
        for known in knowns {
            self.learn(*known)?;
        }
        Ok(())
    }

    /// Takes what the bucket of its call held.
    pub(crate) fn see_bucket(&mut self, call: Call, loaded: u64)
        requires { loaded ≤ 2 ^ 32 }
        ensures { self.new ≡ after_bucket call loaded self.old }
    {
        if loaded != 0 {
            let found = Some(Entry((loaded - 1) as u32));
            self.call = Some(Call { found, ..call });
        } else if self.spare.is_none() && self.ended {
            self.call = None;
            self.last = Last::Full;
        } else {
            self.call = Some(Call {
                empty: true,
                ..call
            });
        }
    }

    /// Takes what a claim found in the claim word. `end` is the number of entries.
    pub(crate) fn see_claim(&mut self, end: u64, claims: u64)
        requires end { end < 2 ^ 32 }
        requires fits { self.old.unpublished + 1 < 2 ^ 32 }
        ensures { self.new ≡ after_claim end claims self.old }
    {
        if claims < end {
            self.spare = Some(Entry(claims as u32));
            self.unpublished += 1;
        } else {
            self.ended = true;
            self.call = None;
            self.last = Last::Full;
        }
    }

    /// Takes what an exchange of the spare into the bucket of its call found there.
    pub(crate) fn see_exchange(
        &mut self,
        call: Call,
        spare: Entry,
        found: u64,
    ) -> Result<(), Memory>
        requires { found ≤ 2 ^ 32 }
        ensures { OnOk result (self.new ≡ after_exchange call spare found self.old) }
    {
        if found != 0 {
            let found = Some(Entry((found - 1) as u32));
            self.call = Some(Call {
                found,
                empty: false,
                ..call
            });
            return Ok(());
        }
        self.learn(Known {
            entry: spare,
            key: call.key,
        })?;
        self.published.push(spare)?;
        self.spare = None;
        self.unpublished = self.unpublished.saturating_sub(1);
        self.call = None;
        self.last = Last::Got(spare);
        Ok(())
    }

    /// Takes one word of the entry that its call has found. `count` is the number of buckets.
    pub(crate) fn see_content(
        &mut self,
        count: u64,
        entry: Entry,
        call: Call,
        loaded: u64,
    ) -> Result<(), Memory>
        requires right { call.right < 5 }
        requires at { call.at < count }
        ensures { OnOk result (self.new ≡ after_content count entry call loaded self.old) }
    {
        if loaded != words_of(&call.key).0[call.right as usize] {
            let at = if call.at + 1 < count { call.at + 1 } else { 0 };
            self.call = Some(Call {
                at,
                found: None,
                right: 0,
                ..call
            });
        } else if call.right + 1 == 5 {
            self.learn(Known {
                entry,
                key: call.key,
            })?;
            self.call = None;
            self.last = Last::Got(entry);
        } else {
            self.call = Some(Call {
                right: call.right + 1,
                ..call
            });
        }
        Ok(())
    }

    /// A new seat that knows what this one knows; this one has a split less.
    pub(crate) fn split_off(&mut self, alloc: Global) -> Result<Mind, Memory>
        ensures ok { IfOk result (λ seat. seat ≡ split_off self.old) }
        ensures left { OnOk result (self.new ≡ after_split self.old) }
    {
        let knows = self.knows.clone()?;
        self.splits = self.splits.saturating_sub(1);
        Ok(Mind {
            live: true,
            knows,
            stands: 1,
            ..Mind::spent(alloc)
        })
    }

    /// Takes over all that another seat has.
    pub(crate) fn take_over(&mut self, other: Mind) -> Result<(), Memory>
        requires unpublished { self.old.unpublished + other.unpublished < 2 ^ 32 }
        requires stands { self.old.stands + other.stands < 2 ^ 32 }
        requires splits { self.old.splits + other.splits < 2 ^ 32 }
        ensures { OnOk result (self.new ≡ after_join self.old other) }
    {
        self.learn_all(&other.knows)?;
        self.published.extend_from_slice(&other.published)?;
        self.spare = self.spare.or(other.spare);
        self.unpublished += other.unpublished;
        self.stands += other.stands;
        self.splits += other.splits;
        self.ended = self.ended || other.ended;
        Ok(())
    }
}
