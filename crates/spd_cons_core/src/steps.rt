//! The machine after an event.
ghost use Rattle.std.specs.Prelude.{◌≡◌, ℕ, ◌+◌, ◌^◌, ◌<◌, ◌≤◌, ◌↔◌, IfOk, OnOk, IfSome, IsSome, IsTrue, length, ◌==◌, if◌then◌else◌, slice_index};
ghost use Rattle.spd_cons_core.specs.Spelling.{IsKey};
ghost use Rattle.spd_cons_core.specs.Seats.{seat_at, with_seat, spent, bucket, bucket_count, entry_words};
ghost use Rattle.spd_cons_core.specs.Events.{can_load_bucket, call_for, load_bucket, claim, store_content, exchange_bucket, load_content, split, after_join, join, step, run};
ghost use Rattle.spd_cons_core.specs.Invariants.{IsSized, IsSoundMachine, Keeps};

use crate::Memory;
use crate::event::Event;
use crate::key::{Entry, Key};
use crate::mind::{Call, Mind};
use crate::spelling::{start_bucket, words_of};
use crate::table::Core;
use std::alloc::Global;

/// What an exchange leaves in a bucket where it found this number: only an empty one takes the entry.
fn exchanged(found: u64, spare: Entry) -> u64
    ensures { result ≡ (if found == 0 then spare.0 + 1 else found) }
{
    if found == 0 {
        u64::from(spare.0) + 1
    } else {
        found
    }
}

impl Core {
    /// The power of two that the number of buckets is.
    fn bucket_bits(&self) -> u32
        requires { IsSized self.now }
        ensures bits { bucket_count self.now ≡ 2 ^ result }
        ensures low { 1 ≤ result }
        ensures high { result ≤ 63 }
    {
        self.buckets.len().ilog2()
    }

    /// The seat of this number, if there is one.
    fn seat(&self, seat: usize) -> Option<&Mind>
        ensures seat { IfSome result (λ mind. mind.now ≡ seat_at self.now seat) }
        ensures within { IsSome result ↔ (seat < length self.now.seats) }
    {
        self.seats.get(seat)
    }

    /// What stands in a bucket.
    fn load(&self, at: u64) -> u64
        requires sized { IsSized self.now }
        requires sound { IsSoundMachine self.now }
        requires within { at < bucket_count self.now }
        ensures value { result ≡ bucket self.now at }
        ensures small { result ≤ 2 ^ 32 }
    {
        self.buckets[at as usize]
    }

    /// A word of an entry.
    fn load_word(&self, entry: Entry, word: u8) -> u64
        requires sized { IsSized self.now }
        requires within { entry.0 < length self.now.entries }
        requires five { word < 5 }
        ensures { result ≡ slice_index (entry_words self.now entry.0) word }
    {
        let words = self.entries[entry.0 as usize];
        words.0[word as usize]
    }

    fn bucket_count(&self) -> u64
        ensures { result ≡ bucket_count self.now }
    {
        self.buckets.len() as u64
    }

    /// Takes a seat out, which leaves a spent one.
    fn end_seat(&mut self, alloc: Global, seat: usize) -> Mind
        requires { seat < length self.old.seats }
        ensures seat { result ≡ seat_at self.old seat }
        ensures left { self.new ≡ with_seat self.old seat spent }
    {
        std::mem::replace(&mut self.seats[seat], Mind::spent(alloc))
    }

    /// Lets a seat take over all that another one has.
    fn take_over(&mut self, seat: usize, other: Mind) -> Result<(), Memory>
        requires within { seat < length self.old.seats }
        requires unpublished { (seat_at self.old seat).unpublished + other.unpublished < 2 ^ 32 }
        requires stands { (seat_at self.old seat).stands + other.stands < 2 ^ 32 }
        requires splits { (seat_at self.old seat).splits + other.splits < 2 ^ 32 }
        ensures { OnOk result (self.new ≡ with_seat self.old seat (after_join (seat_at self.old seat) other)) }
    {
        self.seats[seat].take_over(other)?;
        Ok(())
    }

    /// The call that a seat is in, or else a new one for the key, at the start of its search.
    fn call_for(&self, mind: &Mind, key: Key) -> Call
        requires { IsSized self.now }
        ensures call { result ≡ call_for (bucket_count self.now) key mind.now }
        ensures in_range { IsKey key }
    {
        mind.call.unwrap_or(Call {
            key,
            at: start_bucket(&key, self.bucket_bits()),
            found: None,
            right: 0,
            empty: false,
            stored: 0,
        })
    }

    /// The seat's call goes on, or begins, by a look into its bucket.
    pub(crate) fn load_bucket(&mut self, seat: usize, key: Key)
        requires sized { IsSized self.old }
        requires sound { IsSoundMachine self.old }
        ensures exact { self.new ≡ load_bucket self.old seat key }
        ensures in_range { IsTrue (can_load_bucket key (seat_at self.old seat)) → IsKey key }
    {
        let Some(mind) = self.seat(seat) else {
            return;
        };
        if !mind.can_load_bucket(&key) {
            return;
        }
        let call = self.call_for(mind, key);
        let loaded = self.load(call.at);
        self.seats[seat].see_bucket(call, loaded);
    }

    /// The seat takes what the claim number was.
    pub(crate) fn claim(&mut self, seat: usize)
        requires sized { IsSized self.old }
        requires sound { IsSoundMachine self.old }
        ensures { self.new ≡ claim self.old seat }
    {
        let Some(mind) = self.seat(seat) else {
            return;
        };
        if !mind.can_claim() {
            return;
        }
        let old = self.claims;
        self.claims += 1;
        let end = u64::from(self.limit + self.most);
        self.seats[seat].see_claim(end, old);
    }

    /// The seat stores a word of its call's key in its spare.
    pub(crate) fn store_content(&mut self, seat: usize, word: u8)
        requires sized { IsSized self.old }
        requires sound { IsSoundMachine self.old }
        ensures { self.new ≡ store_content self.old seat word }
    {
        let Some(mind) = self.seat(seat) else {
            return;
        };
        let (Some(call), Some(spare)) = (mind.call, mind.spare) else {
            return;
        };
        if !mind.can_store(word, &call) {
            return;
        }
        let words = &mut self.entries[spare.0 as usize];
        words.0[word as usize] = words_of(&call.key).0[word as usize];
        let mind = &mut self.seats[seat];
        mind.call = Some(Call {
            stored: call.stored + 1,
            ..call
        });
    }

    /// The seat puts its spare into the bucket of its call, if that is empty.
    #[tactic(auto, using(crate::proofs::Taken::exchange_taken))]
    pub(crate) fn exchange_bucket(&mut self, seat: usize) -> Result<(), Memory>
        requires sized { IsSized self.old }
        requires sound { IsSoundMachine self.old }
        ensures { OnOk result (self.new ≡ exchange_bucket self.old seat) }
    {
        let Some(mind) = self.seat(seat) else {
            return Ok(());
        };
        let (Some(call), Some(spare)) = (mind.call, mind.spare) else {
            return Ok(());
        };
        if !mind.can_exchange(&call) {
            return Ok(());
        }
        let found = self.load(call.at);
        self.buckets[call.at as usize] = exchanged(found, spare);
        self.seats[seat].see_exchange(call, spare, found)?;
        Ok(())
    }

    /// The seat compares a word of the entry that its call has found.
    #[tactic(auto, using(crate::proofs::Taken::content_taken))]
    pub(crate) fn load_content(&mut self, seat: usize, entry: Entry, word: u8) -> Result<(), Memory>
        requires sized { IsSized self.old }
        requires sound { IsSoundMachine self.old }
        ensures { OnOk result (self.new ≡ load_content self.old seat entry word) }
    {
        let Some(mind) = self.seat(seat) else {
            return Ok(());
        };
        let Some(call) = mind.call else {
            return Ok(());
        };
        if !mind.can_compare(entry, word, &call) {
            return Ok(());
        }
        let loaded = self.load_word(entry, word);
        let count = self.bucket_count();
        self.seats[seat].see_content(count, entry, call, loaded)?;
        Ok(())
    }

    /// A new seat is added behind the others.
    pub(crate) fn split(&mut self, alloc: Global, seat: usize) -> Result<(), Memory>
        requires sized { IsSized self.old }
        requires sound { IsSoundMachine self.old }
        ensures { OnOk result (self.new ≡ split self.old seat) }
    {
        let Some(mind) = self.seats.get_mut(seat) else {
            return Ok(());
        };
        if !mind.can_split() {
            return Ok(());
        }
        let new = mind.split_off(alloc)?;
        self.seats.push(new)?;
        Ok(())
    }

    /// The first seat takes the other one over.
    pub(crate) fn join(&mut self, alloc: Global, seat: usize, other: usize) -> Result<(), Memory>
        requires sized { IsSized self.old }
        requires sound { IsSoundMachine self.old }
        ensures { OnOk result (self.new ≡ join self.old seat other) }
    {
        let (Some(first), Some(second)) = (self.seat(seat), self.seat(other)) else {
            return Ok(());
        };
        if seat == other || !first.can_join(second) {
            return Ok(());
        }
        let ended = self.end_seat(alloc, other);
        self.take_over(seat, ended)
    }
}

/// The machine after an event. An event that its seat can't take changes nothing. The machine is
/// one that `Core::new` made, after any events.
pub fn step(alloc: Global, core: Core, event: Event) -> Result<Core, Memory>
    requires sized { IsSized core }
    requires sound { IsSoundMachine core }
    ensures exact { IfOk result (λ after. after ≡ step core event) }
    ensures keeps { IfOk result (λ after. Keeps core after) }
{
    let mut core = core;
    match event {
        Event::LoadBucket { seat, key } => core.load_bucket(seat as usize, key),
        Event::Claim { seat } => core.claim(seat as usize),
        Event::StoreContent { seat, word } => core.store_content(seat as usize, word),
        Event::ExchangeBucket { seat } => core.exchange_bucket(seat as usize)?,
        Event::LoadContent { seat, entry, word } => core.load_content(seat as usize, entry, word)?,
        Event::Split { seat } => core.split(alloc, seat as usize)?,
        Event::Join { seat, other } => core.join(alloc, seat as usize, other as usize)?,
    }
    Ok(core)
}

/// The machine after a list of events, the first one first.
pub fn run(alloc: Global, core: Core, events: &[Event]) -> Result<Core, Memory>
    requires sized { IsSized core }
    requires sound { IsSoundMachine core }
    ensures exact { IfOk result (λ after. after ≡ run core events.now) }
    ensures keeps { IfOk result (λ after. Keeps core after) }
{
    let mut core = core;
    for event in events {
        core = step(alloc, core, *event)?;
    }
    Ok(core)
}
