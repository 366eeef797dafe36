//! The calls of the table.
ghost use Rattle.std.specs.Prelude.{◌≡◌, ◌+◌, ◌<◌, ◌≤◌, ◌==◌, IsTrue, IfOk, IfErr, length};
ghost use Rattle.std.specs.List.{Contains};
ghost use Rattle.spd_cons_core.specs.Seats.{is_known, parts_known};
ghost use Rattle.spd_cons_core.specs.Events.{after_split, split_off};
ghost use Rattle.spd_cons_core.specs.Invariants.{shares};
ghost use Rattle.spd_cons.specs.Values.{first_seat, known, IsSeatOf, Keeps, Finds, Lacks, Joins, IsPublishedCount};

use crate::search::Search;
use crate::seat::{ActiveSeat, Seat};
use crate::view::Size;
use crate::words::WordTable;
use spd_cons_core::{Entry, Key, Memory, Steps, key_of, start_bucket, words_of};
use std::alloc::Global;
use std::marker::{Brand, Model};
use std::sync::ledger::Ledger;

/// No entry: the claims have ended and the seat has no spare, so that more than the table's limit are
/// published.
#[derive(Clone, Copy, Debug, PartialEq, Eq, Drop)]
pub struct Full;

/// The table of nodes that threads share, each with a seat of its own. No call waits for another thread:
/// each is a bounded number of atomic steps. Contracts see which table it is, and its numbers.
#[derive(Drop)]
pub struct Cons {
    words: WordTable,
}

impl Model for Cons {
    ghost use Rattle.spd_cons.specs.Values.{TableValue};

    ghost Value = { TableValue };

    ghost view = { λ c. record { id = c.words.table.shared.table_id; size = c.words.size } };
}

impl Cons {
    /// An empty table that can publish `limit` entries whatever its seats do, 16 to 8,388,608, and the first of
    /// its seats, of which `seats` may be made, 1 to 128.
    pub fn new(alloc: Global, limit: u32, seats: u32) -> Result<(Cons, Seat), Memory>
        requires limit_low { 16 ≤ limit }
        requires limit_high { limit ≤ 8388608 }
        requires seats_low { 1 ≤ seats }
        requires seats_high { seats ≤ 128 }
        ensures limit { IfOk result (λ r. r.0.size.limit ≡ limit) }
        ensures most { IfOk result (λ r. r.0.size.most ≡ seats) }
        ensures seat { IfOk result (λ r. r.1 ≡ first_seat r.0) }
    {
        let count = (2 * (limit + seats)).next_power_of_two();
        let size = Size {
            limit,
            most: seats,
            count: u64::from(count),
        };
        let (words, mut token) = WordTable::open(alloc, size, count.ilog2())?;
        words.look(&mut token);
        let active = ActiveSeat {
            token,
            spare: None,
            ended: false,
            published: 0,
            stands: 1,
            splits: seats - 1,
        };
        Ok((Cons { words }, Seat { active }))
    }

    /// The entry of a key, which is made where no seat has made it yet. The seat knows the entries in the key.
    /// It counts one step. Full comes only where the claims have ended and the seat has no spare.
    pub fn find_or_make<L: Ledger>(
        &self,
        seat: &mut Seat,
        key: Key,
        steps: &mut Steps<L>,
    ) -> Result<Entry, Full>
        requires own { seat.old.table ≡ self.now }
        requires parts { IsTrue (parts_known seat.old.mind.knows key) }
        ensures keeps { Keeps seat.old seat.new }
        ensures ok { IfOk result (λ e. Finds seat.old seat.new key e) }
        ensures full { IfErr result (λ _. Lacks seat.old seat.new key) }
        ensures before { IsSeatOf seat.old }
        ensures after { IsSeatOf seat.new }
        ensures cost { steps.new ≡ steps.old + 1 }
    {
        steps.tick();
        self.find(seat, key)
    }

    /// The same, where no step is counted.
    fn find(&self, seat: &mut Seat, key: Key) -> Result<Entry, Full>
        requires own { seat.old.table ≡ self.now }
        requires parts { IsTrue (parts_known seat.old.mind.knows key) }
        ensures keeps { Keeps seat.old seat.new }
        ensures ok { IfOk result (λ e. Finds seat.old seat.new key e) }
        ensures full { IfErr result (λ _. Lacks seat.old seat.new key) }
        ensures before { IsSeatOf seat.old }
        ensures after { IsSeatOf seat.new }
    {
        let mut search = Search {
            key,
            words: words_of(&key),
            at: start_bucket(&key, self.words.bits),
            stored: false,
        };
        match self.words.search_on::<Brand>(&mut seat.active, &mut search) {
            Some(e) => Ok(e),
            None => Err(Full),
        }
    }

    /// The key of an entry that the seat knows.
    pub fn read(&self, seat: &mut Seat, e: Entry) -> Key
        requires own { seat.old.table ≡ self.now }
        requires known { IsTrue (is_known seat.old.mind.knows e) }
        ensures same { seat.new ≡ seat.old }
        ensures key { Contains seat.old.mind.knows (known e result) }
        ensures sound { IsSeatOf seat.old }
    {
        key_of(&self.words.read_words(&mut seat.active.token, e))
    }

    /// A new seat that knows what this one knows, where this one has a split left. It has published nothing.
    pub fn split(&self, seat: &mut Seat) -> Seat
        requires own { seat.old.table ≡ self.now }
        requires splits { 0 < seat.old.mind.splits }
        ensures left { seat.new ≡ record seat.old { mind = after_split seat.old.mind } }
        ensures made { result ≡ record { table = seat.old.table; mind = split_off seat.old.mind } }
    {
        let token = self.words.split_token(&mut seat.active.token);
        // A new seat has published nothing, whatever the other one has.
        let published = 0;
        let active = ActiveSeat {
            token,
            spare: None,
            ended: false,
            published,
            stands: 1,
            splits: 0,
        };
        seat.active.splits -= 1;
        Seat { active }
    }

    /// Lets a seat take over all that another one has, which ends the other.
    pub fn join(&self, seat: &mut Seat, other: Seat)
        requires own { seat.old.table ≡ self.now }
        requires theirs { other.table ≡ self.now }
        ensures joins { Joins seat.old other seat.new }
        ensures before { IsSeatOf seat.old }
        ensures other { IsSeatOf other }
        ensures after { IsSeatOf seat.new }
    {
        let Seat { active: theirs } = other;
        self.words.join_token(&mut seat.active.token, theirs.token);
        self.words.look(&mut seat.active.token);
        seat.active.spare = seat.active.spare.or(theirs.spare);
        seat.active.ended = seat.active.ended | theirs.ended;
        seat.active.published += theirs.published;
        seat.active.stands += theirs.stands;
        seat.active.splits += theirs.splits;
    }

    /// Whether a seat is all seats of the table: those that it stands for and its splits left are as many as may
    /// be made.
    pub fn is_whole(&self, seat: &Seat) -> bool
        ensures { result ≡ (shares seat.now.mind == self.now.size.most) }
    {
        u64::from(seat.stands()) + u64::from(seat.splits()) == u64::from(self.words.size.most)
    }

    /// Closes the table, and answers how many entries are published. The seat is all seats of the table.
    pub fn made(self, seat: Seat) -> usize
        requires own { seat.table ≡ self }
        requires all { shares seat.mind ≡ self.size.most }
        ensures listed { result ≡ length seat.mind.published }
        ensures filled { IsPublishedCount seat result }
    {
        seat.published()
    }
}
