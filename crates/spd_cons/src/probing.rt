//! The steps of a search.
ghost use Rattle.std.specs.Prelude.{◌≡◌, ◌+◌, ◌<◌, true, false, Some, None, IfSome, IfNone, IsTrue, IsFalse, is_none, ◌&&◌, ◌⊎◌, [], ◌∷◌, ◌++◌};
ghost use Rattle.spd_cons_core.specs.Spelling.{IsKey, words_of, first_bucket};
ghost use Rattle.spd_cons.specs.Shown.{IsActive, view_of};
ghost use Rattle.spd_cons.specs.Searching.{held, IsReady, IsComparing, GoesOn, IsEmpty, Compares, LooksInto, Publishes, stored_of, HasSpare, Ends, Probes, IsSame, IsUnknown, StandsAt, Knows};

use crate::plays::Searched;
use crate::search::{Probe, Search};
use crate::seat::ActiveSeat;
use crate::words::WordTable;
use spd_cons_core::Entry;

impl WordTable {
    /// Compares one of the first four words of the entry that was found.
    fn compare_word(&self, active: &mut ActiveSeat, search: &Search, e: Entry, word: usize) -> bool
        requires active { IsActive active.old }
        requires own { (active.old.token.table_id ≡ self.now.table.shared.table_id) × ((view_of active.old).size ≡ self.now.size) }
        requires at { IsComparing search.now e word (view_of active.old) }
        requires four { word < 4 }
        requires below { e.0 < self.now.size.limit + self.now.size.most }
        ensures own { active.new.token.table_id ≡ active.old.token.table_id }
        ensures active { IsActive active.new }
        ensures held { held (view_of active.new) ≡ held (view_of active.old) }
        ensures right { IsTrue result → IsComparing search.now e (word + 1) (view_of active.new) × ((view_of active.new).mind.spare ≡ (view_of active.old).mind.spare) }
        ensures wrong { IsFalse result → GoesOn self.now.size.count search.now (view_of active.old) (view_of active.new) }
    {
        let wanted = search.word(word);
        let found = self.load_word(&mut active.token, e, word);
        found == wanted
    }

    /// Compares the last word of the entry that was found, whose first four were right.
    fn compare_last(&self, active: &mut ActiveSeat, search: &Search, e: Entry) -> bool
        requires active { IsActive active.old }
        requires own { (active.old.token.table_id ≡ self.now.table.shared.table_id) × ((view_of active.old).size ≡ self.now.size) }
        requires at { IsComparing search.now e 4 (view_of active.old) }
        requires below { e.0 < self.now.size.limit + self.now.size.most }
        ensures own { active.new.token.table_id ≡ active.old.token.table_id }
        ensures active { IsActive active.new }
        ensures compares { Compares self.now.size.count search.now e (view_of active.old) (view_of active.new) result }
    {
        let wanted = search.word(4);
        let found = self.load_word(&mut active.token, e, 4);
        found == wanted
    }

    /// Compares the entry that was found.
    fn compare(&self, active: &mut ActiveSeat, search: &Search, e: Entry) -> bool
        requires active { IsActive active.old }
        requires own { (active.old.token.table_id ≡ self.now.table.shared.table_id) × ((view_of active.old).size ≡ self.now.size) }
        requires at { IsComparing search.now e 0 (view_of active.old) }
        requires below { e.0 < self.now.size.limit + self.now.size.most }
        ensures own { active.new.token.table_id ≡ active.old.token.table_id }
        ensures active { IsActive active.new }
        ensures compares { Compares self.now.size.count search.now e (view_of active.old) (view_of active.new) result }
    {
        for word in 0..4 {
            if !self.compare_word(active, search, e, word) {
                return false;
            }
        }
        self.compare_last(active, search, e)
    }

    /// Looks into the search's bucket, which begins its call where there is none yet.
    fn look_into<K: Searched>(&self, active: &mut ActiveSeat, search: &Search) -> u64
        requires active { IsActive active.old }
        requires own { (active.old.token.table_id ≡ self.now.table.shared.table_id) × ((view_of active.old).size ≡ self.now.size) }
        requires key { K.key ≡ search.now.key }
        requires fits { IsKey search.now.key }
        requires ready { IsReady search.now search.now.at (view_of active.old) }
        requires within { search.now.at < self.now.size.count }
        ensures own { active.new.token.table_id ≡ active.old.token.table_id }
        ensures active { IsActive active.new }
        ensures looks { LooksInto (self.now.size.limit + self.now.size.most) search.now (view_of active.old) (view_of active.new) result }
    {
        self.load_bucket::<K>(&mut active.token, search.at)
    }

    /// Puts the seat's spare, in which the key stands, into the search's bucket if that is empty.
    fn publish(&self, active: &mut ActiveSeat, search: &Search, e: Entry) -> u64
        requires active { IsActive active.old }
        requires own { (active.old.token.table_id ≡ self.now.table.shared.table_id) × ((view_of active.old).size ≡ self.now.size) }
        requires at { IsEmpty search.now 5 (view_of active.old) }
        requires stored { stored_of search.now ≡ 5 }
        requires spare { (view_of active.old).mind.spare ≡ Some e }
        requires within { search.now.at < self.now.size.count }
        ensures own { active.new.token.table_id ≡ active.old.token.table_id }
        ensures active { IsActive active.new }
        ensures publishes { Publishes (self.now.size.limit + self.now.size.most) search.now e (view_of active.old) (view_of active.new) result }
    {
        let found = self.exchange(&mut active.token, search.at, e);
        if found == 0 {
            active.spare = None;
            active.published += 1;
        }
        found
    }

    /// Claims an entry.
    fn claim_spare(&self, active: &mut ActiveSeat, search: &Search) -> Option<Entry>
        requires active { IsActive active.old }
        requires own { (active.old.token.table_id ≡ self.now.table.shared.table_id) × ((view_of active.old).size ≡ self.now.size) }
        requires at { IsEmpty search.now (stored_of search.now) (view_of active.old) }
        requires none { (view_of active.old).mind.spare ≡ None }
        requires going { (view_of active.old).mind.ended ≡ false }
        ensures own { active.new.token.table_id ≡ active.old.token.table_id }
        ensures active { IsActive active.new }
        ensures some { IfSome result (λ e. HasSpare (self.now.size.limit + self.now.size.most) search.now (stored_of search.now) e (view_of active.old) (view_of active.new)) }
        ensures none { IfNone result (Ends (view_of active.old) (view_of active.new)) }
    {
        let _ = search;
        let end = u64::from(self.size.limit) + u64::from(self.size.most);
        let old = self.claim(&mut active.token);
        if old >= end {
            active.ended = true;
            return None;
        }
        let spare = Entry(old as u32);
        active.spare = Some(spare);
        Some(spare)
    }

    /// Stores the key in the seat's spare.
    fn store_all(&self, active: &mut ActiveSeat, search: &Search, e: Entry)
        requires active { IsActive active.old }
        requires own { (active.old.token.table_id ≡ self.now.table.shared.table_id) × ((view_of active.old).size ≡ self.now.size) }
        requires at { IsEmpty search.now 0 (view_of active.old) }
        requires spare { (view_of active.old).mind.spare ≡ Some e }
        requires below { e.0 < self.now.size.limit + self.now.size.most }
        ensures own { active.new.token.table_id ≡ active.old.token.table_id }
        ensures active { IsActive active.new }
        ensures stored { HasSpare (self.now.size.limit + self.now.size.most) search.now 5 e (view_of active.old) (view_of active.new) }
    {
        for word in 0..5 {
            let value = search.word(word);
            self.store_word(&mut active.token, e, word, value);
        }
    }

    /// A spare of the seat's, which is claimed where it has none.
    fn take_spare(&self, active: &mut ActiveSeat, search: &Search) -> Option<Entry>
        requires active { IsActive active.old }
        requires own { (active.old.token.table_id ≡ self.now.table.shared.table_id) × ((view_of active.old).size ≡ self.now.size) }
        requires at { IsEmpty search.now (stored_of search.now) (view_of active.old) }
        requires going { (is_none (view_of active.old).mind.spare && (view_of active.old).mind.ended) ≡ false }
        ensures own { active.new.token.table_id ≡ active.old.token.table_id }
        ensures active { IsActive active.new }
        ensures some { IfSome result (λ e. HasSpare (self.now.size.limit + self.now.size.most) search.now (stored_of search.now) e (view_of active.old) (view_of active.new)) }
        ensures none { IfNone result (Ends (view_of active.old) (view_of active.new) × ((view_of active.old).mind.spare ≡ None)) }
    {
        match active.spare {
            Some(e) => Some(e),
            None => self.claim_spare(active, search),
        }
    }

    /// Stores the key in the seat's spare, if it doesn't stand there yet.
    fn store_key(&self, active: &mut ActiveSeat, search: &Search, e: Entry)
        requires active { IsActive active.old }
        requires own { (active.old.token.table_id ≡ self.now.table.shared.table_id) × ((view_of active.old).size ≡ self.now.size) }
        requires at { IsEmpty search.now (stored_of search.now) (view_of active.old) }
        requires spare { (view_of active.old).mind.spare ≡ Some e }
        requires below { e.0 < self.now.size.limit + self.now.size.most }
        ensures own { active.new.token.table_id ≡ active.old.token.table_id }
        ensures active { IsActive active.new }
        ensures stored { HasSpare (self.now.size.limit + self.now.size.most) search.now 5 e (view_of active.old) (view_of active.new) }
    {
        if search.stored {
            return;
        }
        self.store_all(active, search, e);
    }

    /// Compares the entry that was found.
    fn compared(&self, active: &mut ActiveSeat, search: &Search, e: Entry) -> Probe
        requires active { IsActive active.old }
        requires own { (active.old.token.table_id ≡ self.now.table.shared.table_id) × ((view_of active.old).size ≡ self.now.size) }
        requires at { IsComparing search.now e 0 (view_of active.old) }
        requires below { e.0 < self.now.size.limit + self.now.size.most }
        ensures own { active.new.token.table_id ≡ active.old.token.table_id }
        ensures active { IsActive active.new }
        ensures probes { Probes self.now.size.count search.now search.now (view_of active.old) (view_of active.new) result }
    {
        if self.compare(active, search, e) {
            Probe::Got(e)
        } else {
            Probe::Other
        }
    }

    /// Tries to publish the key at an empty bucket.
    fn fill(&self, active: &mut ActiveSeat, search: &mut Search) -> Probe
        requires active { IsActive active.old }
        requires own { (active.old.token.table_id ≡ self.now.table.shared.table_id) × ((view_of active.old).size ≡ self.now.size) }
        requires at { StandsAt search.old (view_of active.old) }
        requires unknown { IsUnknown search.old.key (view_of active.old) }
        requires within { search.old.at < self.now.size.count }
        ensures own { active.new.token.table_id ≡ active.old.token.table_id }
        ensures active { IsActive active.new }
        ensures same { IsSame search.old search.new }
        ensures probes { Probes self.now.size.count search.old search.new (view_of active.old) (view_of active.new) result }
    {
        if active.spare.is_none() && active.ended {
            return Probe::Full;
        }
        let Some(e) = self.take_spare(active, search) else {
            return Probe::Full;
        };
        self.store_key(active, search, e);
        search.stored = true;
        self.publish_at(active, search, e)
    }

    /// Publishes the spare at the search's bucket, or compares what stands there by now.
    fn publish_at(&self, active: &mut ActiveSeat, search: &Search, e: Entry) -> Probe
        requires active { IsActive active.old }
        requires own { (active.old.token.table_id ≡ self.now.table.shared.table_id) × ((view_of active.old).size ≡ self.now.size) }
        requires at { IsEmpty search.now 5 (view_of active.old) }
        requires stored { stored_of search.now ≡ 5 }
        requires spare { (view_of active.old).mind.spare ≡ Some e }
        requires within { search.now.at < self.now.size.count }
        ensures own { active.new.token.table_id ≡ active.old.token.table_id }
        ensures active { IsActive active.new }
        ensures probes { Probes self.now.size.count search.now search.now (view_of active.old) (view_of active.new) result }
    {
        let found = self.publish(active, search, e);
        if found == 0 {
            return Probe::Got(e);
        }
        let first = Entry((found - 1) as u32);
        self.compared(active, search, first)
    }

    /// Tries one bucket.
    fn probe<K: Searched>(&self, active: &mut ActiveSeat, search: &mut Search) -> Probe
        requires active { IsActive active.old }
        requires own { (active.old.token.table_id ≡ self.now.table.shared.table_id) × ((view_of active.old).size ≡ self.now.size) }
        requires key { K.key ≡ search.old.key }
        requires fits { IsKey search.old.key }
        requires ready { IsReady search.old search.old.at (view_of active.old) }
        requires within { search.old.at < self.now.size.count }
        ensures own { active.new.token.table_id ≡ active.old.token.table_id }
        ensures active { IsActive active.new }
        ensures same { IsSame search.old search.new }
        ensures probes { Probes self.now.size.count search.old search.new (view_of active.old) (view_of active.new) result }
    {
        let found = self.look_into::<K>(active, search);
        if found == 0 {
            return self.fill(active, search);
        }
        self.compared(active, search, Entry((found - 1) as u32))
    }

    /// Searches from the search's bucket on, which is its start.
    pub(crate) fn search_on<K: Searched>(
        &self,
        active: &mut ActiveSeat,
        search: &mut Search,
    ) -> Option<Entry>
        requires active { IsActive active.old }
        requires own { (active.old.token.table_id ≡ self.now.table.shared.table_id) × ((view_of active.old).size ≡ self.now.size) }
        requires key { K.key ≡ search.old.key }
        requires fits { IsKey search.old.key }
        requires ready { IsReady search.old search.old.at (view_of active.old) }
        requires start { search.old.at ≡ first_bucket (words_of search.old.key) self.now.size.count }
        requires within { search.old.at < self.now.size.count }
        ensures own { active.new.token.table_id ≡ active.old.token.table_id }
        ensures active { IsActive active.new }
        ensures some { IfSome result (λ e. Knows search.old e (view_of active.old) (view_of active.new)) }
        ensures listed { IfSome result (λ e. ((view_of active.new).mind.published ≡ (view_of active.old).mind.published) ⊎ ((view_of active.new).mind.published ≡ (view_of active.old).mind.published ++ e ∷ [])) }
        ensures none { IfNone result (Ends (view_of active.old) (view_of active.new) × IsUnknown search.old.key (view_of active.old) × ((view_of active.old).mind.spare ≡ None)) }
    {
        loop {
            match self.probe::<K>(active, search) {
                Probe::Got(e) => return Some(e),
                Probe::Full => return None,
                Probe::Other => {}
            }
            search.at = if search.at + 1 < self.size.count {
                search.at + 1
            } else {
                0
            };
        }
    }
}
