//! The words of the table, and its atomic steps.
ghost use Rattle.std.specs.Prelude.{◌≡◌, ◌+◌, ◌*◌, ◌^◌, ◌<◌, ◌≤◌, true, Some, None, [], IfOk, slice_index};
ghost use Rattle.std.specs.Int.{IsNextPowerOfTwo};
ghost use Rattle.std.specs.List.{Contains};
ghost use Rattle.spd_cons_core.specs.declared.key.Key.{Key};
ghost use Rattle.spd_cons_core.specs.Spelling.{words_of, IsKey};
ghost use Rattle.spd_cons_core.specs.Events.{can_load_bucket, call_for, can_claim, can_split, can_store, can_exchange, can_compare};
ghost use Rattle.spd_cons.specs.Ruled.{first_view, word_place};
ghost use Rattle.spd_cons.specs.Values.{known};
ghost use Rattle.spd_cons.specs.Told.{TellsBucket, TellsClaim, TellsStore, TellsExchange, TellsContent, TellsLook, split_view, new_view, joined_view, call_of, spare_of, found_of};

use crate::plays::{
    Claims, ExchangesBucket, JoinsSeats, LoadsBucket, LoadsContent, Looks, ReadsKnown, Searched,
    SplitsSeat, StoresContent,
};
use crate::rule::SoundTable;
use crate::seat::Token;
use crate::view::{Size, View};
use atomic_table::Table;
use spd_cons_core::Entry;
use std::alloc::{AllocError, Global};

/// The table as words: the claim number, the buckets and the entries. Each of its calls but the first is
/// one atomic step, on one word.
#[derive(Drop)]
pub struct WordTable {
    pub(crate) table: Table<(), View, Size, SoundTable, Global>,
    pub(crate) size: Size,
    /// The power of two that the number of buckets is.
    pub(crate) bits: u32,
    ghost sized: { table.shared.key ≡ size },
    ghost wide: { table.shared.table_id.words ≡ 1 + size.count + 5 * (size.limit + size.most) },
    ghost counted: { (size.count ≡ 2 ^ bits) × (1 ≤ bits) × (bits ≤ 63) },
    ghost small: { (size.limit ≤ 8388608) × (size.most ≤ 128) × (size.count < 2 ^ 32) },
}

impl WordTable {
    /// An empty table, with the token of its first seat.
    pub(crate) fn open(
        alloc: Global,
        size: Size,
        bits: u32,
    ) -> Result<(WordTable, Token), AllocError>
        requires limit { (16 ≤ size.limit) × (size.limit ≤ 8388608) }
        requires most { (1 ≤ size.most) × (size.most ≤ 128) }
        requires count { IsNextPowerOfTwo (2 * (size.limit + size.most)) size.count }
        requires bits { (size.count ≡ 2 ^ bits) × (1 ≤ bits) × (bits ≤ 63) }
        requires small { size.count < 2 ^ 32 }
        ensures { IfOk result (λ r. (r.0.size ≡ size) × (r.1.table_id ≡ r.0.table.shared.table_id) × (r.1.me ≡ (first_view size, []))) }
    {
        let count = 1 + size.count + 5 * (u64::from(size.limit) + u64::from(size.most));
        let words = vec![in alloc; 0u64; count as usize]?;
        let (table, token) = Table::of_words(alloc, words.as_slice(), &size)?;
        Ok((WordTable { table, size, bits }, token))
    }

    /// Loads the bucket of the seat's call for a key, or begins that call.
    pub(crate) fn load_bucket<K: Searched>(&self, token: &mut Token, at: u64) -> u64
        requires own { (token.old.table_id ≡ self.now.table.shared.table_id) × (token.old.me.0.size ≡ self.now.size) }
        requires can { can_load_bucket K.key token.old.me.0.mind ≡ true }
        requires fits { IsKey K.key }
        requires at { (call_for self.now.size.count K.key token.old.me.0.mind).at ≡ at }
        requires within { at < self.now.size.count }
        ensures own { token.new.table_id ≡ token.old.table_id }
        ensures tells { TellsBucket K.key token.old.me result token.new.me }
    {
        self.table
            .shared
            .load::<LoadsBucket<K>>(token, at as usize + 1)
    }

    /// Claims an entry.
    pub(crate) fn claim(&self, token: &mut Token) -> u64
        requires own { (token.old.table_id ≡ self.now.table.shared.table_id) × (token.old.me.0.size ≡ self.now.size) }
        requires can { can_claim token.old.me.0.mind ≡ true }
        ensures own { token.new.table_id ≡ token.old.table_id }
        ensures tells { TellsClaim token.old.me result token.new.me }
    {
        self.table.shared.fetch_add::<Claims>(token, 0, 1)
    }

    /// Where a word of an entry stands.
    fn word_place(&self, e: Entry, word: usize) -> usize
        requires below { e.0 < self.now.size.limit + self.now.size.most }
        requires five { word < 5 }
        ensures place { result ≡ word_place self.now.size.count e.0 word }
        ensures within { result < self.now.table.shared.table_id.words }
    {
        1 + self.size.count as usize + (e.0 as usize * 5 + word)
    }

    /// Stores a word of the key of the seat's call in its spare.
    pub(crate) fn store_word(&self, token: &mut Token, e: Entry, word: usize, value: u64)
        requires own { (token.old.table_id ≡ self.now.table.shared.table_id) × (token.old.me.0.size ≡ self.now.size) }
        requires in_call { token.old.me.0.mind.call ≡ Some (call_of token.old.me.0.mind) }
        requires spare { (token.old.me.0.mind.spare ≡ Some (spare_of token.old.me.0.mind)) × ((spare_of token.old.me.0.mind).0 ≡ e.0) }
        requires can { can_store word (call_of token.old.me.0.mind) token.old.me.0.mind ≡ true }
        requires stored { (call_of token.old.me.0.mind).stored ≡ word }
        requires five { word < 5 }
        requires below { e.0 < self.now.size.limit + self.now.size.most }
        requires value { value ≡ slice_index (words_of (call_of token.old.me.0.mind).key) word }
        ensures own { token.new.table_id ≡ token.old.table_id }
        ensures tells { TellsStore token.old.me value token.new.me }
    {
        let at = self.word_place(e, word);
        self.table.shared.store::<StoresContent>(token, at, value);
    }

    /// Puts the seat's spare into the bucket of its call, if that is empty.
    pub(crate) fn exchange(&self, token: &mut Token, at: u64, e: Entry) -> u64
        requires own { (token.old.table_id ≡ self.now.table.shared.table_id) × (token.old.me.0.size ≡ self.now.size) }
        requires in_call { token.old.me.0.mind.call ≡ Some (call_of token.old.me.0.mind) }
        requires spare { (token.old.me.0.mind.spare ≡ Some (spare_of token.old.me.0.mind)) × ((spare_of token.old.me.0.mind).0 ≡ e.0) }
        requires can { can_exchange (call_of token.old.me.0.mind) token.old.me.0.mind ≡ true }
        requires at { (call_of token.old.me.0.mind).at ≡ at }
        requires within { at < self.now.size.count }
        ensures own { token.new.table_id ≡ token.old.table_id }
        ensures tells { TellsExchange token.old.me result token.new.me }
    {
        self.table
            .shared
            .compare_exchange::<ExchangesBucket>(token, at as usize + 1, 0, e.0 as u64 + 1)
    }

    /// Loads a word of the entry that the seat's call has found.
    pub(crate) fn load_word(&self, token: &mut Token, e: Entry, word: usize) -> u64
        requires own { (token.old.table_id ≡ self.now.table.shared.table_id) × (token.old.me.0.size ≡ self.now.size) }
        requires in_call { token.old.me.0.mind.call ≡ Some (call_of token.old.me.0.mind) }
        requires found { (found_of token.old.me.0.mind).0 ≡ e.0 }
        requires can { can_compare (found_of token.old.me.0.mind) word (call_of token.old.me.0.mind) token.old.me.0.mind ≡ true }
        requires right { (call_of token.old.me.0.mind).right ≡ word }
        requires five { word < 5 }
        requires below { e.0 < self.now.size.limit + self.now.size.most }
        ensures own { token.new.table_id ≡ token.old.table_id }
        ensures tells { TellsContent token.old.me result token.new.me }
    {
        let at = self.word_place(e, word);
        self.table.shared.load::<LoadsContent>(token, at)
    }

    /// Loads a word of an entry that the seat knows.
    pub(crate) fn read_word(&self, token: &mut Token, e: Entry, word: usize) -> u64
        requires own { (token.old.table_id ≡ self.now.table.shared.table_id) × (token.old.me.0.size ≡ self.now.size) }
        requires live { token.old.me.0.mind.live ≡ true }
        requires five { word < 5 }
        requires below { e.0 < self.now.size.limit + self.now.size.most }
        ensures own { token.new.table_id ≡ token.old.table_id }
        ensures same { token.new.me ≡ token.old.me }
        ensures word { (key : Key) → Contains token.old.me.0.mind.knows (known e key) → result ≡ slice_index (words_of key) word }
    {
        let at = self.word_place(e, word);
        self.table.shared.load::<ReadsKnown>(token, at)
    }

    /// Looks at the claim word, from which a seat learns that its view is one of the machine.
    pub(crate) fn look(&self, token: &mut Token)
        requires own { token.old.table_id ≡ self.now.table.shared.table_id }
        requires live { token.old.me.0.mind.live ≡ true }
        ensures own { token.new.table_id ≡ token.old.table_id }
        ensures tells { TellsLook token.old.me token.new.me }
    {
        self.table.shared.load::<Looks>(token, 0);
    }

    /// Makes a second seat.
    pub(crate) fn split_token(&self, token: &mut Token) -> Token
        requires own { token.old.table_id ≡ self.now.table.shared.table_id }
        requires can { can_split token.old.me.0.mind ≡ true }
        ensures own { (token.new.table_id ≡ token.old.table_id) × (result.table_id ≡ token.old.table_id) }
        ensures views { (token.new.me ≡ (split_view token.old.me.0, token.old.me.1)) × (result.me ≡ (new_view token.old.me.0, [])) }
    {
        self.table.shared.split_seat::<SplitsSeat>(token)
    }

    /// Lets a seat take another one over.
    pub(crate) fn join_token(&self, token: &mut Token, other: Token)
        requires own { (token.old.table_id ≡ self.now.table.shared.table_id) × (other.table_id ≡ token.old.table_id) × (other.me.1 ≡ []) }
        requires live { (token.old.me.0.mind.live ≡ true) × (other.me.0.mind.live ≡ true) }
        requires rests { (token.old.me.0.mind.call ≡ None) × (other.me.0.mind.call ≡ None) }
        ensures own { token.new.table_id ≡ token.old.table_id }
        ensures views { token.new.me ≡ (joined_view token.old.me.0 other.me.0, token.old.me.1) }
    {
        self.table.shared.join_seat::<JoinsSeats>(token, other);
    }
}
