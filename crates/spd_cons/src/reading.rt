//! The words of an entry that a seat knows.
ghost use Rattle.std.specs.Prelude.{◌≡◌, ◌+◌, ◌<◌, true};
ghost use Rattle.std.specs.List.{Contains};
ghost use Rattle.spd_cons_core.specs.declared.key.Key.{Key};
ghost use Rattle.spd_cons_core.specs.Spelling.{words_of};
ghost use Rattle.spd_cons.specs.Values.{known};

use crate::seat::Token;
use crate::words::WordTable;
use spd_cons_core::{Entry, Words};

/// The first word of a leaf with two numbers.
const PAIR: u64 = 3;

impl WordTable {
    /// The five words of an entry: those of the key with which the seat knows it. The last two are loaded for a leaf with two
    /// numbers alone: for other keys they are 0.
    pub(crate) fn read_words(&self, token: &mut Token, e: Entry) -> Words
        requires own { (token.old.table_id ≡ self.now.table.shared.table_id) × (token.old.me.0.size ≡ self.now.size) }
        requires live { token.old.me.0.mind.live ≡ true }
        requires below { e.0 < self.now.size.limit + self.now.size.most }
        ensures own { token.new.table_id ≡ token.old.table_id }
        ensures same { token.new.me ≡ token.old.me }
        ensures words { (key : Key) → Contains token.old.me.0.mind.knows (known e key) → result ≡ words_of key }
    {
        let kind = self.read_word(token, e, 0);
        let first = self.read_word(token, e, 1);
        let second = self.read_word(token, e, 2);
        if kind != PAIR {
            return Words([kind, first, second, 0, 0]);
        }
        let third = self.read_word(token, e, 3);
        let fourth = self.read_word(token, e, 4);
        Words([kind, first, second, third, fourth])
    }
}
