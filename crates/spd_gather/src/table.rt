//! A table of the answers of one operation on lists of diagrams.

ghost use Rattle.std.specs.Prelude.{◌≡◌, ◌⊎◌, [], IfSome, Contains};
ghost use Rattle.spd_gather.specs.Rows.{Row};

use crate::rows::{ListHash, Rows};
use spd_nodes::Ref;
use std::alloc::Global;
use std::marker::Model;

/// How long a short list is.
pub const SHORT: usize = 4;

/// Some answers of one operation for lists of `width` Refs, and for short ones of four. Each list has one place, and the answer for a
/// newer list takes that of an older one there. A table begins small and doubles as it fills, to at most `most` places for lists of
/// either length. Contracts see the lists with their answers.
#[derive(Drop)]
pub struct Table {
    long: Rows,
    short: Rows,
}

impl Model for Table {
    ghost use Rattle.std.specs.Prelude.{List, ◌++◌};
    ghost use Rattle.spd_gather.specs.Rows.{Row};

    ghost Value = { List Row };

    ghost view = { λ t. t.long ++ t.short };
}

impl Table {
    /// A table with no answer yet, which takes no memory.
    pub fn new(alloc: Global, width: usize, most: usize) -> Table
        ensures { result ≡ [] }
    {
        Table {
            long: Rows::new(alloc, width, most),
            short: Rows::new(alloc, SHORT, most),
        }
    }

    /// The answer that is kept for a list with this hash, if any: an answer that is found is one that was put.
    pub fn get(&self, list: &[Ref], hash: ListHash) -> Option<Ref>
        ensures { IfSome result (λ r. Contains self.now (list.now, r)) }
    {
        if list.len() == SHORT {
            self.short.get(list, hash)
        } else {
            self.long.get(list, hash)
        }
    }

    /// Keeps an answer for a list of the table's width or a short one, with its hash. It may take the place of another list's.
    pub fn put(&mut self, alloc: Global, list: &[Ref], hash: ListHash, r: Ref)
        ensures { (row : Row) → Contains self.new row → Contains self.old row ⊎ (row ≡ (list.now, r)) }
    {
        if list.len() == SHORT {
            self.short.put(alloc, list, hash, r);
        } else {
            self.long.put(alloc, list, hash, r);
        }
    }
}
