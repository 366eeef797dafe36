//! The atomic steps of the table.
use crate::key::{Entry, Key};

/// One atomic step of a seat. The seats are numbered from 0 in the order in which they were made.
#[derive(Clone, Copy, PartialEq, Eq, Hash, Debug)]
pub enum Event {
    /// Look into the bucket at which the search for the key stands, or begin that search.
    LoadBucket { seat: u32, key: Key },
    /// Claim an entry of its own.
    Claim { seat: u32 },
    /// Store one word of the key into the own entry.
    StoreContent { seat: u32, word: u8 },
    /// Put the own entry into the bucket, if it is still empty.
    ExchangeBucket { seat: u32 },
    /// Compare one word of the entry that was found with the key's.
    LoadContent { seat: u32, entry: Entry, word: u8 },
    /// Make a new seat that knows what this one knows.
    Split { seat: u32 },
    /// Let the first seat take over all that the other one has, which ends the other.
    Join { seat: u32, other: u32 },
}
