//! What a seat of the table knows, and where it is in its call.
use crate::key::{Entry, Key};
use std::alloc::Global;
use std::marker::Model;

/// An entry that a seat knows, with its key.
#[derive(Clone, Copy, PartialEq, Eq, Hash, Debug)]
pub struct Known {
    pub entry: Entry,
    pub key: Key,
}

/// A seat's search for the entry of a key, or for an empty bucket to publish it in.
#[derive(Clone, Copy, PartialEq, Eq, Hash, Debug)]
pub struct Call {
    pub key: Key,
    /// The bucket that the search has come to.
    pub at: u64,
    /// The entry that this bucket was seen to name.
    pub found: Option<Entry>,
    /// How many of that entry's first words were seen to be the key's, 0 to 5.
    pub right: u8,
    /// Whether this bucket was seen to be empty.
    pub empty: bool,
    /// How many of the key's first words stand in the seat's spare, 0 to 5.
    pub stored: u8,
}

/// How a seat's last call ended.
#[derive(Clone, Copy, PartialEq, Eq, Hash, Debug)]
pub enum Last {
    /// It has made none.
    Nothing,
    /// With this entry.
    Got(Entry),
    /// With no entry, since the claims have ended.
    Full,
}

/// A seat: one user of the table at a time.
#[derive(Drop)]
pub struct Mind {
    /// False for a seat that was joined into another one.
    pub live: bool,
    pub knows: Vec<Known>,
    /// The entries that it put into buckets itself.
    pub published: Vec<Entry>,
    /// The entry that it has claimed and may publish.
    pub spare: Option<Entry>,
    /// How many entries it has claimed and not published.
    pub unpublished: u32,
    /// For how many seats it stands: itself, and those that were joined into it.
    pub stands: u32,
    /// How many times it may still be split.
    pub splits: u32,
    /// Whether it has met the end of the claims.
    pub ended: bool,
    pub call: Option<Call>,
    pub last: Last,
}

impl Model for Mind {
    ghost use Rattle.spd_cons_core.specs.Views.{Seat};

    ghost Value = { Seat };

    ghost view = { λ m. record {
      live = m.live;
      knows = m.knows.items;
      published = m.published.items;
      spare = m.spare;
      unpublished = m.unpublished;
      stands = m.stands;
      splits = m.splits;
      ended = m.ended;
      call = m.call;
      last = m.last;
    } };
}

impl Mind {
    ghost use Rattle.std.specs.Prelude.{◌≡◌};
    ghost use Rattle.spd_cons_core.specs.Seats.{spent};

    /// A seat that isn't live.
    pub(crate) fn spent(alloc: Global) -> Self
        ensures { result ≡ spent }
    {
        Mind {
            live: false,
            knows: Vec::new(alloc),
            published: Vec::new(alloc),
            spare: None,
            unpublished: 0,
            stands: 0,
            splits: 0,
            ended: false,
            call: None,
            last: Last::Nothing,
        }
    }
}
