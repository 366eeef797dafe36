//! The state of the machine.
use crate::Memory;
use crate::mind::Mind;
use std::alloc::Global;
use std::marker::Model;

/// The five words of an entry, which spell its key.
#[derive(Clone, Copy, PartialEq, Eq, Hash, Debug)]
pub struct Words(pub [u64; 5]);

impl Model for Words {
    ghost use Rattle.std.specs.Prelude.{ℕ, List};

    ghost Value = { List ℕ };

    ghost view = { λ w. w.0 };

    ghost inverse = { λ words. record { 0 = words } };
}

/// The table and its seats.
#[derive(Drop)]
pub struct Core {
    /// How many entries can be published whatever the seats do.
    pub limit: u32,
    /// How many seats may be made.
    pub most: u32,
    /// How many claims were made.
    pub claims: u64,
    /// 0 for an empty bucket, and e + 1 for one that names the entry e.
    pub buckets: Vec<u64>,
    pub entries: Vec<Words>,
    pub seats: Vec<Mind>,
}

impl Model for Core {
    ghost use Rattle.spd_cons_core.specs.Views.{Machine};

    ghost Value = { Machine };

    ghost view = { λ c. record {
      limit = c.limit;
      most = c.most;
      claims = c.claims;
      buckets = c.buckets.items;
      entries = c.entries.items;
      seats = c.seats.items;
    } };
}

impl Core {
    ghost use Rattle.std.specs.Prelude.{◌≡◌, ℕ, ◌+◌, ◌*◌, ◌≤◌, IfOk};
    ghost use Rattle.std.specs.Int.{IsNextPowerOfTwo};
    ghost use Rattle.spd_cons_core.specs.Events.{new_machine};
    ghost use Rattle.spd_cons_core.specs.Invariants.{IsSized, IsSoundMachine};

    /// An empty table for at least `limit` published entries, with one seat of `seats` that may be
    /// made. The limit is 16 to 8,388,608, and the seats are 1 to 128.
    pub fn new(alloc: Global, limit: u32, seats: u32) -> Result<Self, Memory>
        requires limit_low { 16 ≤ limit }
        requires limit_high { limit ≤ 8388608 }
        requires seats_low { 1 ≤ seats }
        requires seats_high { seats ≤ 128 }
        ensures empty { IfOk result (λ core. (count : ℕ) × IsNextPowerOfTwo (2 * (limit + seats)) count × (core ≡ new_machine limit seats count)) }
        ensures sized { IfOk result IsSized }
        ensures sound { IfOk result IsSoundMachine }
    {
        let count = (2 * (limit + seats)).next_power_of_two() as usize;
        let buckets = vec![in alloc; 0; count]?;
        let entries = vec![in alloc; Words([0; 5]); (limit + seats) as usize]?;
        let mut minds = Vec::with_capacity(alloc, 1)?;
        minds.push(Mind {
            live: true,
            stands: 1,
            splits: seats - 1,
            ..Mind::spent(alloc)
        })?;
        Ok(Core {
            limit,
            most: seats,
            claims: 0,
            buckets,
            entries,
            seats: minds,
        })
    }
}
