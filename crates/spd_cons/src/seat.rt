//! A seat of the table.
use crate::view::View;
use spd_cons_core::Entry;
use std::marker::Model;

/// A seat's right to step on the table, with its view. It has no bytes.
pub type Token = atomic_table::Seat<(), View>;

/// A seat that may be in a call: its token, with what it has to know while it runs.
#[derive(Drop)]
pub struct ActiveSeat {
    pub(crate) token: Token,
    /// The entry that it has claimed and may publish.
    pub(crate) spare: Option<Entry>,
    /// Whether it has met the end of the claims.
    pub(crate) ended: bool,
    /// How many entries it published itself.
    pub(crate) published: usize,
    /// For how many seats it stands: itself, and those that were joined into it.
    pub(crate) stands: u32,
    /// How many times it may still be split.
    pub(crate) splits: u32,
}

/// A seat of the table: one user of it at a time. Contracts see of which table it is, and what it is
/// there: the entries that it knows, with their keys, those that it published itself, its spare, how
/// many seats it stands for, how many splits it has left and whether it has met the end of the claims.
#[derive(Drop)]
pub struct Seat {
    pub(crate) active: ActiveSeat,
}

impl Model for Seat {
    ghost use Rattle.spd_cons.specs.Values.{SeatValue};
    ghost use Rattle.spd_cons.specs.Shown.{shown, IsAtRest};

    ghost Value = { SeatValue };

    ghost view = { shown };

    ghost invariant = { IsAtRest };
}

impl Seat {
    ghost use Rattle.std.specs.Prelude.{◌≡◌, length, is_some};
    ghost use Rattle.spd_cons.specs.Values.{IsSeatOf};

    /// How many entries it published itself.
    pub fn published(&self) -> usize
        ensures { result ≡ length self.now.mind.published }
    {
        self.active.published
    }

    /// Whether it has met the end of the claims.
    pub fn has_ended(&self) -> bool
        ensures { result ≡ self.now.mind.ended }
    {
        self.active.ended
    }

    /// Whether it holds an entry that it has claimed and may publish.
    pub fn has_spare(&self) -> bool
        ensures { result ≡ is_some self.now.mind.spare }
    {
        self.active.spare.is_some()
    }

    /// For how many seats it stands: itself, and those that were joined into it.
    pub fn stands(&self) -> u32
        ensures { result ≡ self.now.mind.stands }
    {
        self.active.stands
    }

    /// How many times it may still be split.
    pub fn splits(&self) -> u32
        ensures { result ≡ self.now.mind.splits }
    {
        self.active.splits
    }

    /// What holds of every seat.
    pub fn facts(&self)
        ensures { IsSeatOf self.now }
    {
        let _ = self.active.spare.is_some();
    }
}
