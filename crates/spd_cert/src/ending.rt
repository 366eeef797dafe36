//! Why reading ends before a certificate is read.

ghost use Rattle.std.specs.Prelude.{◌≡◌};
ghost use Rattle.spd_cert.specs.declared.ending.Ending.TheVariants.{Stopped, Memory};

use std::alloc::{AllocError, AllocFailed};

/// What is wrong at a place.
#[derive(Clone, Copy, PartialEq, Eq, Debug, Drop)]
pub(crate) enum Kind {
    Expected,
    Unknown,
    Order,
    Number,
    End,
}

/// Where reading stops.
#[derive(Clone, Copy, PartialEq, Eq, Debug, Drop)]
pub(crate) struct Stop {
    pub kind: Kind,
    /// How many bytes of the file stand from the place on.
    pub left: usize,
}

/// Why reading ends before a certificate is read.
#[derive(Clone, Copy, PartialEq, Eq, Debug, Drop)]
pub(crate) enum Ending {
    Stopped(Stop),
    Memory,
}

/// Reading stops where so many bytes are left.
pub(crate) fn stop_at(kind: Kind, left: usize) -> Ending
    ensures { result ≡ Stopped (record { kind = kind; left = left }) }
{
    Ending::Stopped(Stop { kind, left })
}

impl From<AllocError> for Ending {
    ghost from_gives = { λ _ e. e ≡ Memory };

    fn from(_e: AllocError) -> Ending {
        Ending::Memory
    }
}

impl<T: Drop> From<AllocFailed<T>> for Ending {
    ghost from_gives = { λ _ e. e ≡ Memory };

    fn from(_e: AllocFailed<T>) -> Ending {
        Ending::Memory
    }
}
