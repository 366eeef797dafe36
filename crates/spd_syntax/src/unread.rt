//! Why a file was not read.

ghost use Rattle.std.specs.Prelude.{◌≡◌};
ghost use Rattle.spd_syntax.specs.declared.unread.Unread.TheVariants.{Refused, Memory};

use crate::refusal::Refusal;
use std::alloc::{AllocError, AllocFailed};

/// Why a file was not read.
#[derive(Debug, Drop)]
pub enum Unread {
    /// It is no model file.
    Refused(Refusal),
    /// There was no memory.
    Memory,
}

impl From<Refusal> for Unread {
    ghost from_gives = { λ r e. e ≡ Refused r };

    fn from(refusal: Refusal) -> Unread {
        Unread::Refused(refusal)
    }
}

impl From<AllocError> for Unread {
    ghost from_gives = { λ _ e. e ≡ Memory };

    fn from(_e: AllocError) -> Unread {
        Unread::Memory
    }
}

impl<T: Drop> From<AllocFailed<T>> for Unread {
    ghost from_gives = { λ _ e. e ≡ Memory };

    fn from(_e: AllocFailed<T>) -> Unread {
        Unread::Memory
    }
}
