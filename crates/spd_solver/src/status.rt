//! How a command ended.
ghost use Rattle.std.specs.Prelude.{◌≡◌};
ghost use Rattle.spd_solver.specs.inner.Stages.{unreadable_status, unread_status, unsolved_status};
ghost use Rattle.spd_solver.specs.declared.status.Status.TheVariants as Ends;

use crate::file::Unreadable;
use crate::solving::Unsolved;
use spd_cert::CertRefusal;
use spd_edge::Failed;
use spd_model::Text;
use spd_syntax::{Refusal, Unread};
use std::alloc::AllocError;

/// What on decision diagrams has a node limit.
#[derive(Clone, Copy, PartialEq, Eq, Debug)]
pub enum Stage {
    /// Building the model's diagrams.
    Building,
    /// The turn of this number.
    Turn(u32),
    /// Checking a certificate.
    Check,
}

/// How a command ended.
#[derive(Debug, Drop)]
pub enum Status {
    /// The job is done, and its text was written: the turn of a result meets the stop rule, and a certificate holds.
    Done,
    /// The words aren't a command: `word` is the number of the first one that can't stand where it does, counted from 0.
    Usage {
        word: usize,
    },
    /// The file of this name couldn't be opened.
    OpenFault {
        name: Text,
    },
    /// The file of this name couldn't be read.
    ReadFault {
        name: Text,
    },
    /// The file of this name has more bytes than it may have: 4,194,304 of a model, and 268,435,456 of a certificate.
    TooLong {
        name: Text,
    },
    /// The file isn't a model file, by its first fault.
    Refused {
        refusal: Refusal,
    },
    /// The certificate names the model file of the SHA-256 `found`, and the SHA-256 of the model file that was given is `wanted`.
    OtherModel {
        found: [u8; 32],
        wanted: [u8; 32],
    },
    /// The file isn't a certificate of the model, by its first fault.
    CertRefused {
        refusal: CertRefusal,
    },
    /// The process, which was to be solved over tables, has more states than they may have: `product` is the first product of the leading
    /// variables' numbers of values that passes 4,096.
    TooManyStates {
        product: u32,
    },
    /// The probabilities of this variable's values after this action at this state don't sum to one. The sum is in units of 10^-12.
    Sum {
        action: Text,
        var: Text,
        state: Text,
        sum: i128,
    },
    /// The reward of this action at this state passes 10^9, in units of 10^-9.
    Range {
        action: Text,
        state: Text,
        value: i128,
    },
    /// The result was written, and no turn up to the turn limit meets the stop rule. The residual is in units of 10^-9.
    TurnLimit {
        residual: i128,
    },
    /// This stage has more than `limit` nodes, as many as the options allow.
    NodeLimit {
        stage: Stage,
        limit: u32,
    },
    /// The certificate doesn't hold. Where it fails first was written.
    No,
    /// The result couldn't be written whole.
    WriteFault,
    /// Memory was wanted and not found.
    Memory,
}

impl From<Unreadable> for Status {
    ghost from_gives = { λ why status. status ≡ unreadable_status why };

    fn from(why: Unreadable) -> Status {
        match why {
            Unreadable::Open { name } => Status::OpenFault { name },
            Unreadable::Read { name } => Status::ReadFault { name },
            Unreadable::TooLong { name } => Status::TooLong { name },
            Unreadable::Memory => Status::Memory,
        }
    }
}

impl From<Unread> for Status {
    ghost from_gives = { λ why status. status ≡ unread_status why };

    fn from(why: Unread) -> Status {
        match why {
            Unread::Refused(refusal) => Status::Refused { refusal },
            Unread::Memory => Status::Memory,
        }
    }
}

impl From<Unsolved> for Status {
    ghost from_gives = { λ why status. status ≡ unsolved_status why };

    fn from(why: Unsolved) -> Status {
        match why {
            Unsolved::TooManyStates { product } => Status::TooManyStates { product },
            Unsolved::Sum {
                action,
                var,
                state,
                sum,
            } => Status::Sum {
                action,
                var,
                state,
                sum,
            },
            Unsolved::Range {
                action,
                state,
                value,
            } => Status::Range {
                action,
                state,
                value,
            },
            Unsolved::NodeLimit { stage, limit } => Status::NodeLimit { stage, limit },
            Unsolved::Memory => Status::Memory,
        }
    }
}

impl From<AllocError> for Status {
    ghost from_gives = { λ _ status. status ≡ Ends.Memory };

    fn from(_: AllocError) -> Status {
        Status::Memory
    }
}

impl From<Failed> for Status {
    ghost from_gives = { λ _ status. status ≡ Ends.WriteFault };

    fn from(_: Failed) -> Status {
        Status::WriteFault
    }
}
