//! Why a stage ended early.

use spd_build::BuildFault;
use spd_nodes::StoreFault;
use std::alloc::AllocError;
use thiserror::Error;

/// Why there are no numbers.
#[derive(Debug, Drop, Error)]
pub enum BenchError {
    /// The ring's file wasn't read.
    #[error("the ring wasn't read")]
    Unread,
    /// The ring wasn't built.
    #[error("the ring wasn't built: {0:?}")]
    Unbuilt(#[from] BuildFault),
    /// The model has no machine of the number that is to be summed out.
    #[error("there is no such machine")]
    NoMachine,
    /// The forest gave no Ref.
    #[error("the forest gave no Ref: {0:?}")]
    Store(#[from] StoreFault),
    /// There was no memory beside the forest.
    #[error(transparent)]
    Memory(#[from(alloc)] AllocError),
}
