//! Why a workload ended early.

use spd_nodes::StoreFault;
use std::alloc::AllocError;
use thiserror::Error;

/// Why a workload gave no numbers.
#[derive(Debug, Drop, Error)]
pub enum BenchError {
    /// The forest gave no Ref.
    #[error("the forest gave no Ref: {0:?}")]
    Store(#[from] StoreFault),
    /// There was no memory beside the forest.
    #[error(transparent)]
    Memory(#[from(alloc)] AllocError),
}
