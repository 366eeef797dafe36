//! The table machine: a table of nodes that several seats fill, one atomic step at a time.
//!
//! `spd_cons_core` has the keys of diagram nodes, and the shared node table as a pure machine over plain lists: what each atomic
//! step does, and the invariant that makes two entries with one key impossible (docs/TABLE.md).
#![tactic(auto)]

pub mod call_count;
mod event;
mod key;
pub mod laws;
mod mind;
mod seat;
mod spelling;
mod steps;
mod table;

pub use call_count::Steps;
pub use event::Event;
pub use key::{Entry, Key};
pub use mind::{Call, Known, Last, Mind};
pub use spelling::{key_of, start_bucket, words_of};
pub use steps::{run, step};
pub use table::{Core, Words};

/// Want of memory.
pub type Memory = std::alloc::AllocError;
