//! Where a diagram first has a leaf that is wanted.
//!
//! `spd_search` answers one question about a diagram: which is the first present state, in the order of the states, at which it has
//! some leaf at some next state, and which leaf is it there at the first such next state (`first_found`). A `Wanted` says which
//! leaves are looked for. No diagram is made, and no state is tried on its own.
#![tactic(auto)]

mod found;
mod looking;
mod wanted;

pub use found::{Found, first_found};
use std::alloc::AllocError;
pub use wanted::Wanted;

/// Memory was wanted and not found.
pub type Memory = AllocError;
