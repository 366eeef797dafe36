//! Reduced decision diagrams as plain lists of nodes, and what a turn of value iteration found.
//!
//! `spd_frozen` has diagrams as lists of nodes (`Frozen`), each node once and behind its children, and what is told of a turn
//! (`Iterate`). `of_table` makes the reduced diagram of a table, `Frozen::at` follows a state to its leaf. That an iterate fits a
//! model is one definition.
#![tactic(auto)]

mod freezing;
mod frozen;
mod iterate;
mod mixed;
mod node;
mod table;
mod thawing;
mod unique;

pub use freezing::{freeze, freeze_mixed};
pub use frozen::Frozen;
pub use iterate::{Iterate, Residual};
pub use mixed::{Mixed, MixedNode};
pub use node::Node;
use std::alloc::AllocError;
pub use table::of_table;
pub use thawing::{thaw, thaw_mixed};

/// Memory was wanted and not found.
pub type Memory = AllocError;
