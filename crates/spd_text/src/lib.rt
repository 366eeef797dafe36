//! The text of a result and its summary, written to a sink piece by piece, without memory.
//!
//! `spd_text` writes the text of a result, or of its summary, to a sink, piece by piece, taking no memory: the text of the definitions, or a front of
//! it where a write fails.
#![tactic(auto)]

mod failure;
mod names;
mod nodes;
mod result;
mod summary;
mod waiting;

pub use failure::write_failure;
pub use names::{action_name, value_name, var_name};
pub use result::write_result;
pub use summary::write_summary;
