//! The ring of machines: a family of model files that grow with one number.
//!
//! `spd_gen` writes the file of a ring of machines to a sink, piece by piece, taking no memory: the text of the definition, or a
//! front of it where a write fails.
#![tactic(auto)]

mod actions;
mod laws;
mod machine;
mod pieces;
mod ring;

pub use laws::law_ring;
pub use ring::put_ring;
