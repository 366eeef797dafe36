//! A diagram with a variable's value held fixed, with its plain names primed, and chosen by a variable's value.
//!
//! `spd_restrict` has `cofactor`, `prime` and `choose`. `choose` puts one kid after the other in its place, from the last value
//! but one down to the first: each time the diagram so far is kept at all values but one. Its rule goes down to the variable's
//! slot and makes the slot's tests there in one go, since the same two diagrams may meet at the slot at several of its values.
#![tactic(auto)]

pub mod branch;
pub mod fixed;
pub mod next;
pub mod plain;

pub use branch::choose;
pub use fixed::cofactor;
pub use next::prime;
pub use plain::is_plain;
