//! Value iteration over plain tables, with one entry for each state: the solver that the diagrams are compared with.
//!
//! `spd_plain` computes the definitions over tables with one entry for each state: `plain_solve` gives the stop turn, the value,
//! the policy, the residual with its place, and the error of a model of at most 4,096 states; or the first count of states that
//! passes that, the first sum of probabilities that isn't one, or the first reward that passes its limit.
#![tactic(auto)]

mod backup;
mod chances;
mod expectation;
mod outlook;
mod ranges;
mod reach;
mod scales;
mod solve;
mod space;
mod sweep;
mod validity;

pub use solve::{Plain, PlainFault, plain_solve};
