//! The greatest bounds over all actions, and the policy.
//!
//! `spd_policy` has `best`, which ends a turn of value iteration on decision diagrams (SPUDD, UAI 1999): of the bounds of all actions it
//! makes the greatest lower bound, the greatest upper bound, and the policy, which is at each state the first action that has the
//! greatest lower bound. Each of the three is one recursion over the bounds of all actions at once, so that only nodes of the three
//! answers are made. The greatest of bounds that are one diagram is that one. The policy is found beside the greatest lower bound: where
//! the first bound is the greatest it is known, and what stands behind a bound that is the greatest doesn't count.
#![tactic(auto)]

mod choosing;
mod chosen;
mod highest;
mod placing;
mod tables;

pub use choosing::{best, best_with};
pub use chosen::Best;
pub use tables::BestTables;
