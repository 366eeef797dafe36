//! Merging on diagrams: states whose joint range of values stays within a span get one value.
//!
//! `spd_ranges` has `merge`, which makes a value function smaller by joining close values (APRICODD, NIPS 2000). It pairs the
//! lower and the upper bound of each state, lists the distinct pairs once, in order, and joins them in one sweep over that list. A
//! state's group is then found by a binary search among the groups, in one walk over the diagram of the pairs.
#![tactic(auto)]

mod groups;
mod merging;
mod middle;

pub use merging::{Ranged, merge};
