//! Backing up a value on diagrams: the bounds of one action's return.
//!
//! `spd_backup` has `backup`, one action's part of value iteration on decision diagrams (SPUDD, UAI 1999). The value's diagram is
//! primed, each variable's next value is summed out by the action's weights, one variable after another, and the discounted expectation
//! is added to the reward: once with all roundings down and once with all up. The answers of all operations are kept in `Tables`, which
//! a caller hands from action to action, so that what two actions have in common is made once. A variable that an expectation doesn't
//! follow costs a search of its diagram, and nothing is made. Where no rounding happens, what is made serves both bounds: a variable is
//! summed out once where each product of a weight and a value is seen to be whole, as it is where the weights are all 0 or one, and an
//! expectation is discounted once where the discount makes whole numbers of it. `thaw_built` makes a built process's lists of nodes the diagrams that a
//! backup reads.
#![tactic(auto)]

mod backing;
mod exact;
mod expecting;
mod free;
mod tables;
mod thawed;
mod thawing;

pub use backing::{Bounds, backup, backup_with};
pub use tables::{LastSum, SumTables, Tables, WayTables};
pub use thawed::Thawed;
pub use thawing::thaw_built;
