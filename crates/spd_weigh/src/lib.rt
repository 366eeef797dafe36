//! Summing out and discounting on diagrams.
//!
//! `spd_weigh` has `sum_out`, one step of the expectation: a variable's next value is summed out of a function, each value by its
//! weight. It is one recursion over the function and all weights, from level to level: at the variable's tests each diagram takes its
//! own value, and at the leaves there is one sum of products and one rounding. So it makes only nodes of its answer. It ends early where all
//! values that have weight are one diagram. `discount` multiplies by the discount. Both keep their answers in a table that a caller
//! may hand from call to call.
#![tactic(auto)]

mod discounting;
mod sum;
mod way;
mod weighing;

pub use discounting::{discount, discount_with};
pub use sum::{sum_out, sum_out_with};
pub use way::Way;
