//! The Bellman residual of a value, and where it lies.
//!
//! `spd_residual` has `residual`, by which value iteration on decision diagrams knows how close it has come (SPUDD, UAI 1999). Of a value
//! and the bounds of all actions it makes the gaps between them as diagrams: how far the greatest upper bound lies above the value, how
//! far the greatest lower bound lies below it, and the greater of the two. The residual is the greatest leaf of that diagram. Its place is
//! found along the diagram, and what stands there is looked up along one path of each other diagram, so that no state is tried on its own:
//! `leaf_at` and `first_upper` look up.
#![tactic(auto)]

mod finding;
mod gaps;
mod leaves;
mod measuring;

pub use leaves::{first_upper, leaf_at};
pub use measuring::residual;
