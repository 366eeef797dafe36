//! The parts of a factored process as decision diagrams, and as lists of nodes.
//!
//! `build` makes a model's probabilities, its rewards and its first value into diagrams of a forest, and writes them as lists of nodes. It
//! refuses a model whose probabilities don't sum to one, or of which a reward passes its limit, and tells the first place. `dds_of` makes
//! the decision diagrams that are named, each once, and `tree_of` one tree over them. The functions of building, whose nodes alone are
//! made, are one definition, `building_functions`.
#![tactic(auto)]

mod building;
mod built;
mod drawing;
mod layout;
mod lists;
mod rewards;
mod start;
mod tables;
mod trees;

pub use building::build;
pub use built::{BuildFault, Built};
pub use layout::layout_of;
pub use trees::{dds_of, tree_of};
