//! Reduced test trees over the variables' present and next values, and the stores that hold each of them once.
//!
//! `spd_nodes` has `Layout`, which goes from variables and values to levels and back, and the trait `Forest`: a store of reduced
//! test trees, each of them once. A `Ref` names one. To contracts a forest shows five things (`Shown`): the variables' sizes;
//! which Refs it knows; the tree of each; which it published; whether it is full. Beside them it has what no call changes
//! (`kept`), as the limit of an `Alone`, or the table and the splits of a store that threads share. A forest shows trees and no
//! keys, so how a store numbers its nodes is left to it.
#![tactic(auto)]

pub mod alone;
pub mod conditions;
pub mod counting;
pub mod forest;
pub mod grove;
mod keys;
pub mod layout;
pub mod leaf;
pub mod reach;
pub mod refs;
pub mod same;

pub use alone::Alone;
pub use conditions::{can_test, is_whole};
pub use counting::Counting;
pub use forest::{Forest, Ref, StoreFault, View};
pub use grove::{Grove, Standing};
pub use layout::{Layout, Level};
pub use leaf::Leaf;
pub use reach::{count, reached};
pub use refs::Refs;
pub use same::{is_same_function, is_same_rest};
pub use spd_cons_core::Steps;
