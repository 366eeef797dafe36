//! The factored process as small trees, and the rules of the solver as definitions on plain tables.
//!
//! `spd_model` has the types of a process (`Model`, `Var`, `Action`, `Tree`, `State`, `Options`) and, in `specs/`, the
//! definitions of everything that the solver computes, for any number of variables and for tables that follow the next values of
//! later variables: docs/RULES.md is their reading. A `Model` keeps the invariant `IsLawful`: limits, names, and that its trees
//! fit. `Model::value` follows a tree, `first_state` and `next_state` go through the states, `state_of` reads one from pairs. The
//! contract with the crates above is the definitions themselves.
#![tactic(auto)]

mod options;
mod process;
mod state;
mod states;
mod tree;

pub use options::Options;
pub use process::{Action, Model, Var};
use sqlite_items::Items;
pub use state::State;
pub use states::StateFault;
pub use tree::{Kids, Tree};

/// The bytes of a name: of a variable, a value, an action or a decision diagram.
pub type Name = Items<u8>;

/// A piece of printed text, in bytes.
pub type Text = Items<u8>;

/// A word of the command line, in bytes.
pub type Word = Items<u8>;

/// Why a run of value iteration ended.
#[derive(Clone, Copy, PartialEq, Eq, Debug)]
pub enum Why {
    /// The stop rule holds at the turn that was reached.
    Done,
    /// No turn up to the turn limit meets the stop rule.
    Limit,
}

/// On which side of the value a Bellman residual lies.
#[derive(Clone, Copy, PartialEq, Eq, Debug)]
pub enum Side {
    /// The greatest upper bound of an action's return lies above the value.
    Above,
    /// The greatest lower bound of an action's return lies below the value.
    Below,
}
