//! Trees of numbers, names of decision diagrams and branches.

use sqlite_items::Items;

/// The subtrees of a branch, one per value of its variable, in the declared order of the values.
pub type Kids = Items<Tree>;

/// A tree over the variables of a model.
#[derive(Debug, Drop)]
pub enum Tree {
    /// A number, in units of 10^-12.
    Leaf(i128),
    /// The tree of the named decision diagram of this number.
    Named(u32),
    /// A choice by the value of a variable: its present value, or its next value where `primed`.
    Branch { var: u32, primed: bool, kids: Kids },
}
