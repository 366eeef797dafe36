//! The nodes of a diagram that is written as a list.

use spd_nodes::Leaf;

/// A node of a diagram that is written as a list. Nodes are numbered from 0 in the order of the list.
#[derive(Debug, PartialEq, Eq, Hash, Drop)]
pub enum Node {
    /// What stands at the end of a path.
    Leaf(Leaf),
    /// A choice by the value of a variable: the numbers of the nodes that follow, one per value in order.
    Branch { var: u32, kids: Vec<u32> },
}
