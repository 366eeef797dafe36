//! Decision diagrams over present and next values, as lists of nodes.

ghost use Rattle.std.specs.Prelude.{◌≡◌};
ghost use Rattle.spd_frozen.specs.Mixed.{all_slotted};
ghost use Rattle.spd_frozen.specs.Frozen.{IsFrozen};

use spd_nodes::Leaf;
use std::marker::Model;

/// A node of a diagram over present and next values that is written as a list. Nodes are numbered from 0 in the order of the
/// list.
#[derive(Debug, PartialEq, Eq, Drop)]
pub enum MixedNode {
    /// What stands at the end of a path.
    Leaf(Leaf),
    /// A choice by the next value of a variable (primed) or by its present one: the numbers of the nodes that follow, one per
    /// value in order.
    Branch {
        var: u32,
        primed: bool,
        kids: Vec<u32>,
    },
}

/// A decision diagram over present and next values as a list of nodes, kids first. The last node is the root. Contracts see
/// each branch on the slot of its variable: twice the variable's number for its next value, and one more for its present one.
#[derive(Debug, Drop)]
pub struct Mixed {
    nodes: Vec<MixedNode>,
}

impl Model for Mixed {
    ghost use Rattle.std.specs.Prelude.{List};
    ghost use Rattle.std.specs.Coded.{codes};
    ghost use Rattle.spd_model.specs.Reduced.{Node};
    ghost use Rattle.spd_nodes.specs.declared.leaf.Leaf.{Leaf};
    ghost use Rattle.spd_nodes.specs.contracts.leaf.Leaf as leaf;
    ghost use Rattle.spd_frozen.specs.Mixed.{all_slotted};
    ghost use Rattle.spd_frozen.specs.Frozen.{IsFrozen};

    ghost Value = { List (Node Leaf) };

    ghost coded = { Prim.hlevel (codes, leaf.the_row.coded) };

    ghost view = { λ f. all_slotted f.nodes.items };

    ghost invariant = { λ f. IsFrozen (all_slotted f.nodes.items) };
}

impl Mixed {
    /// The diagram of these nodes: at least one, kids before their parents and on later slots (a variable's next value comes
    /// before its present one), and at least one kid for each branch.
    pub fn of_nodes(nodes: Vec<MixedNode>) -> Mixed
        requires { IsFrozen (all_slotted nodes.items) }
        ensures { result ≡ all_slotted nodes.items }
    {
        Mixed { nodes }
    }

    /// Its nodes, kids first, and the root last.
    pub fn nodes(&self) -> &[MixedNode]
        ensures nodes { all_slotted result.now ≡ self.now }
        ensures frozen { IsFrozen self.now }
    {
        self.nodes.as_slice()
    }
}
