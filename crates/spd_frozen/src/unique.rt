//! The unique table of a list of nodes.

ghost use Rattle.std.specs.Prelude.{◌≡◌, ◌<◌, [], length, map, IfOk, All};
ghost use Rattle.spd_model.specs.Reduced.{Diagram, Node as N, node_of};
ghost use Rattle.spd_nodes.specs.Trees.{leaf_eq};
ghost use Rattle.spd_frozen.specs.Nodes.{all_shown, shown};
ghost use Rattle.spd_frozen.specs.Frozen.{diagram_of, diagrams};
ghost use Rattle.spd_frozen.specs.inner.Unique.{Completes, HasKidsBelow};

use crate::{Memory, Node};
use indexmap::IndexSet;
use spd_nodes::Leaf;
use std::alloc::{AllocError, Global};
use std::marker::Model;

/// The unique table (Bryant, 1986) of a list of nodes: the nodes in the order in which they were completed, each once.
#[derive(Drop)]
pub(crate) struct UniqueTable {
    set: IndexSet<Node>,
}

impl Model for UniqueTable {
    ghost use Rattle.std.specs.Prelude.{List};
    ghost use Rattle.std.specs.Coded.{codes};
    ghost use Rattle.spd_model.specs.Reduced.{Node};
    ghost use Rattle.spd_nodes.specs.declared.leaf.Leaf.{Leaf};
    ghost use Rattle.spd_nodes.specs.contracts.leaf.Leaf as leaf;
    ghost use Rattle.spd_frozen.specs.Nodes.{all_shown};
    ghost use Rattle.spd_frozen.specs.inner.Unique.{IsUniqueTable};

    ghost Value = { List (Node Leaf) };

    ghost coded = { Prim.hlevel (codes, leaf.the_row.coded) };

    ghost view = { λ t. all_shown t.set.keys };

    ghost invariant = { λ t. IsUniqueTable (all_shown t.set.keys) };
}

impl UniqueTable {
    pub(crate) fn new(alloc: Global) -> UniqueTable
        ensures { result ≡ [] }
    {
        UniqueTable {
            set: IndexSet::new(alloc),
        }
    }

    /// The number of a leaf, which is put in the last place where it is new.
    pub(crate) fn leaf(&mut self, leaf: Leaf) -> Result<u32, Memory>
        ensures { Completes (Diagram.leaf leaf) self.old result self.new }
    {
        self.find_or_add(Node::Leaf(leaf))
    }

    /// The number of the branch on a variable with these kids, which is put in the last place where it is new.
    pub(crate) fn branch(&mut self, var: u32, kids: Vec<u32>) -> Result<u32, Memory>
        requires { All (λ k. k < length self.old) kids.items }
        ensures { Completes (diagram_of (diagrams self.old) (N.branch var kids.items)) self.old result self.new }
    {
        self.find_or_add(Node::Branch { var, kids })
    }

    /// The number of a node, which is put in the last place where it is new.
    fn find_or_add(&mut self, node: Node) -> Result<u32, Memory>
        requires { HasKidsBelow (length self.old) (shown node) }
        ensures { Completes (diagram_of (diagrams self.old) (shown node)) self.old result self.new }
    {
        // No table of leaves that fits in memory has so many nodes.
        if self.set.len() > u32::MAX as usize {
            return Err(AllocError);
        }
        match self.set.insert_full(node) {
            Ok((number, _)) => Ok(number as u32),
            Err(_) => Err(AllocError),
        }
    }

    /// The nodes in order.
    pub(crate) fn into_nodes(self, alloc: Global) -> Result<Vec<Node>, Memory>
        ensures { IfOk result (λ nodes. all_shown nodes.items ≡ map (node_of leaf_eq (diagrams self)) (diagrams self)) }
    {
        let UniqueTable { set } = self;
        set.into_iter().collect(alloc)
    }
}
