//! A decision diagram as a list of nodes.

ghost use Rattle.std.specs.Prelude.{◌≡◌, ◌<◌, length, All};
ghost use Rattle.spd_frozen.specs.Nodes.{all_shown};
ghost use Rattle.spd_frozen.specs.Frozen.{IsFrozen, HasKid, leaf_at};
ghost use Rattle.spd_frozen.specs.inner.Followed.{leaf_from, Leads};

use crate::Node;
use spd_model::State;
use spd_nodes::Leaf;
use std::marker::Model;

/// Where a state leads from a node.
#[derive(Clone, Copy)]
enum Step {
    /// The node is a leaf.
    Leaf(Leaf),
    /// To the kid of this number.
    Kid(usize),
}

/// A decision diagram as a list of nodes, kids first. The last node is the root.
#[derive(Debug, Drop)]
pub struct Frozen {
    nodes: Vec<Node>,
}

impl Model for Frozen {
    ghost use Rattle.std.specs.Prelude.{List};
    ghost use Rattle.std.specs.Coded.{codes};
    ghost use Rattle.spd_model.specs.Reduced.{Node};
    ghost use Rattle.spd_nodes.specs.declared.leaf.Leaf.{Leaf};
    ghost use Rattle.spd_nodes.specs.contracts.leaf.Leaf as leaf;
    ghost use Rattle.spd_frozen.specs.Nodes.{all_shown};
    ghost use Rattle.spd_frozen.specs.Frozen.{IsFrozen};

    ghost Value = { List (Node Leaf) };

    ghost coded = { Prim.hlevel (codes, leaf.the_row.coded) };

    ghost view = { λ f. all_shown f.nodes.items };

    ghost invariant = { λ f. IsFrozen (all_shown f.nodes.items) };
}

impl Frozen {
    /// The diagram of these nodes: at least one, kids before their parents and on later variables, and at least one kid for
    /// each branch.
    pub fn of_nodes(nodes: Vec<Node>) -> Frozen
        requires { IsFrozen (all_shown nodes.items) }
        ensures { result ≡ all_shown nodes.items }
    {
        Frozen { nodes }
    }

    /// Its nodes, kids first, and the root last.
    pub fn nodes(&self) -> &[Node]
        ensures nodes { all_shown result.now ≡ self.now }
        ensures frozen { IsFrozen self.now }
    {
        self.nodes.as_slice()
    }

    /// Its leaf at a state, which is reached by following the state's values from the root. Each branch has a kid for the
    /// state's value of its variable.
    pub fn at(&self, s: &State) -> Leaf
        requires { All (HasKid s.now) self.now }
        ensures { result ≡ leaf_at self.now s.now }
    {
        self.leaf_from(s, self.nodes.len() - 1)
    }

    /// The leaves of two diagrams at a state. Each step waits for what the step before it read, so both are followed at a
    /// time.
    pub(crate) fn at_both(&self, other: &Frozen, s: &State) -> (Leaf, Leaf)
        requires kids { All (HasKid s.now) self.now }
        requires other_kids { All (HasKid s.now) other.now }
        ensures one { result.0 ≡ leaf_at self.now s.now }
        ensures other { result.1 ≡ leaf_at other.now s.now }
    {
        let mut one = self.nodes.len() - 1;
        let mut two = other.nodes.len() - 1;
        loop {
            match (self.step(s, one), other.step(s, two)) {
                (Step::Kid(kid), Step::Kid(other_kid)) => {
                    one = kid;
                    two = other_kid;
                }
                (Step::Leaf(leaf), _) => return (leaf, other.leaf_from(s, two)),
                (_, Step::Leaf(leaf)) => return (self.leaf_from(s, one), leaf),
            }
        }
    }

    /// The leaf at a state from a node on.
    fn leaf_from(&self, s: &State, node: usize) -> Leaf
        requires kids { All (HasKid s.now) self.now }
        requires within { node < length self.now }
        ensures { result ≡ leaf_from self.now s.now node }
    {
        let mut reached = node;
        loop {
            match self.step(s, reached) {
                Step::Leaf(leaf) => return leaf,
                Step::Kid(kid) => reached = kid,
            }
        }
    }

    /// Where a state's value leads from a node.
    #[inline(always)]
    fn step(&self, s: &State, node: usize) -> Step
        requires kids { All (HasKid s.now) self.now }
        requires within { node < length self.now }
        ensures { Leads self.now s.now node result }
    {
        match &self.nodes[node] {
            Node::Leaf(leaf) => Step::Leaf(*leaf),
            Node::Branch { var, kids } => {
                Step::Kid(kids[s.get(*var as usize) as usize] as usize)
            }
        }
    }
}
