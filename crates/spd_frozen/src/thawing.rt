//! From lists of nodes to a forest.

ghost use Rattle.std.specs.Prelude.{◌≡◌, ℕ, ◌<◌, List, length, map, take, slice_index_or, OnOk};
ghost use Rattle.spd_model.specs.Reduced.{Node as N};
ghost use Rattle.spd_nodes.specs.declared.leaf.Leaf.{Leaf as L};
ghost use Rattle.spd_nodes.specs.Levels.{levels_of, slots};
ghost use Rattle.spd_nodes.specs.Shown.{Shown, IsSound, MakesTree, MakesDiagram};
ghost use Rattle.spd_frozen.specs.Frozen.{IsFrozen};
ghost use Rattle.spd_frozen.specs.Fits.{FitsSizes};
ghost use Rattle.spd_frozen.specs.Mixed.{slotted, on_plain_slot};
ghost use Rattle.spd_frozen.specs.Nodes.{shown};
ghost use Rattle.spd_frozen.specs.Thawing.{frozen_function, mixed_function};
ghost use Rattle.spd_frozen.specs.inner.Thawed.{node_tree, node_at, node_kids, node_slot, kid_trees, tests_from, IsRootOf, HasMade};

use crate::{Frozen, Mixed, MixedNode, Node};
use spd_cons_core::Steps;
use spd_nodes::{Forest, Leaf, Level, Ref, StoreFault};
use std::alloc::Global;
use std::sync::ledger::Ledger;

/// What stands at a node of a list.
#[derive(Clone, Copy)]
enum Root {
    Leaf(Leaf),
    Branch { var: u32, primed: bool },
}

/// A node of a list. Contracts see a branch on the slot of its variable's next or present value.
trait Listed {
    ghost seen: { Self → N L };

    fn root(&self) -> Root
        ensures { IsRootOf (seen self.now) result };

    /// How many kids it has: a leaf has none.
    fn kid_count(&self) -> usize
        ensures { result ≡ length (node_kids (seen self.now)) };

    /// The number of the kid for a value.
    fn kid(&self, value: usize) -> usize
        requires { value < length (node_kids (seen self.now)) }
        ensures { result ≡ slice_index_or (node_kids (seen self.now)) value 0 };
}

impl Listed for Node {
    ghost seen = { λ n. on_plain_slot (shown n) };

    fn root(&self) -> Root {
        match self {
            Node::Leaf(leaf) => Root::Leaf(*leaf),
            Node::Branch { var, .. } => Root::Branch {
                var: *var,
                primed: false,
            },
        }
    }

    fn kid_count(&self) -> usize {
        match self {
            Node::Leaf(_) => 0,
            Node::Branch { kids, .. } => kids.len(),
        }
    }

    fn kid(&self, value: usize) -> usize {
        match self {
            Node::Leaf(_) => unreachable!(),
            Node::Branch { kids, .. } => kids[value] as usize,
        }
    }
}

impl Listed for MixedNode {
    ghost seen = { slotted };

    fn root(&self) -> Root {
        match self {
            MixedNode::Leaf(leaf) => Root::Leaf(*leaf),
            MixedNode::Branch { var, primed, .. } => Root::Branch {
                var: *var,
                primed: *primed,
            },
        }
    }

    fn kid_count(&self) -> usize {
        match self {
            MixedNode::Leaf(_) => 0,
            MixedNode::Branch { kids, .. } => kids.len(),
        }
    }

    fn kid(&self, value: usize) -> usize {
        match self {
            MixedNode::Leaf(_) => unreachable!(),
            MixedNode::Branch { kids, .. } => kids[value] as usize,
        }
    }
}

/// The diagram of a list's function in a forest. The list's variables are those of the forest, and each branch has one kid for
/// each value of its variable. Nodes that the root doesn't reach are passed over; each other one is made once.
///
/// It makes only nodes of its answer. Full comes only where a call of the forest answered Full in this call.
pub fn thaw<F: Forest, L: Ledger>(
    alloc: Global,
    forest: &mut F,
    f: &Frozen,
    steps: &mut Steps<L>,
) -> Result<Ref, StoreFault>
    requires { FitsSizes (F.shows forest.old).sizes f.now }
    ensures made { MakesDiagram (F.shows forest.old) (F.shows forest.new) (frozen_function f.now) result }
    ensures keeps { F.kept forest.new ≡ F.kept forest.old }
{
    let _ = forest.layout();
    thaw_nodes(alloc, forest, f.nodes(), steps)
}

/// The same for a list over present and next values.
pub fn thaw_mixed<F: Forest, L: Ledger>(
    alloc: Global,
    forest: &mut F,
    f: &Mixed,
    steps: &mut Steps<L>,
) -> Result<Ref, StoreFault>
    requires { FitsSizes (slots (F.shows forest.old).sizes) f.now }
    ensures made { MakesDiagram (F.shows forest.old) (F.shows forest.new) (mixed_function f.now) result }
    ensures keeps { F.kept forest.new ≡ F.kept forest.old }
{
    thaw_nodes(alloc, forest, f.nodes(), steps)
}

/// Makes the diagram of the last node of a list.
fn thaw_nodes<F: Forest, M: Listed, L: Ledger>(
    alloc: Global,
    forest: &mut F,
    nodes: &[M],
    steps: &mut Steps<L>,
) -> Result<Ref, StoreFault>
    requires frozen { IsFrozen (map M.seen nodes.now) }
    requires fits { FitsSizes (slots (F.shows forest.old).sizes) (map M.seen nodes.now) }
    ensures made { MakesDiagram (F.shows forest.old) (F.shows forest.new) (mixed_function (map M.seen nodes.now)) result }
    ensures keeps { F.kept forest.new ≡ F.kept forest.old }
{
    let _ = forest.layout();
    match vec![in alloc; None; nodes.len()] {
        Ok(mut made) => make(forest, nodes, nodes.len() - 1, made.as_mut_slice(), steps),
        Err(_) => Err(StoreFault::Memory),
    }
}

/// Makes the diagram of a node, unless it was made. Calls nest at most two deep a variable's present or next value, and one
/// deep a level besides: 912.
#[cycle(make)]
fn make<F: Forest, M: Listed, L: Ledger>(
    forest: &mut F,
    nodes: &[M],
    number: usize,
    made: &mut [Option<Ref>],
    steps: &mut Steps<L>,
) -> Result<Ref, StoreFault>
    requires sound { IsSound (F.shows forest.old) }
    requires frozen { IsFrozen (map M.seen nodes.now) }
    requires fits { FitsSizes (slots (F.shows forest.old).sizes) (map M.seen nodes.now) }
    requires number { number < length nodes.now }
    requires has { HasMade (F.shows forest.old) (map M.seen nodes.now) made.old }
    ensures made { MakesTree (F.shows forest.old) (F.shows forest.new) (node_tree (slots (F.shows forest.old).sizes) (map M.seen nodes.now) number) result }
    ensures keeps { F.kept forest.new ≡ F.kept forest.old }
    ensures has { OnOk result (HasMade (F.shows forest.new) (map M.seen nodes.now) made.new) }
{
    if let Some(r) = made[number] {
        return Ok(r);
    }
    match nodes[number].root() {
        Root::Leaf(leaf) => {
            let r = forest.leaf(leaf, steps)?;
            made[number] = Some(r);
            Ok(r)
        }
        Root::Branch { var, primed } => {
            let (first, _) = forest.layout().tests(var, primed);
            let r = make_tests(forest, nodes, number, first, 0, made, steps)?;
            made[number] = Some(r);
            Ok(r)
        }
    }
}

/// Makes the tests of a branch from a value on, and what follows them. `first` is the number of its variable's first test.
#[cycle(make)]
fn make_tests<F: Forest, M: Listed, L: Ledger>(
    forest: &mut F,
    nodes: &[M],
    number: usize,
    first: u16,
    value: usize,
    made: &mut [Option<Ref>],
    steps: &mut Steps<L>,
) -> Result<Ref, StoreFault>
    requires sound { IsSound (F.shows forest.old) }
    requires frozen { IsFrozen (map M.seen nodes.now) }
    requires fits { FitsSizes (slots (F.shows forest.old).sizes) (map M.seen nodes.now) }
    requires number { number < length nodes.now }
    requires first { first ≡ levels_of (take (node_slot (node_at (map M.seen nodes.now) number)) (slots (F.shows forest.old).sizes)) }
    requires value { value < length (node_kids (node_at (map M.seen nodes.now) number)) }
    requires has { HasMade (F.shows forest.old) (map M.seen nodes.now) made.old }
    ensures made { MakesTree (F.shows forest.old) (F.shows forest.new) (tests_from (kid_trees (slots (F.shows forest.old).sizes) (map M.seen nodes.now) number) first value) result }
    ensures keeps { F.kept forest.new ≡ F.kept forest.old }
    ensures has { OnOk result (HasMade (F.shows forest.new) (map M.seen nodes.now) made.new) }
{
    let kid = make(forest, nodes, nodes[number].kid(value), made, steps)?;
    if value + 1 == nodes[number].kid_count() {
        return Ok(kid);
    }
    let rest = make_tests(forest, nodes, number, first, value + 1, made, steps)?;
    forest.test(Level(first + value as u16), kid, rest, steps)
}
