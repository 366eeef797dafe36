//! From a forest to lists of nodes.

ghost use Rattle.std.specs.Prelude.{◌≡◌, ℕ, map, IfOk, List, true};
ghost use Rattle.spd_model.specs.States.{IsState};
ghost use Rattle.spd_nodes.specs.Levels.{levels_of, slots};
ghost use Rattle.spd_nodes.specs.States.{point};
ghost use Rattle.spd_nodes.specs.Trees.{IsAt};
ghost use Rattle.spd_nodes.specs.Shown.{Shown, IsSound, IsWhole, meaning};
ghost use Rattle.spd_frozen.specs.Frozen.{frozen_of, leaf_at};
ghost use Rattle.spd_frozen.specs.Fits.{FitsSizes};
ghost use Rattle.spd_frozen.specs.Freezing.{IsOfPresent};
ghost use Rattle.spd_frozen.specs.Mixed.{all_slotted, slotted, plain_of, mixed_of};
ghost use Rattle.spd_frozen.specs.inner.Completed.{slot_diagram, HoldsNodes, IsCompleted, IsNext, AddsNode};
ghost use Rattle.spd_frozen.specs.inner.Kids.{yes_at, no_at};

use crate::mixed::{Mixed, MixedNode};
use crate::{Frozen, Memory, Node};
use indexmap::IndexSet;
use spd_nodes::{Forest, Leaf, Level, Ref, View};
use std::alloc::{AllocError, Global};

/// The nodes that were completed, in order, with the Ref of each one's diagram at the same place.
#[derive(Drop)]
struct Completed {
    refs: IndexSet<Ref>,
    nodes: Vec<MixedNode>,
}

/// The reduced diagram of a Ref's function as a list of nodes, for a function of the present state: its nodes in the order in
/// which they are first completed, kids in the order of the values, then the branch. It is the list that `of_table` gives for
/// the function's table. It goes once through the nodes that are reached from the Ref; calls nest at most two deep a variable's
/// present or next value.
///
/// The only error is want of memory.
pub fn freeze<F: Forest>(alloc: Global, forest: &mut F, r: Ref) -> Result<Frozen, Memory>
    requires known { (F.shows forest.old).knows r ≡ true }
    requires whole { IsWhole (F.shows forest.old) r }
    requires present { IsOfPresent (F.shows forest.old) r }

    ensures same { F.shows forest.new ≡ F.shows forest.old }
    ensures keeps { F.kept forest.new ≡ F.kept forest.old }
    ensures reduced { IfOk result (λ frozen. frozen ≡ frozen_of (F.shows forest.old).sizes (λ s. meaning (F.shows forest.old) r s s)) }
    ensures function { IfOk result (λ frozen. (s t : List ℕ) → IsState (F.shows forest.old).sizes s → IsState (F.shows forest.old).sizes t → leaf_at frozen s ≡ meaning (F.shows forest.old) r s t) }
    ensures fits { IfOk result (λ frozen. FitsSizes (F.shows forest.old).sizes frozen) }
{
    let nodes = complete_all(alloc, forest, r)?;
    Ok(Frozen::of_nodes(plain_nodes(alloc, nodes)?))
}

/// The same for any function of the present and the next state. A branch on a variable's next value comes before one on its
/// present value.
///
/// The only error is want of memory.
pub fn freeze_mixed<F: Forest>(alloc: Global, forest: &mut F, r: Ref) -> Result<Mixed, Memory>
    requires known { (F.shows forest.old).knows r ≡ true }
    requires whole { IsWhole (F.shows forest.old) r }

    ensures same { F.shows forest.new ≡ F.shows forest.old }
    ensures keeps { F.kept forest.new ≡ F.kept forest.old }
    ensures reduced { IfOk result (λ frozen. frozen ≡ mixed_of (F.shows forest.old).sizes (meaning (F.shows forest.old) r)) }
    ensures function { IfOk result (λ frozen. (s t : List ℕ) → IsState (F.shows forest.old).sizes s → IsState (F.shows forest.old).sizes t → leaf_at frozen (point s t) ≡ meaning (F.shows forest.old) r s t) }
    ensures fits { IfOk result (λ frozen. FitsSizes (slots (F.shows forest.old).sizes) frozen) }
{
    Ok(Mixed::of_nodes(complete_all(alloc, forest, r)?))
}

/// The nodes of a Ref's diagram in order of first completion.
fn complete_all<F: Forest>(alloc: Global, forest: &mut F, r: Ref) -> Result<Vec<MixedNode>, Memory>
    requires known { (F.shows forest.old).knows r ≡ true }
    requires whole { IsWhole (F.shows forest.old) r }
    ensures same { F.shows forest.new ≡ F.shows forest.old }
    ensures keeps { F.kept forest.new ≡ F.kept forest.old }
    ensures layout { IsSound (F.shows forest.old) }
    ensures reduced { IfOk result (λ nodes. all_slotted nodes.items ≡ mixed_of (F.shows forest.old).sizes (meaning (F.shows forest.old) r)) }
{
    let _ = forest.layout();
    let mut done = Completed {
        refs: IndexSet::new(alloc),
        nodes: Vec::new(alloc),
    };
    complete(alloc, forest, r, &mut done)?;
    Ok(done.nodes)
}

/// Completes the nodes of a diagram, and answers the number of its root.
#[cycle(complete)]
fn complete<F: Forest>(
    alloc: Global,
    forest: &mut F,
    r: Ref,
    done: &mut Completed,
) -> Result<u32, Memory>
    requires sound { IsSound (F.shows forest.old) }
    requires known { (F.shows forest.old).knows r ≡ true }
    requires whole { IsWhole (F.shows forest.old) r }
    requires holds { HoldsNodes (F.shows forest.old) done.old.refs.keys (all_slotted done.old.nodes.items) }
    ensures same { F.shows forest.new ≡ F.shows forest.old }
    ensures keeps { F.kept forest.new ≡ F.kept forest.old }
    ensures ok { IfOk result (λ number. IsCompleted (F.shows forest.old) (all_slotted done.old.nodes.items) done.new.refs.keys (all_slotted done.new.nodes.items) (slot_diagram (F.shows forest.old) r) number) }
{
    if let Some(number) = done.refs.get_index_of(&r) {
        return number_of(number);
    }
    match forest.view(r) {
        View::Leaf(leaf) => add(done, r, MixedNode::Leaf(leaf)),
        View::Test { level, .. } => {
            let node = branch(alloc, forest, r, level, done)?;
            add(done, r, node)
        }
    }
}

/// Completes what follows the values at the root of a diagram, which tests this level, and answers the root's node.
#[cycle(complete)]
fn branch<F: Forest>(
    alloc: Global,
    forest: &mut F,
    r: Ref,
    level: Level,
    done: &mut Completed,
) -> Result<MixedNode, Memory>
    requires sound { IsSound (F.shows forest.old) }
    requires known { (F.shows forest.old).knows r ≡ true }
    requires whole { IsWhole (F.shows forest.old) r }
    requires at { IsAt level.0 ((F.shows forest.old).tree r) }
    requires holds { HoldsNodes (F.shows forest.old) done.old.refs.keys (all_slotted done.old.nodes.items) }
    ensures same { F.shows forest.new ≡ F.shows forest.old }
    ensures keeps { F.kept forest.new ≡ F.kept forest.old }
    ensures ok { IfOk result (λ node. IsNext (F.shows forest.old) (all_slotted done.old.nodes.items) done.new.refs.keys (all_slotted done.new.nodes.items) (slot_diagram (F.shows forest.old) r) (slotted node)) }
{
    let (var, primed, _) = forest.layout().what(level);
    let end = forest.layout().end(level);
    let mut kids = Vec::with_capacity(alloc, (end - level.0) as usize + 1)?;
    let mut rest = r;
    for test in level.0..end {
        let (yes, no) = halves(forest, rest, Level(test));
        kids.push(complete(alloc, forest, yes, done)?)?;
        rest = no;
    }
    kids.push(complete(alloc, forest, rest, done)?)?;
    Ok(MixedNode::Branch { var, primed, kids })
}

/// Where a diagram goes on if the test of a level holds, and if it doesn't: both are the diagram itself where its root isn't
/// that test.
fn halves<F: Forest>(forest: &mut F, r: Ref, at: Level) -> (Ref, Ref)
    requires known { (F.shows forest.old).knows r ≡ true }
    ensures same { F.shows forest.new ≡ F.shows forest.old }
    ensures keeps { F.kept forest.new ≡ F.kept forest.old }
    ensures yes_known { (F.shows forest.old).knows result.0 ≡ true }
    ensures no_known { (F.shows forest.old).knows result.1 ≡ true }
    ensures yes { (F.shows forest.old).tree result.0 ≡ yes_at at.0 ((F.shows forest.old).tree r) }
    ensures no { (F.shows forest.old).tree result.1 ≡ no_at at.0 ((F.shows forest.old).tree r) }
{
    match forest.view(r) {
        View::Test { level, yes, no } if level.0 == at.0 => (yes, no),
        _ => (r, r),
    }
}

/// Puts the node of a Ref's diagram in the last place, unless it is there, and answers its number.
fn add(done: &mut Completed, r: Ref, node: MixedNode) -> Result<u32, Memory>
    ensures { IfOk result (λ place. AddsNode done.old.refs.keys done.new.refs.keys (all_slotted done.old.nodes.items) (all_slotted done.new.nodes.items) r (slotted node) place) }
{
    match done.refs.insert_full(r) {
        Ok((place, true)) => {
            done.nodes.push(node)?;
            number_of(place)
        }
        Ok((place, false)) => number_of(place),
        Err(_) => Err(AllocError),
    }
}

/// A place as a number. No forest has more Refs than there are numbers.
fn number_of(place: usize) -> Result<u32, Memory>
    ensures { IfOk result (λ number. number ≡ place) }
{
    match u32::try_from(place) {
        Ok(number) => Ok(number),
        Err(_) => Err(AllocError),
    }
}

/// A node whose branch is on a present value.
fn plain_node(node: MixedNode) -> Node
    ensures { result ≡ plain_of node }
{
    match node {
        MixedNode::Leaf(leaf) => Node::Leaf(leaf),
        MixedNode::Branch { var, kids, .. } => Node::Branch { var, kids },
    }
}

/// Nodes whose branches are all on present values.
fn plain_nodes(alloc: Global, nodes: Vec<MixedNode>) -> Result<Vec<Node>, Memory>
    ensures { IfOk result (λ plain. plain.items ≡ map plain_of nodes.items) }
{
    nodes
        .into_iter()
        .map(|node| plain_node(node))
        .collect(alloc)
}
