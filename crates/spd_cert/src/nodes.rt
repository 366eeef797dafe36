//! The lines of a diagram.

ghost use Rattle.std.specs.Prelude.{◌≡◌, ◌<◌, ◌≤◌, ◌^◌, [], length, IfOk};
ghost use Rattle.spd_model.specs.States.{sizes};
ghost use Rattle.spd_frozen.specs.Nodes.{shown, all_shown};
ghost use Rattle.spd_frozen.specs.Frozen.{IsFrozen};
ghost use Rattle.spd_cert.specs.Words.{follows, leaf_of, part_word};
ghost use Rattle.spd_cert.specs.Reading.{Gives, seen, followed_by, kid_of, kid_at, kids_at, kid_ender, leaf_kind, leaf_at, branch_at, node_at, nodes_at, list_at};

use crate::ending::{Ending, Kind, stop_at};
use crate::names::{action_number, var_number};
use crate::numbers::{is_whole, number_below, value_of, whole_in};
use crate::word::{Ender, Word, field, word_at};
use itoa::Buffer;
use spd_frozen::Node;
use spd_model::Model;
use spd_nodes::Leaf;
use std::alloc::Global;

/// The two diagrams of a certificate.
#[derive(Clone, Copy, PartialEq, Eq, Debug)]
pub(crate) enum Part {
    Value,
    Policy,
}

/// The fewest bytes that the line of a node has, as `0 leaf 1` and LF.
const SHORTEST_LINE: usize = 9;

/// The leaf that a word says.
fn leaf_of(model: &Model, part: Part, text: &[u8]) -> Option<Leaf>
    ensures { result ≡ leaf_of model.now part text.now }
{
    match part {
        Part::Value => Some(Leaf::Num(value_of(text)?)),
        Part::Policy => Some(Leaf::Act(action_number(model, text)?)),
    }
}

/// What is wrong with a word that says no leaf.
fn leaf_kind(part: Part) -> Kind
    ensures { result ≡ leaf_kind part }
{
    match part {
        Part::Value => Kind::Number,
        Part::Policy => Kind::Unknown,
    }
}

/// The end of a line of a leaf.
#[tactic(auto, unfolding(crate::specs::Reading::leaf_at))]
fn leaf_at<'f>(model: &Model, part: Part, bytes: &'f [u8]) -> Result<(Node, &'f [u8]), Ending>
    ensures { Gives (λ x. (shown x.0, x.1.now)) result (leaf_at model.now part bytes.now) }
{
    let word = word_at(bytes)?;
    let leaf = word.wanted(leaf_of(model, part, word.text), leaf_kind(part))?;
    Ok((Node::Leaf(leaf), word.ends()?))
}

/// Whether a node may be a kid of a branch on a variable.
fn follows(var: u32, node: &Node) -> bool
    ensures { result ≡ follows var (shown node.now) }
{
    match node {
        Node::Leaf(_) => true,
        Node::Branch { var: own, .. } => var < *own,
    }
}

/// The number of a kid that a word says, of a branch on a variable behind these nodes.
#[tactic(auto, unfolding(crate::specs::Reading::kid_of))]
fn kid_of(nodes: &[Node], var: u32, word: &Word<'_>) -> Result<u32, Ending>
    requires few { length nodes.now < 2 ^ 32 }
    ensures { Gives (λ kid. kid) result (kid_of (all_shown nodes.now) var (seen word.now)) }
{
    if !is_whole(word.text) {
        return Err(word.refused(Kind::Number));
    }
    let Some(kid) = number_below(nodes.len(), word.text) else {
        return Err(stop_at(Kind::Order, word.left));
    };
    if !follows(var, &nodes[kid as usize]) {
        return Err(stop_at(Kind::Order, word.left));
    }
    Ok(kid)
}

/// The next kid of a branch, whose word ends so.
#[tactic(auto, unfolding(crate::specs::Reading::kid_at))]
fn kid_at<'f>(
    nodes: &[Node],
    var: u32,
    ender: Ender,
    bytes: &'f [u8],
) -> Result<(u32, &'f [u8]), Ending>
    requires few { length nodes.now < 2 ^ 32 }
    ensures { Gives (λ x. (x.0, x.1.now)) result (kid_at (all_shown nodes.now) var ender bytes.now) }
{
    let word = word_at(bytes)?;
    let kid = kid_of(nodes, var, &word)?;
    Ok((kid, word.followed_by(ender)?))
}

/// What ends the word of a kid, behind which so many more stand.
fn kid_ender(more: usize) -> Ender
    ensures { result ≡ kid_ender more }
{
    if more == 0 { Ender::Line } else { Ender::Space }
}

/// The kids of a branch on a variable of so many values.
fn kids_at<'f>(
    alloc: Global,
    nodes: &[Node],
    var: u32,
    size: usize,
    bytes: &'f [u8],
) -> Result<(Vec<u32>, &'f [u8]), Ending>
    requires few { length nodes.now < 2 ^ 32 }
    ensures { Gives (λ x. (x.0.items, x.1.now)) result (kids_at (all_shown nodes.now) var size [] bytes.now) }
{
    let mut kids = Vec::with_capacity(alloc, size)?;
    let mut rest = bytes;
    for before in 0..size {
        let (kid, behind) = kid_at(nodes, var, kid_ender(size - 1 - before), rest)?;
        kids.push(kid)?;
        rest = behind;
    }
    Ok((kids, rest))
}

/// The end of a line of a branch.
#[tactic(auto, unfolding(crate::specs::Reading::branch_at))]
fn branch_at<'f>(
    alloc: Global,
    model: &Model,
    nodes: &[Node],
    bytes: &'f [u8],
) -> Result<(Node, &'f [u8]), Ending>
    requires few { length nodes.now < 2 ^ 32 }
    ensures { Gives (λ x. (shown x.0, x.1.now)) result (branch_at model.now (all_shown nodes.now) bytes.now) }
{
    let word = word_at(bytes)?;
    let var = word.wanted(var_number(model, word.text), Kind::Unknown)?;
    let size = model.vars.as_slice()[var as usize].values.len();
    let (kids, rest) = kids_at(alloc, nodes, var, size, word.goes_on()?)?;
    Ok((Node::Branch { var, kids }, rest))
}

/// The line of the node behind these nodes.
#[tactic(auto, unfolding(crate::specs::Reading::node_at))]
fn node_at<'f>(
    alloc: Global,
    model: &Model,
    part: Part,
    nodes: &[Node],
    bytes: &'f [u8],
) -> Result<(Node, &'f [u8]), Ending>
    requires few { length nodes.now < 2 ^ 32 }
    ensures { Gives (λ x. (shown x.0, x.1.now)) result (node_at model.now part (all_shown nodes.now) bytes.now) }
{
    let mut digits = Buffer::new();
    let word = field(digits.format(nodes.len()).as_bytes(), bytes)?;
    if word.text == b"leaf".as_slice() {
        return leaf_at(model, part, word.goes_on()?);
    }
    if word.text == b"branch".as_slice() {
        return branch_at(alloc, model, nodes, word.goes_on()?);
    }
    Err(stop_at(Kind::Expected, word.left))
}

/// The lines of so many nodes.
fn nodes_at<'f>(
    alloc: Global,
    model: &Model,
    part: Part,
    count: u32,
    bytes: &'f [u8],
) -> Result<(Vec<Node>, &'f [u8]), Ending>
    ensures { Gives (λ x. (all_shown x.0.items, x.1.now)) result (nodes_at model.now part count [] bytes.now) }
{
    // The count is only a word: no more memory is asked for than lines can follow.
    let room = (count as usize).min(bytes.len() / SHORTEST_LINE);
    let mut nodes = Vec::with_capacity(alloc, room)?;
    let mut rest = bytes;
    for _ in 0..count {
        let (node, behind) = node_at(alloc, model, part, nodes.as_slice(), rest)?;
        nodes.push(node)?;
        rest = behind;
    }
    Ok((nodes, rest))
}

/// The word before the nodes of a diagram.
fn part_word(part: Part) -> &'static [u8]
    ensures { result.now ≡ part_word part }
{
    match part {
        Part::Value => b"value",
        Part::Policy => b"policy",
    }
}

/// The lines of a diagram.
#[tactic(auto, unfolding(crate::specs::Reading::list_at, crate::specs::Reading::field_at))]
pub(crate) fn list_at<'f>(
    alloc: Global,
    model: &Model,
    part: Part,
    bytes: &'f [u8],
) -> Result<(Vec<Node>, &'f [u8]), Ending>
    ensures { Gives (λ x. (all_shown x.0.items, x.1.now)) result (list_at model.now part bytes.now) }
{
    let word = field(part_word(part), bytes)?;
    let count = word.wanted(whole_in(1, 999_999_999, word.text), Kind::Number)?;
    nodes_at(alloc, model, part, count, word.ends()?)
}
