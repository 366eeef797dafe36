//! The lines of a diagram's nodes.
ghost use Rattle.std.specs.Prelude.{◌≡◌, ◌++◌, [], ◌∷◌, map, codes, decimal};
ghost use Rattle.spd_model.specs.ResultText.{line, node_line, nodes_text, var_name as var_text};
ghost use Rattle.spd_frozen.specs.Nodes.{shown as node_of};
ghost use Rattle.spd_text.specs.inner.Pieces.{shown, spaced, leaf_text, Writes};

use crate::names::{action_name, var_name};
use crate::waiting::{Waiting, put, put_all};
use itoa::Buffer;
use spd_edge::{Failed, Sink};
use spd_frozen::{Frozen, Node};
use spd_model::Model;
use spd_nodes::Leaf;
use spd_scaled::put_units;

/// Writes the lines of a diagram: a word and the number of its nodes, and a line for each node.
pub(crate) fn put_nodes<K: Sink>(
    k: &mut K,
    waiting: &mut Waiting,
    model: &Model,
    word: &[u8],
    frozen: &Frozen,
) -> Result<(), Failed>
    ensures { Writes (shown K.taken K.faults K.name k.old) waiting.old (nodes_text (leaf_text model.now) (var_text model.now) word.now frozen.now) result (shown K.taken K.faults K.name k.new) waiting.new }
{
    let nodes = frozen.nodes();
    let mut digits = Buffer::new();
    let count = digits.format(nodes.len()).as_bytes();
    put_all(k, waiting, &[word, b" ", count, b"\n"])?;
    for (number, node) in nodes.iter().enumerate() {
        put_node(k, waiting, model, number, node)?;
    }
    Ok(())
}

/// Writes the line of a node.
fn put_node<K: Sink>(
    k: &mut K,
    waiting: &mut Waiting,
    model: &Model,
    number: usize,
    node: &Node,
) -> Result<(), Failed>
    ensures { Writes (shown K.taken K.faults K.name k.old) waiting.old (node_line (leaf_text model.now) (var_text model.now) number (node_of node.now)) result (shown K.taken K.faults K.name k.new) waiting.new }
{
    let mut digits = Buffer::new();
    let number = digits.format(number).as_bytes();
    match node {
        Node::Leaf(leaf) => put_leaf(k, waiting, model, number, *leaf),
        Node::Branch { var, kids } => put_branch(k, waiting, number, var_name(model, *var), kids),
    }
}

/// Writes the line of a leaf: its number, and a number of units or the name of an action.
fn put_leaf<K: Sink>(
    k: &mut K,
    waiting: &mut Waiting,
    model: &Model,
    number: &[u8],
    leaf: Leaf,
) -> Result<(), Failed>
    ensures { Writes (shown K.taken K.faults K.name k.old) waiting.old (line (number.now ∷ codes "leaf" ∷ leaf_text model.now leaf ∷ [])) result (shown K.taken K.faults K.name k.new) waiting.new }
{
    match leaf {
        Leaf::Num(n) => {
            let mut units = [0; 64];
            let len = put_units(n, 9, &mut units);
            put_leaf_text(k, waiting, number, &units[..len])
        }
        Leaf::Pair(_, _) => put_leaf_text(k, waiting, number, b""),
        Leaf::Act(action) => put_leaf_text(k, waiting, number, action_name(model, action)),
    }
}

/// Writes the line of a leaf with this text.
fn put_leaf_text<K: Sink>(
    k: &mut K,
    waiting: &mut Waiting,
    number: &[u8],
    text: &[u8],
) -> Result<(), Failed>
    ensures { Writes (shown K.taken K.faults K.name k.old) waiting.old (line (number.now ∷ codes "leaf" ∷ text.now ∷ [])) result (shown K.taken K.faults K.name k.new) waiting.new }
{
    put_all(k, waiting, &[number, b" leaf ", text, b"\n"])
}

/// Writes the line of a branch: its number, its variable, and the numbers of its kids.
fn put_branch<K: Sink>(
    k: &mut K,
    waiting: &mut Waiting,
    number: &[u8],
    var: &[u8],
    kids: &[u32],
) -> Result<(), Failed>
    ensures { Writes (shown K.taken K.faults K.name k.old) waiting.old (line (number.now ∷ codes "branch" ∷ var.now ∷ map decimal kids.now)) result (shown K.taken K.faults K.name k.new) waiting.new }
{
    put_all(k, waiting, &[number, b" branch ", var])?;
    put_kids(k, waiting, kids)?;
    put(k, waiting, b"\n")
}

/// Writes the numbers of a branch's kids, each behind a space.
fn put_kids<K: Sink>(k: &mut K, waiting: &mut Waiting, kids: &[u32]) -> Result<(), Failed>
    ensures { Writes (shown K.taken K.faults K.name k.old) waiting.old (spaced (map decimal kids.now)) result (shown K.taken K.faults K.name k.new) waiting.new }
{
    for kid in kids {
        let mut digits = Buffer::new();
        let number = digits.format(*kid).as_bytes();
        put_all(k, waiting, &[b" ", number])?;
    }
    Ok(())
}
