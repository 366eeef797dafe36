//! Trees as diagrams.

ghost use Rattle.std.specs.Prelude.{◌≡◌, ◌≤◌, ℕ, [], ◌∷◌, ◌++◌, length, map, flat_map, take, All, IfOk};
ghost use Rattle.spd_model.specs.States.{sizes};
ghost use Rattle.spd_nodes.specs.Shown.{Shown, MakesAmong, MakesDiagram};
ghost use Rattle.spd_build.specs.Functions.{constant, tree_function, tree_functions};
ghost use Rattle.spd_build.specs.Fitting.{FitsWith, StandForTrees};
ghost use Rattle.spd_nodes.specs.Made.{MakesAll};

use crate::lists::{push, with_room};
use spd_apply::OpFault;
use spd_model::{Model, Tree};
use spd_nodes::{Forest, Leaf, Ref, Steps};
use spd_restrict::choose;
use std::alloc::Global;
use std::sync::ledger::Ledger;

/// The diagram of one number at all states. It makes only its own node.
pub(crate) fn number<F: Forest, L: Ledger>(
    forest: &mut F,
    x: i128,
    steps: &mut Steps<L>,
) -> Result<Ref, OpFault>
    ensures made { MakesDiagram (F.shows forest.old) (F.shows forest.new) (constant x) result }
    ensures keeps { F.kept forest.new ≡ F.kept forest.old }
{
    let _ = forest.layout();
    forest.leaf(Leaf::Num(x), steps)
}

/// The diagrams of some trees, in order.
#[cycle(tree)]
fn trees_of<F: Forest, L: Ledger>(
    alloc: Global,
    model: &Model,
    forest: &mut F,
    trees: &[Tree],
    dds: &[Ref],
    steps: &mut Steps<L>,
) -> Result<Vec<Ref>, OpFault>
    requires layout { (F.shows forest.old).sizes ≡ sizes model.now }
    requires named { length dds.now ≤ length model.now.dds }
    requires dds { StandForTrees (F.shows forest.old) model.now (take (length dds.now) model.now.dds) dds.now }
    requires fit { All (FitsWith model.now (length dds.now)) trees.now }
    ensures made { MakesAll (F.shows forest.old) (F.shows forest.new) (flat_map (tree_functions model.now) trees.now) result }
    ensures stand { IfOk result (λ refs. StandForTrees (F.shows forest.new) model.now trees.now refs.items) }
    ensures keeps { F.kept forest.new ≡ F.kept forest.old }
{
    let _ = forest.layout();
    let mut refs = with_room(alloc, trees.len())?;
    for tree in trees {
        let made = tree_of(alloc, model, forest, tree, dds, steps)?;
        push(&mut refs, made)?;
    }
    Ok(refs)
}

/// The diagram of a tree's number at each present and next state, in units of 10^-12. `dds` has the diagrams of the model's first
/// decision diagrams, and the tree names none but these.
///
/// It makes only nodes of the tree's functions. Full comes only where a call of the forest answered Full in this call. Calls nest
/// two deep a level of the tree, of which a model has at most 300, and then as deep as those of `choose`.
#[cycle(tree)]
pub fn tree_of<F: Forest, L: Ledger>(
    alloc: Global,
    model: &Model,
    forest: &mut F,
    tree: &Tree,
    dds: &[Ref],
    steps: &mut Steps<L>,
) -> Result<Ref, OpFault>
    requires layout { (F.shows forest.old).sizes ≡ sizes model.now }
    requires named { length dds.now ≤ length model.now.dds }
    requires dds { StandForTrees (F.shows forest.old) model.now (take (length dds.now) model.now.dds) dds.now }
    requires fits { FitsWith model.now (length dds.now) tree.now }
    ensures made { MakesAmong (F.shows forest.old) (F.shows forest.new) (tree_function model.now tree.now) (tree_functions model.now tree.now) result }
    ensures keeps { F.kept forest.new ≡ F.kept forest.old }
{
    let _ = forest.layout();
    // Reading a field tells the proof what every model keeps.
    let _vars = &model.vars;
    match tree {
        Tree::Leaf(x) => number(forest, *x, steps),
        Tree::Named(dd) => Ok(dds[*dd as usize]),
        Tree::Branch { var, primed, kids } => {
            let kids = trees_of(alloc, model, forest, kids.as_slice(), dds, steps)?;
            choose(alloc, forest, *var, *primed, &kids, steps)
        }
    }
}

/// The diagrams of a model's decision diagrams, in order. Each is made once.
pub fn dds_of<F: Forest, L: Ledger>(
    alloc: Global,
    model: &Model,
    forest: &mut F,
    steps: &mut Steps<L>,
) -> Result<Vec<Ref>, OpFault>
    requires layout { (F.shows forest.old).sizes ≡ sizes model.now }
    ensures made { MakesAll (F.shows forest.old) (F.shows forest.new) (flat_map (tree_functions model.now) model.now.dds) result }
    ensures stand { IfOk result (λ refs. StandForTrees (F.shows forest.new) model.now model.now.dds refs.items) }
    ensures keeps { F.kept forest.new ≡ F.kept forest.old }
{
    let _ = forest.layout();
    let trees = model.dds.as_slice();
    let mut dds = with_room(alloc, trees.len())?;
    for tree in trees {
        let made = tree_of(alloc, model, forest, tree, &dds, steps)?;
        push(&mut dds, made)?;
    }
    Ok(dds)
}
