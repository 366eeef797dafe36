//! The first present state at which a diagram has a leaf that is wanted.

ghost use Rattle.std.specs.Prelude.{◌≡◌, ◌<◌, ◌+◌, ◌++◌, ◌∷◌, [], ℕ, IfOk, true, length, slice_index, is_some, Some};
ghost use Rattle.spd_nodes.specs.Shown.{Shown, IsSound, IsWhole, meaning};
ghost use Rattle.spd_search.specs.Found.{first_found};
ghost use Rattle.spd_search.specs.inner.Looking.{leaf_in, leaf_under};
ghost use Rattle.spd_search.specs.inner.Barren.{AreBarren};
ghost use Rattle.spd_search.specs.inner.Settling.{AreFirst, Settles};

use crate::Memory;
use crate::looking::{leaf_in, leaf_under};
use crate::wanted::Wanted;
use spd_model::State;
use spd_nodes::{Forest, Leaf, Ref, Refs};
use std::alloc::Global;

/// Where a leaf that is wanted was found.
#[derive(Debug, Drop)]
pub struct Found {
    /// The present state.
    pub state: State,
    /// The leaf there.
    pub leaf: Leaf,
}

/// The first present state, in the order of the states, at which a Ref's function has a leaf that is wanted at some next state, and
/// the leaf there at the first such next state. None where it has no such leaf at all. It makes no node.
///
/// It goes once through the nodes that are reached from the Ref where none is wanted. Else it follows the values that a variable
/// may have, one variable after the other, and goes again only through the nodes before that variable.
///
/// The only error is want of memory.
pub fn first_found<F: Forest, W: Wanted>(
    alloc: Global,
    forest: &mut F,
    r: Ref,
    wanted: &W,
) -> Result<Option<Found>, Memory>
    requires known { (F.shows forest.old).knows r ≡ true }
    requires whole { IsWhole (F.shows forest.old) r }
    ensures same { F.shows forest.new ≡ F.shows forest.old }
    ensures keeps { F.kept forest.new ≡ F.kept forest.old }
    ensures found { IfOk result (λ found. found ≡ first_found (F.shows forest.old).sizes (W.wants wanted.now) (meaning (F.shows forest.old) r)) }
{
    let _ = forest.layout();
    let mut barren = Refs::new(alloc);
    match leaf_in(forest, r, wanted, &mut barren)? {
        None => Ok(None),
        Some(leaf) => {
            let found = settle_all(alloc, forest, r, wanted, &mut barren, leaf)?;
            Ok(Some(found))
        }
    }
}

/// Where a diagram that has a leaf that is wanted has it first.
fn settle_all<F: Forest, W: Wanted>(
    alloc: Global,
    forest: &mut F,
    r: Ref,
    wanted: &W,
    barren: &mut Refs,
    leaf: Leaf,
) -> Result<Found, Memory>
    requires sound { IsSound (F.shows forest.old) }
    requires known { (F.shows forest.old).knows r ≡ true }
    requires whole { IsWhole (F.shows forest.old) r }
    requires barren { AreBarren (leaf_in (W.wants wanted.now)) (F.shows forest.old) barren.old }
    requires some { leaf_in (W.wants wanted.now) ((F.shows forest.old).tree r) ≡ Some leaf }
    ensures same { F.shows forest.new ≡ F.shows forest.old }
    ensures keeps { F.kept forest.new ≡ F.kept forest.old }
    ensures found { IfOk result (λ found. Some found ≡ first_found (F.shows forest.old).sizes (W.wants wanted.now) (meaning (F.shows forest.old) r)) }
{
    let variables = forest.layout().sizes().len();
    let mut first = Vec::with_capacity(alloc, variables)?;
    let mut leaf = leaf;
    for var in 0..variables {
        let values = forest.layout().sizes()[var];
        leaf = settle(alloc, forest, r, wanted, barren, values, &mut first)?;
    }
    Ok(Found {
        state: State::of(&first),
        leaf,
    })
}

/// Gives the next variable, which has so many values, the first one at which a diagram has a leaf that is wanted, at present states
/// that begin with the values so far and this one. The answer is the first such leaf, in the order of the next states. There is one,
/// since there is one by the values so far.
fn settle<F: Forest, W: Wanted>(
    alloc: Global,
    forest: &mut F,
    r: Ref,
    wanted: &W,
    barren: &mut Refs,
    values: u8,
    first: &mut Vec<u8>,
) -> Result<Leaf, Memory>
    requires sound { IsSound (F.shows forest.old) }
    requires known { (F.shows forest.old).knows r ≡ true }
    requires whole { IsWhole (F.shows forest.old) r }
    requires barren { AreBarren (leaf_in (W.wants wanted.now)) (F.shows forest.old) barren.old }
    requires first { AreFirst (F.shows forest.old).sizes first.old.items }
    requires var { length first.old.items < length (F.shows forest.old).sizes }
    requires values { values ≡ slice_index (F.shows forest.old).sizes (length first.old.items) }
    requires some { is_some (leaf_under (F.shows forest.old).sizes (W.wants wanted.now) first.old.items ((F.shows forest.old).tree r)) ≡ true }
    ensures same { F.shows forest.new ≡ F.shows forest.old }
    ensures keeps { F.kept forest.new ≡ F.kept forest.old }
    ensures barren { AreBarren (leaf_in (W.wants wanted.now)) (F.shows forest.old) barren.new }
    ensures ok { IfOk result (λ leaf. Settles (F.shows forest.old).sizes (W.wants wanted.now) ((F.shows forest.old).tree r) first.old.items first.new.items leaf) }
{
    for value in 0..values {
        first.push(value)?;
        let mut barren_here = Refs::new(alloc);
        let found = leaf_under(forest, r, first, wanted, barren, &mut barren_here)?;
        if let Some(leaf) = found {
            return Ok(leaf);
        }
        first.pop();
    }
    unreachable!()
}
