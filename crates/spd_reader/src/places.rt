//! Trees in their places: one for each value of a variable, or for each variable of an action.

ghost use Rattle.std.specs.Prelude.{◌≡◌, ◌<◌, length, IfOk, IfSome, slice_index_or, is_some, is_none, None, position};
ghost use Rattle.std.specs.List.{list_any};
ghost use Rattle.spd_reader.specs.Faults.{least};
ghost use Rattle.spd_reader.specs.Trees.{no_trees, put, trees_of, place_faults};

use crate::faults::{note, note_if};
use spd_model::Tree;
use spd_syntax::Refusal;
use sqlite_items::Items;
use std::alloc::{AllocError, Global};

/// So many places in which no tree stands.
pub(crate) fn no_trees(alloc: Global, count: u32) -> Result<Vec<Option<Tree>>, AllocError>
    ensures { IfOk result (λ places. places.items ≡ no_trees count) }
{
    let mut places = Vec::new(alloc);
    for _ in 0..count {
        places.push(None)?;
    }
    Ok(places)
}

/// Puts a tree in its place, where it has one.
pub(crate) fn put(places: &mut Vec<Option<Tree>>, place: Option<u32>, tree: Tree)
    ensures { places.new.items ≡ put places.old.items place tree }
{
    if let Some(place) = place {
        let at = place as usize;
        if at < places.len() {
            places[at] = Some(tree);
        }
    }
}

fn stands(places: &[Option<Tree>], at: u32) -> bool
    ensures { result ≡ is_some (slice_index_or places.now at None) }
{
    let at = at as usize;
    at < places.len() && places[at].is_some()
}

/// Notes the fault of a name for whose place a tree follows.
#[tactic(auto, unfolding(crate::specs::Faults::least))]
pub(crate) fn note_place(
    found: &mut Option<Refusal>,
    places: &[Option<Tree>],
    at: usize,
    place: Option<u32>,
)
    ensures { found.new ≡ least found.old (place_faults places.now at place) }
{
    match place {
        None => note(found, Refusal::Unknown { at }),
        Some(place) => note_if(found, stands(places, place), Refusal::Twice { at }),
    }
}

/// Whether a place has no tree.
pub(crate) fn has_gap(places: &[Option<Tree>]) -> bool
    ensures { result ≡ list_any is_none places.now }
{
    places.iter().any(|place| place.is_none())
}

/// The first place that has no tree.
pub(crate) fn first_gap(places: &[Option<Tree>]) -> Option<usize>
    ensures at { result ≡ position is_none places.now }
    ensures within { IfSome result (λ at. at < length places.now) }
{
    places.iter().position(|place| place.is_none())
}

/// The trees of all places, with a number where none stands.
pub(crate) fn trees_of(alloc: Global, places: Vec<Option<Tree>>) -> Result<Items<Tree>, AllocError>
    ensures { IfOk result (λ trees. trees ≡ trees_of places.items) }
{
    let mut trees = Items::new(alloc);
    for place in places {
        trees.push(place.unwrap_or(Tree::Leaf(0)))?;
    }
    Ok(trees)
}
