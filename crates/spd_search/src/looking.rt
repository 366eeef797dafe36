//! Looking for a leaf along a diagram, where the first values of the present state are given.

ghost use Rattle.std.specs.Prelude.{◌≡◌, ◌<◌, ℕ, IfOk, true};
ghost use Rattle.spd_nodes.specs.Levels.{levels_of, slots};
ghost use Rattle.spd_nodes.specs.Shown.{Shown, IsSound};
ghost use Rattle.spd_search.specs.inner.Looking.{leaf_in, leaf_under, turn_of, if_wanted};
ghost use Rattle.spd_search.specs.inner.Barren.{AreBarren, NotesBarren};

use crate::Memory;
use crate::wanted::Wanted;
use spd_nodes::{Forest, Layout, Leaf, Level, Ref, Refs, View};

/// Where a test leads at present states of which the first values are given.
enum Turn {
    /// It is past the variables whose values are given, and so is all that follows.
    Free,
    /// It asks for a next value: to both sides.
    Both,
    /// To the side where it holds.
    Yes,
    /// To the side where it doesn't.
    No,
}

/// Where the test of a level leads at present states that begin with these values.
fn turn_of(layout: &Layout, first: &[u8], level: Level) -> Turn
    requires { level.0 < levels_of (slots layout.now) }
    ensures { result ≡ turn_of layout.now first.now level.0 }
{
    let (var, primed, value) = layout.what(level);
    match first.get(var as usize) {
        None => Turn::Free,
        Some(_) if primed => Turn::Both,
        Some(given) if *given == value => Turn::Yes,
        Some(_) => Turn::No,
    }
}

/// A leaf, where it is wanted.
fn if_wanted<W: Wanted>(wanted: &W, leaf: Leaf) -> Option<Leaf>
    ensures { result ≡ if_wanted (W.wants wanted.now) leaf }
{
    if wanted.is_wanted(leaf) {
        Some(leaf)
    } else {
        None
    }
}

/// What was found below a Ref, which is kept where that is nothing.
fn noted(barren: &mut Refs, r: Ref, found: Option<Leaf>) -> Result<Option<Leaf>, Memory>
    ensures notes { NotesBarren barren.old barren.new r found }
    ensures ok { IfOk result (λ answer. answer ≡ found) }
{
    if found.is_none() {
        barren.add(r)?;
    }
    Ok(found)
}

/// The first leaf of a diagram that is wanted, the side where a test holds first. It goes at most once below a Ref that has none:
/// those are kept. Calls nest at most as deep as there are levels: 512.
pub fn leaf_in<F: Forest, W: Wanted>(
    forest: &mut F,
    r: Ref,
    wanted: &W,
    barren: &mut Refs,
) -> Result<Option<Leaf>, Memory>
    requires sound { IsSound (F.shows forest.old) }
    requires known { (F.shows forest.old).knows r ≡ true }
    requires barren { AreBarren (leaf_in (W.wants wanted.now)) (F.shows forest.old) barren.old }
    ensures same { F.shows forest.new ≡ F.shows forest.old }
    ensures keeps { F.kept forest.new ≡ F.kept forest.old }
    ensures barren { AreBarren (leaf_in (W.wants wanted.now)) (F.shows forest.old) barren.new }
    ensures ok { IfOk result (λ found. found ≡ leaf_in (W.wants wanted.now) ((F.shows forest.old).tree r)) }
{
    if barren.contains(r) {
        return Ok(None);
    }
    match forest.view(r) {
        View::Leaf(leaf) => Ok(if_wanted(wanted, leaf)),
        View::Test { yes, no, .. } => {
            if let Some(leaf) = leaf_in(forest, yes, wanted, barren)? {
                return Ok(Some(leaf));
            }
            let found = leaf_in(forest, no, wanted, barren)?;
            noted(barren, r, found)
        }
    }
}

/// The first leaf of a diagram that is wanted at present states that begin with these values, in the order of the next states.
/// `barren` keeps the Refs that have none at any state, and `barren_here` those that have none at these. Calls nest at most as deep
/// as there are levels: 512.
pub fn leaf_under<F: Forest, W: Wanted>(
    forest: &mut F,
    r: Ref,
    first: &[u8],
    wanted: &W,
    barren: &mut Refs,
    barren_here: &mut Refs,
) -> Result<Option<Leaf>, Memory>
    requires sound { IsSound (F.shows forest.old) }
    requires known { (F.shows forest.old).knows r ≡ true }
    requires barren { AreBarren (leaf_in (W.wants wanted.now)) (F.shows forest.old) barren.old }
    requires here { AreBarren (leaf_under (F.shows forest.old).sizes (W.wants wanted.now) first.now) (F.shows forest.old) barren_here.old }
    ensures same { F.shows forest.new ≡ F.shows forest.old }
    ensures keeps { F.kept forest.new ≡ F.kept forest.old }
    ensures barren { AreBarren (leaf_in (W.wants wanted.now)) (F.shows forest.old) barren.new }
    ensures here { AreBarren (leaf_under (F.shows forest.old).sizes (W.wants wanted.now) first.now) (F.shows forest.old) barren_here.new }
    ensures ok { IfOk result (λ found. found ≡ leaf_under (F.shows forest.old).sizes (W.wants wanted.now) first.now ((F.shows forest.old).tree r)) }
{
    if barren_here.contains(r) {
        return Ok(None);
    }
    match forest.view(r) {
        View::Leaf(leaf) => Ok(if_wanted(wanted, leaf)),
        View::Test { level, yes, no } => {
            let found = match turn_of(forest.layout(), first, level) {
                Turn::Free => return leaf_in(forest, r, wanted, barren),
                Turn::Yes => leaf_under(forest, yes, first, wanted, barren, barren_here)?,
                Turn::No => leaf_under(forest, no, first, wanted, barren, barren_here)?,
                Turn::Both => {
                    match leaf_under(forest, yes, first, wanted, barren, barren_here)? {
                        Some(leaf) => return Ok(Some(leaf)),
                        None => leaf_under(forest, no, first, wanted, barren, barren_here)?,
                    }
                }
            };
            noted(barren_here, r, found)
        }
    }
}
