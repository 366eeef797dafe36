//! Tests of the conditions under which a forest's calls, and operations on diagrams, may be called.

ghost use Rattle.std.specs.Prelude.{◌≡◌, ℕ, ◌<◌, ◌↔◌, IsTrue, true};
ghost use Rattle.spd_nodes.specs.Levels.{levels_of, slots};
ghost use Rattle.spd_nodes.specs.Trees.{IsFrom, IsAt, CanTest};
ghost use Rattle.spd_nodes.specs.Shown.{Shown, IsWhole};

use crate::forest::{Forest, Ref, View};
use crate::layout::Level;

/// Whether the root of a diagram is a leaf, or a test of a first value from level `end` on.
fn is_from<F: Forest>(forest: &mut F, r: Ref, end: u16) -> bool
    requires { (F.shows forest.old).knows r ≡ true }
    ensures same { F.shows forest.new ≡ F.shows forest.old }
    ensures keeps { F.kept forest.new ≡ F.kept forest.old }
    ensures from { IsTrue result ↔ IsFrom (slots (F.shows forest.old).sizes) 0 end ((F.shows forest.old).tree r) }
{
    match forest.view(r) {
        View::Leaf(_) => true,
        View::Test { level, .. } => {
            let (_, _, value) = forest.layout().what(level);
            end <= level.0 && value == 0
        }
    }
}

/// Whether the root of a diagram tests this level.
fn is_at<F: Forest>(forest: &mut F, r: Ref, level: u16) -> bool
    requires { (F.shows forest.old).knows r ≡ true }
    ensures same { F.shows forest.new ≡ F.shows forest.old }
    ensures keeps { F.kept forest.new ≡ F.kept forest.old }
    ensures at { IsTrue result ↔ IsAt level ((F.shows forest.old).tree r) }
{
    match forest.view(r) {
        View::Leaf(_) => false,
        View::Test { level: root, .. } => root.0 == level,
    }
}

/// Whether a Ref is whole: its root is a leaf or a test of a first value.
pub fn is_whole<F: Forest>(forest: &mut F, r: Ref) -> bool
    requires { (F.shows forest.old).knows r ≡ true }
    ensures same { F.shows forest.new ≡ F.shows forest.old }
    ensures keeps { F.kept forest.new ≡ F.kept forest.old }
    ensures whole { IsTrue result ↔ IsWhole (F.shows forest.old) r }
{
    is_from(forest, r, 0)
}

/// Whether two Refs may be the children of a test of this level.
pub fn can_test<F: Forest>(forest: &mut F, level: Level, yes: Ref, no: Ref) -> bool
    requires level { level.0 < levels_of (slots (F.shows forest.old).sizes) }
    requires yes { (F.shows forest.old).knows yes ≡ true }
    requires no { (F.shows forest.old).knows no ≡ true }
    ensures same { F.shows forest.new ≡ F.shows forest.old }
    ensures keeps { F.kept forest.new ≡ F.kept forest.old }
    ensures can { IsTrue result ↔ CanTest (slots (F.shows forest.old).sizes) level.0 ((F.shows forest.old).tree yes) ((F.shows forest.old).tree no) }
{
    let end = forest.layout().end(level);
    if !is_from(forest, yes, end) {
        return false;
    }
    if is_from(forest, no, end) {
        return true;
    }
    level.0 + 1 < end && is_at(forest, no, level.0 + 1)
}
