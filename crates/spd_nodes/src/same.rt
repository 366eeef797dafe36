//! Whether two Refs stand for one function.

ghost use Rattle.std.specs.Prelude.{◌≡◌, ℕ, ◌↔◌, IsTrue, true};
ghost use Rattle.spd_nodes.specs.Trees.{IsAt};
ghost use Rattle.spd_nodes.specs.States.{Agree, AgreePast};
ghost use Rattle.spd_nodes.specs.Shown.{Shown, IsWhole, meaning};

use crate::forest::{Forest, Ref};
use crate::layout::Level;

/// Whether two whole Refs stand for one function. They do exactly where they are equal.
pub fn is_same_function<F: Forest>(forest: &F, f: Ref, g: Ref) -> bool
    requires left { (F.shows forest.now).knows f ≡ true }
    requires right { (F.shows forest.now).knows g ≡ true }
    requires left_whole { IsWhole (F.shows forest.now) f }
    requires right_whole { IsWhole (F.shows forest.now) g }
    ensures equal { IsTrue result ↔ (f ≡ g) }
    ensures same { IsTrue result ↔ Agree (F.shows forest.now).sizes (meaning (F.shows forest.now) f) (meaning (F.shows forest.now) g) }
{
    // The forest is sound, as its layout says: so two whole trees of one function are one tree, which one Ref names.
    let _ = forest.layout();
    f == g
}

/// Whether two Refs with one root level stand for one function of the states whose value of that level's variable and kind
/// is at least the level's value. They do exactly where they are equal.
pub fn is_same_rest<F: Forest>(forest: &F, level: Level, f: Ref, g: Ref) -> bool
    requires left { (F.shows forest.now).knows f ≡ true }
    requires right { (F.shows forest.now).knows g ≡ true }
    requires left_root { IsAt level.0 ((F.shows forest.now).tree f) }
    requires right_root { IsAt level.0 ((F.shows forest.now).tree g) }
    ensures equal { IsTrue result ↔ (f ≡ g) }
    ensures same { IsTrue result ↔ AgreePast (F.shows forest.now).sizes level.0 (meaning (F.shows forest.now) f) (meaning (F.shows forest.now) g) }
{
    // The forest is sound here too, and two of its trees with one root level and one rest are one tree.
    let _ = forest.layout();
    f == g
}
