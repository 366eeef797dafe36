//! A test of whether a diagram tests plain values alone.

ghost use Rattle.std.specs.Prelude.{◌≡◌, ℕ, ◌↔◌, IfOk, IsTrue, true};
ghost use Rattle.spd_nodes.specs.Shown.{Shown};
ghost use Rattle.spd_restrict.specs.Primed.{TestsNoPrimed, IsPlainRoot};

use spd_nodes::{Forest, Ref, View, reached};
use std::alloc::{AllocError, Global};

/// Whether the root of a diagram is a leaf or the test of a plain value.
fn is_plain_root<F: Forest>(forest: &mut F, q: Ref) -> bool
    requires { (F.shows forest.old).knows q ≡ true }
    ensures same { F.shows forest.new ≡ F.shows forest.old }
    ensures keeps { F.kept forest.new ≡ F.kept forest.old }
    ensures plain { IsTrue result ↔ IsPlainRoot (F.shows forest.old) q }
{
    match forest.view(q) {
        View::Leaf(_) => true,
        View::Test { level, .. } => {
            let (_, primed, _) = forest.layout().what(level);
            !primed
        }
    }
}

/// Whether a diagram tests plain values alone, so that `prime` may be called. It fails only for want of memory.
pub fn is_plain<F: Forest>(alloc: Global, forest: &mut F, r: Ref) -> Result<bool, AllocError>
    requires { (F.shows forest.old).knows r ≡ true }
    ensures same { F.shows forest.new ≡ F.shows forest.old }
    ensures keeps { F.kept forest.new ≡ F.kept forest.old }
    ensures plain { IfOk result (λ b. IsTrue b ↔ TestsNoPrimed (F.shows forest.old).sizes ((F.shows forest.old).tree r)) }
{
    let refs = reached(alloc, forest, r)?;
    for q in refs.as_slice() {
        if !is_plain_root(forest, *q) {
            return Ok(false);
        }
    }
    Ok(true)
}
