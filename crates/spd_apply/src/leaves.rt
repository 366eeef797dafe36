//! The leaves of a diagram.

ghost use Rattle.std.specs.Prelude.{◌≡◌, IfOk, true};
ghost use Rattle.spd_nodes.specs.Shown.{Shown, IsSound, IsWhole, meaning};
ghost use Rattle.spd_apply.specs.Leaves.{AreLeavesOf};

use spd_nodes::{Forest, Leaf, Ref, View, reached};
use std::alloc::{AllocError, Global};

/// The distinct leaves of a diagram, in order: Num before Pair before Act, and within a kind by their numbers. They are the
/// values that its function takes. It fails only for want of memory.
pub fn leaves_of<F: Forest>(alloc: Global, forest: &mut F, f: Ref) -> Result<Vec<Leaf>, AllocError>
    requires known { (F.shows forest.old).knows f ≡ true }
    requires whole { IsWhole (F.shows forest.old) f }
    ensures sound { IsSound (F.shows forest.new) }
    ensures same { F.shows forest.new ≡ F.shows forest.old }
    ensures keeps { F.kept forest.new ≡ F.kept forest.old }
    ensures ok { IfOk result (λ leaves. AreLeavesOf (F.shows forest.old).sizes (meaning (F.shows forest.old) f) leaves.items) }
{
    let _ = forest.layout();
    let refs = reached(alloc, forest, f)?;
    let mut leaves = Vec::with_capacity(alloc, refs.len())?;
    for r in refs.as_slice() {
        if let View::Leaf(leaf) = forest.view(*r) {
            leaves.push(leaf)?;
        }
    }
    // Distinct Refs have distinct trees, so no leaf came twice.
    leaves.sort_unstable();
    Ok(leaves)
}
