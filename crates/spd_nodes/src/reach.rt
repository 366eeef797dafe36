//! The Refs that are reached from one, and the number of nodes.

ghost use Rattle.std.specs.Prelude.{◌≡◌, ℕ, IfOk, OnOk, true};
ghost use Rattle.spd_nodes.specs.Shown.{Shown, IsSound};
ghost use Rattle.spd_nodes.specs.Refs.{IsClosed, Visits, IsReached, node_count};

use crate::forest::{Forest, Ref, View};
use crate::refs::Refs;
use std::alloc::{AllocError, Global};

/// Adds the Refs that are reached from `r`, children before parents. Each call goes down at least one level, so calls nest
/// at most as deep as there are levels: 512.
fn visit<F: Forest>(forest: &mut F, r: Ref, seen: &mut Refs) -> Result<(), AllocError>
    requires known { (F.shows forest.old).knows r ≡ true }
    requires sound { IsSound (F.shows forest.old) }
    requires closed { IsClosed (F.shows forest.old) seen.old }
    ensures same { F.shows forest.new ≡ F.shows forest.old }
    ensures keeps { F.kept forest.new ≡ F.kept forest.old }
    ensures ok { OnOk result (Visits (F.shows forest.old) seen.old seen.new r) }
{
    if seen.contains(r) {
        return Ok(());
    }
    match forest.view(r) {
        View::Leaf(_) => seen.add(r),
        View::Test { yes, no, .. } => {
            visit(forest, yes, seen)?;
            visit(forest, no, seen)?;
            seen.add(r)
        }
    }
}

/// The Refs that are reached from `r`, itself included, each once and children before parents. It fails only for want of
/// memory.
pub fn reached<F: Forest>(alloc: Global, forest: &mut F, r: Ref) -> Result<Refs, AllocError>
    requires known { (F.shows forest.old).knows r ≡ true }
    ensures same { F.shows forest.new ≡ F.shows forest.old }
    ensures keeps { F.kept forest.new ≡ F.kept forest.old }
    ensures ok { IfOk result (λ refs. IsReached (F.shows forest.old) r refs) }
{
    let _ = forest.layout();
    let mut seen = Refs::new(alloc);
    visit(forest, r, &mut seen)?;
    Ok(seen)
}

/// The number of nodes that are reached from `r`, leaves included: of the distinct subtrees of its tree. It fails only for
/// want of memory.
pub fn count<F: Forest>(alloc: Global, forest: &mut F, r: Ref) -> Result<usize, AllocError>
    requires known { (F.shows forest.old).knows r ≡ true }
    ensures same { F.shows forest.new ≡ F.shows forest.old }
    ensures keeps { F.kept forest.new ≡ F.kept forest.old }
    ensures ok { IfOk result (λ n. n ≡ node_count ((F.shows forest.old).tree r)) }
{
    let _ = forest.layout();
    let refs = reached(alloc, forest, r)?;
    Ok(refs.len())
}
