//! Tests of whether an operation or a map is defined on the leaves of diagrams.

ghost use Rattle.std.specs.Prelude.{◌≡◌, ◌↔◌, IfOk, IsTrue, true, All};
ghost use Rattle.spd_nodes.specs.Shown.{Shown, IsWhole, meaning};
ghost use Rattle.spd_apply.specs.Leaves.{EachFit};
ghost use Rattle.spd_apply.specs.Outcome.{FitEverywhere, FitsEverywhere};

use crate::leaf_op::{LeafMap, LeafOp};
use crate::leaves::leaves_of;
use spd_nodes::{Forest, Leaf, Ref};
use std::alloc::{AllocError, Global};

/// Whether an operation is defined on a leaf and each of some others.
fn fits_each<O: LeafOp>(op: &O, a: Leaf, right: &[Leaf]) -> bool
    ensures { IsTrue result ↔ All (λ b. O.fits op.now a b ≡ true) right.now }
{
    for b in right {
        if !op.fits(a, *b) {
            return false;
        }
    }
    true
}

/// Whether an operation is defined on each two leaves.
fn fits_all<O: LeafOp>(op: &O, left: &[Leaf], right: &[Leaf]) -> bool
    ensures { IsTrue result ↔ All (λ a. All (λ b. O.fits op.now a b ≡ true) right.now) left.now }
{
    for a in left {
        if !fits_each(op, *a, right) {
            return false;
        }
    }
    true
}

/// Whether a map is defined on each of some leaves.
fn maps_all<M: LeafMap>(map: &M, leaves: &[Leaf]) -> bool
    ensures { IsTrue result ↔ All (λ a. M.fits map.now a ≡ true) leaves.now }
{
    for a in leaves {
        if !map.fits(*a) {
            return false;
        }
    }
    true
}

/// Whether an operation is defined on each leaf of one diagram with each leaf of another one. Where it is, it is defined
/// wherever their leaves meet. It fails only for want of memory.
pub fn fits_leaves<F: Forest, O: LeafOp>(
    alloc: Global,
    forest: &mut F,
    op: &O,
    f: Ref,
    g: Ref,
) -> Result<bool, AllocError>
    requires left { (F.shows forest.old).knows f ≡ true }
    requires right { (F.shows forest.old).knows g ≡ true }
    requires left_whole { IsWhole (F.shows forest.old) f }
    requires right_whole { IsWhole (F.shows forest.old) g }
    ensures same { F.shows forest.new ≡ F.shows forest.old }
    ensures keeps { F.kept forest.new ≡ F.kept forest.old }
    ensures each { IfOk result (λ b. IsTrue b ↔ EachFit (O.fits op.now) (F.shows forest.old).sizes (meaning (F.shows forest.old) f) (meaning (F.shows forest.old) g)) }
    ensures everywhere { IfOk result (λ b. IsTrue b → FitEverywhere (O.fits op.now) (F.shows forest.old) f g) }
{
    let left = leaves_of(alloc, forest, f)?;
    let right = leaves_of(alloc, forest, g)?;
    Ok(fits_all(op, &left, &right))
}

/// Whether a map is defined on each leaf of a diagram. It fails only for want of memory.
pub fn maps_leaves<F: Forest, M: LeafMap>(
    alloc: Global,
    forest: &mut F,
    map: &M,
    f: Ref,
) -> Result<bool, AllocError>
    requires known { (F.shows forest.old).knows f ≡ true }
    requires whole { IsWhole (F.shows forest.old) f }
    ensures same { F.shows forest.new ≡ F.shows forest.old }
    ensures keeps { F.kept forest.new ≡ F.kept forest.old }
    ensures everywhere { IfOk result (λ b. IsTrue b ↔ FitsEverywhere (M.fits map.now) (F.shows forest.old) f) }
{
    let leaves = leaves_of(alloc, forest, f)?;
    Ok(maps_all(map, &leaves))
}
