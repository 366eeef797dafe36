//! The reduced diagram of a table.
ghost use Rattle.std.specs.Prelude.{◌≡◌, ◌+◌, ◌*◌, ◌<◌, ◌^◌, ℕ, List, ◌↔◌, length, map, slice_index, IfOk, IsTrue, All};
ghost use Rattle.spd_model.specs.declared.process.Var.{Var as Variable};
ghost use Rattle.spd_model.specs.Numbers.{numbers_below};
ghost use Rattle.spd_model.specs.Reduced.{reduced_from};
ghost use Rattle.spd_model.specs.States.{sizes, state_count, IsState};
ghost use Rattle.spd_nodes.specs.Trees.{leaf_eq};
ghost use Rattle.spd_frozen.specs.Frozen.{entry_at, frozen_of, leaf_at, diagrams};
ghost use Rattle.spd_frozen.specs.Fits.{FitsSizes};
ghost use Rattle.spd_frozen.specs.inner.Unique.{IsClosed, Builds, BuildsAll, sizes_of, subdiagram};

use crate::unique::UniqueTable;
use crate::{Frozen, Memory};
use spd_model::{Model, Var};
use spd_nodes::Leaf;
use std::alloc::Global;

/// The reduced diagram of a table with one leaf for each state in order: its nodes in the order in which they are first
/// completed, kids in the order of the values, then the branch.
///
/// The only error is want of memory.
pub fn of_table(alloc: Global, model: &Model, leaves: &[Leaf]) -> Result<Frozen, Memory>
    requires { length leaves.now ≡ state_count (sizes model.now) }
    ensures reduced { IfOk result (λ frozen. frozen ≡ frozen_of (sizes model.now) (entry_at (sizes model.now) leaves.now)) }
    ensures function { IfOk result (λ frozen. (s : List ℕ) → IsState (sizes model.now) s → leaf_at frozen s ≡ entry_at (sizes model.now) leaves.now s) }
    ensures fits { IfOk result (λ frozen. FitsSizes (sizes model.now) frozen) }
{
    let mut table = UniqueTable::new(alloc);
    root(&mut table, alloc, 0, model.vars.as_slice(), leaves)?;
    Ok(Frozen::of_nodes(table.into_nodes(alloc)?))
}

/// Completes the reduced diagram of a table over the last variables, the first of which has the number `var`, and answers the
/// number of its root.
#[cycle(table)]
fn root(
    table: &mut UniqueTable,
    alloc: Global,
    var: u32,
    vars: &[Var],
    leaves: &[Leaf],
) -> Result<u32, Memory>
    requires number { var + length vars.now < 2 ^ 32 }
    requires values { All (λ (x : Variable). 0 < length x.values) vars.now }
    requires entries { length leaves.now ≡ state_count (sizes_of vars.now) }
    requires closed { IsClosed (diagrams table.old) }
    ensures { Builds (reduced_from leaf_eq var (sizes_of vars.now) (entry_at (sizes_of vars.now) leaves.now)) table.old result table.new }
{
    match vars.split_first() {
        None => table.leaf(leaves[0]),
        Some((first, rest)) => {
            let kids = kids(table, alloc, var, first.values.len(), rest, leaves)?;
            if are_equal(&kids) {
                Ok(kids[0])
            } else {
                table.branch(var, kids)
            }
        }
    }
}

/// Completes the diagrams that follow the values of the variable `var`, and answers the numbers of their roots.
#[cycle(table)]
fn kids(
    table: &mut UniqueTable,
    alloc: Global,
    var: u32,
    size: usize,
    rest: &[Var],
    leaves: &[Leaf],
) -> Result<Vec<u32>, Memory>
    requires number { var + length rest.now + 1 < 2 ^ 32 }
    requires value { 0 < size }
    requires values { All (λ (x : Variable). 0 < length x.values) rest.now }
    requires entries { length leaves.now ≡ size * state_count (sizes_of rest.now) }
    requires closed { IsClosed (diagrams table.old) }
    ensures { BuildsAll (map (subdiagram var size (sizes_of rest.now) leaves.now) (numbers_below size)) table.old result table.new }
{
    let block = leaves.len() / size;
    let mut kids = Vec::with_capacity(alloc, size)?;
    for value in 0..size {
        let part = &leaves[value * block..(value + 1) * block];
        kids.push(root(table, alloc, var + 1, rest, part)?)?;
    }
    Ok(kids)
}

/// Whether all of these numbers are equal.
fn are_equal(numbers: &[u32]) -> bool
    requires { 0 < length numbers.now }
    ensures { IsTrue result ↔ All (λ k. k ≡ slice_index numbers.now 0) numbers.now }
{
    let first = numbers[0];
    numbers.iter().all(|number| *number == first)
}
