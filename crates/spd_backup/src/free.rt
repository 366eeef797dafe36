//! Diagrams that don't follow a variable's next value.

ghost use Rattle.std.specs.Prelude.{◌≡◌, ℕ, ◌<◌, All, length, map, slice_index, true, IfOk, OnOk, IsTrue};
ghost use Rattle.spd_nodes.specs.Shown.{Shown, IsSound, IsWhole, MakesDiagram, meaning};
ghost use Rattle.spd_gather.specs.Lists.{AreKnown};
ghost use Rattle.spd_weigh.specs.Leaves.{HasValues};
ghost use Rattle.spd_weigh.specs.Summed.{HoldsSums};
ghost use Rattle.spd_weigh.specs.Weighing.{summed_out, AreWeights};
ghost use Rattle.spd_backup.specs.Free.{TestsNone, AreFree, IsFreeOf};

use spd_apply::OpFault;
use spd_gather::Table;
use spd_nodes::{Forest, Ref, Refs, Steps, View};
use spd_weigh::{Way, sum_out_with};
use std::alloc::{AllocError, Global};
use std::sync::ledger::Ledger;

/// Whether a Ref reaches no test from `first` to below `end`. `seen` has Refs that reach none, and is added to. Calls nest at most as
/// deep as there are levels before `first`.
fn reaches_none<F: Forest>(
    forest: &mut F,
    r: Ref,
    first: u16,
    end: u16,
    seen: &mut Refs,
) -> Result<bool, AllocError>
    requires known { (F.shows forest.old).knows r ≡ true }
    requires sound { IsSound (F.shows forest.old) }
    requires seen { AreFree first end (F.shows forest.old) seen.old }
    ensures same { F.shows forest.new ≡ F.shows forest.old }
    ensures keeps { F.kept forest.new ≡ F.kept forest.old }
    ensures none { IfOk result (λ b. IsTrue b → TestsNone first end ((F.shows forest.old).tree r)) }
    ensures seen { OnOk result (AreFree first end (F.shows forest.old) seen.new) }
{
    match forest.view(r) {
        View::Leaf(_) => Ok(true),
        View::Test { level, yes, no } => {
            if level.0 >= first {
                return Ok(level.0 >= end);
            }
            if seen.contains(r) {
                return Ok(true);
            }
            if !reaches_none(forest, yes, first, end, seen)? {
                return Ok(false);
            }
            if !reaches_none(forest, no, first, end, seen)? {
                return Ok(false);
            }
            seen.add(r)?;
            Ok(true)
        }
    }
}

/// Whether a diagram is seen not to follow a variable's next value: none of its tests asks for it. Where there is no memory for the
/// search this isn't seen.
fn is_free<F: Forest>(alloc: Global, forest: &mut F, f: Ref, var: u32) -> bool
    requires known { (F.shows forest.old).knows f ≡ true }
    requires var { var < length (F.shows forest.old).sizes }
    ensures same { F.shows forest.new ≡ F.shows forest.old }
    ensures keeps { F.kept forest.new ≡ F.kept forest.old }
    ensures free { IsTrue result → IsFreeOf var (F.shows forest.old).sizes (meaning (F.shows forest.old) f) }
{
    let (first, end) = forest.layout().tests(var, true);
    let mut seen = Refs::new(alloc);
    match reaches_none(forest, f, first, end, &mut seen) {
        Ok(none) => none,
        Err(_) => false,
    }
}

/// The same as `sum_out_with`. A diagram that doesn't follow the variable's next value is its own sum, since the weights sum to one:
/// nothing is made, and the table isn't asked.
pub fn sum_or_keep<F: Forest, L: Ledger>(
    alloc: Global,
    forest: &mut F,
    f: Ref,
    var: u32,
    weights: &[Ref],
    way: Way,
    table: &mut Table,
    steps: &mut Steps<L>,
) -> Result<Ref, OpFault>
    requires known { (F.shows forest.old).knows f ≡ true }
    requires whole { IsWhole (F.shows forest.old) f }
    requires weights_known { AreKnown (F.shows forest.old) weights.now }
    requires weights_whole { All (λ w. IsWhole (F.shows forest.old) w) weights.now }
    requires var { var < length (F.shows forest.old).sizes }
    requires count { length weights.now ≡ slice_index (F.shows forest.old).sizes var }
    requires weights { AreWeights (F.shows forest.old).sizes var (map (meaning (F.shows forest.old)) weights.now) }
    requires values { HasValues (F.shows forest.old).sizes (meaning (F.shows forest.old) f) }
    requires table { HoldsSums way var (F.shows forest.old) table.old }

    ensures made { MakesDiagram (F.shows forest.old) (F.shows forest.new) (summed_out way var (map (meaning (F.shows forest.old)) weights.now) (meaning (F.shows forest.old) f)) result }
    ensures keeps { F.kept forest.new ≡ F.kept forest.old }
    ensures table { HoldsSums way var (F.shows forest.new) table.new }
{
    let _ = forest.layout();
    if is_free(alloc, forest, f, var) {
        return Ok(f);
    }
    sum_out_with(alloc, forest, f, var, weights, way, table, steps)
}
