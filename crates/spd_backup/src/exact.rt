//! Roundings that change nothing.

ghost use Rattle.std.specs.Prelude.{◌≡◌, ℕ, ◌<◌, ◌≤◌, ◌*ℤ◌, All, length, map, pos, slice_index, true, IfOk, OnOk, IfSome, IsTrue};
ghost use Rattle.spd_nodes.specs.Shown.{Shown, IsSound, IsWhole, StandsFor, MakesDiagram, meaning};
ghost use Rattle.spd_nodes.specs.States.{Agree};
ghost use Rattle.spd_gather.specs.Lists.{AreKnown};
ghost use Rattle.spd_weigh.specs.declared.way.Way.{Way};
ghost use Rattle.spd_weigh.specs.declared.way.Way.TheVariants as W;
ghost use Rattle.spd_weigh.specs.Discounting.{discounted};
ghost use Rattle.spd_weigh.specs.Leaves.{HasValues};
ghost use Rattle.spd_weigh.specs.Summed.{HoldsSums, HoldsDiscounts};
ghost use Rattle.spd_weigh.specs.Weighing.{summed_out, AreWeights};
ghost use Rattle.spd_backup.specs.Exact.{IsExact, HasExactLeaves, HaveExactLeaves, AreMultiples, IsExactSum, HoldDown};

use crate::free::sum_or_keep;
use crate::tables::{SumTables, last_sum};
use spd_apply::OpFault;
use spd_gather::Table;
use spd_nodes::{Forest, Leaf, Ref, Refs, Steps, View};
use spd_scaled::{ceil_div, floor_div};
use spd_weigh::{Way, discount_with};
use std::alloc::{AllocError, Global};
use std::sync::ledger::Ledger;

/// The scales at which a sum is looked at: powers of ten, so that as many decimal places are taken from the weights to the values.
const SCALES: [u32; 4] = [1, 10, 100, 1_000];

/// So many times a number, divided by another one.
#[derive(Clone, Copy)]
struct Ratio {
    times: u32,
    by: u64,
}

/// Whether a ratio is seen to make a whole number of a leaf: the same rounded down and up.
fn is_exact(ratio: Ratio, leaf: Leaf) -> bool
    ensures { IsTrue result → IsExact ratio leaf }
{
    let Leaf::Num(x) = leaf else {
        return false;
    };
    let by = ratio.by as i128;
    match (ratio.times as i128).checked_mul(x) {
        Some(product) if by > 0 => floor_div(product, by) == ceil_div(product, by),
        _ => false,
    }
}

/// Whether a ratio makes a whole number of each leaf that a Ref reaches. `seen` has Refs that reach no other, and is added to. It ends at
/// the first other one. Calls nest at most as deep as there are levels.
fn reaches_exact<F: Forest>(
    forest: &mut F,
    ratio: Ratio,
    r: Ref,
    seen: &mut Refs,
) -> Result<bool, AllocError>
    requires known { (F.shows forest.old).knows r ≡ true }
    requires sound { IsSound (F.shows forest.old) }
    requires seen { HaveExactLeaves ratio (F.shows forest.old) seen.old }
    ensures same { F.shows forest.new ≡ F.shows forest.old }
    ensures keeps { F.kept forest.new ≡ F.kept forest.old }
    ensures leaves { IfOk result (λ b. IsTrue b → HasExactLeaves ratio ((F.shows forest.old).tree r)) }
    ensures seen { OnOk result (HaveExactLeaves ratio (F.shows forest.old) seen.new) }
{
    match forest.view(r) {
        View::Leaf(leaf) => Ok(is_exact(ratio, leaf)),
        View::Test { yes, no, .. } => {
            if seen.contains(r) {
                return Ok(true);
            }
            if !reaches_exact(forest, ratio, yes, seen)? {
                return Ok(false);
            }
            if !reaches_exact(forest, ratio, no, seen)? {
                return Ok(false);
            }
            seen.add(r)?;
            Ok(true)
        }
    }
}

/// Whether a ratio is seen to make whole numbers of all leaves of some diagrams. Where there is no memory for the search this isn't seen.
fn are_exact<F: Forest>(alloc: Global, forest: &mut F, ratio: Ratio, refs: &[Ref]) -> bool
    requires known { AreKnown (F.shows forest.old) refs.now }
    ensures same { F.shows forest.new ≡ F.shows forest.old }
    ensures keeps { F.kept forest.new ≡ F.kept forest.old }
    ensures leaves { IsTrue result → All (λ r. HasExactLeaves ratio ((F.shows forest.old).tree r)) refs.now }
{
    let _ = forest.layout();
    let mut seen = Refs::new(alloc);
    for r in refs {
        match reaches_exact(forest, ratio, *r, &mut seen) {
            Ok(true) => {}
            _ => return false,
        }
    }
    true
}

/// Whether all numbers of a diagram are seen to be multiples of a scale.
fn are_multiples<F: Forest>(alloc: Global, forest: &mut F, f: Ref, scale: u32) -> bool
    requires known { (F.shows forest.old).knows f ≡ true }
    ensures same { F.shows forest.new ≡ F.shows forest.old }
    ensures keeps { F.kept forest.new ≡ F.kept forest.old }
    ensures multiples { IsTrue result → AreMultiples scale ((F.shows forest.old).tree f) }
{
    let ratio = Ratio {
        times: 1,
        by: scale as u64,
    };
    scale == 1 || are_exact(alloc, forest, ratio, &[f])
}

/// Whether a variable is seen to be summed out with no rounding: at one of the scales the weights are whole, and the values are multiples
/// of the scale. Weights that are all 0 or one are whole as they stand.
fn is_exact_sum<F: Forest>(alloc: Global, forest: &mut F, f: Ref, weights: &[Ref]) -> bool
    requires known { (F.shows forest.old).knows f ≡ true }
    requires weights_known { AreKnown (F.shows forest.old) weights.now }
    ensures same { F.shows forest.new ≡ F.shows forest.old }
    ensures keeps { F.kept forest.new ≡ F.kept forest.old }
    ensures exact { IsTrue result → IsExactSum (F.shows forest.old) f weights.now }
{
    for scale in SCALES {
        let whole = Ratio {
            times: scale,
            by: 1_000_000_000_000,
        };
        if are_exact(alloc, forest, whole, weights) {
            return are_multiples(alloc, forest, f, scale);
        }
    }
    false
}

/// What `down` has of a variable summed out of this diagram by these weights, if no rounding changes the sum, so that it is the same
/// rounded up.
fn exact_sum<F: Forest>(
    alloc: Global,
    forest: &mut F,
    f: Ref,
    var: usize,
    weights: &[Ref],
    down: &[SumTables],
) -> Option<Ref>
    requires known { (F.shows forest.old).knows f ≡ true }
    requires weights_known { AreKnown (F.shows forest.old) weights.now }
    requires down { HoldDown (F.shows forest.old) down.now }
    ensures same { F.shows forest.new ≡ F.shows forest.old }
    ensures keeps { F.kept forest.new ≡ F.kept forest.old }
    ensures stands { IfSome result (λ r. (way : Way) → StandsFor (F.shows forest.old) r (summed_out way var (map (meaning (F.shows forest.old)) weights.now) (meaning (F.shows forest.old) f))) }
{
    let _ = forest.layout();
    if var >= down.len() {
        return None;
    }
    let sum = last_sum(&down[var].last, f, weights)?;
    if !is_exact_sum(alloc, forest, f, weights) {
        return None;
    }
    Some(sum)
}

/// The same as `sum_or_keep`. A sum that `down` has and that no rounding changes is taken from there: nothing is made, and the table
/// isn't asked.
pub fn sum_once<F: Forest, L: Ledger>(
    alloc: Global,
    forest: &mut F,
    f: Ref,
    var: u32,
    weights: &[Ref],
    way: Way,
    down: &[SumTables],
    table: &mut Table,
    steps: &mut Steps<L>,
) -> Result<Ref, OpFault>
    requires known { (F.shows forest.old).knows f ≡ true }
    requires whole { IsWhole (F.shows forest.old) f }
    requires weights_known { AreKnown (F.shows forest.old) weights.now }
    requires weights_whole { All (λ w. IsWhole (F.shows forest.old) w) weights.now }
    requires var { var < length (F.shows forest.old).sizes }
    requires count { length weights.now ≡ slice_index (F.shows forest.old).sizes var }
    requires weights { AreWeights (F.shows forest.old).sizes var (map (meaning (F.shows forest.old)) weights.now) }
    requires values { HasValues (F.shows forest.old).sizes (meaning (F.shows forest.old) f) }
    requires down { HoldDown (F.shows forest.old) down.now }
    requires table { HoldsSums way var (F.shows forest.old) table.old }

    ensures made { MakesDiagram (F.shows forest.old) (F.shows forest.new) (summed_out way var (map (meaning (F.shows forest.old)) weights.now) (meaning (F.shows forest.old) f)) result }
    ensures keeps { F.kept forest.new ≡ F.kept forest.old }
    ensures table { HoldsSums way var (F.shows forest.new) table.new }
{
    let _ = forest.layout();
    if let Some(sum) = exact_sum(alloc, forest, f, var as usize, weights, down) {
        return Ok(sum);
    }
    sum_or_keep(alloc, forest, f, var, weights, way, table, steps)
}

/// How a diagram times a discount is to be rounded: down where that is seen to change nothing, else as is asked.
fn needed_way<F: Forest>(alloc: Global, forest: &mut F, f: Ref, discount: u32, way: Way) -> Way
    requires known { (F.shows forest.old).knows f ≡ true }
    ensures same { F.shows forest.new ≡ F.shows forest.old }
    ensures keeps { F.kept forest.new ≡ F.kept forest.old }
    ensures agrees { Agree (F.shows forest.old).sizes (discounted result discount (meaning (F.shows forest.old) f)) (discounted way discount (meaning (F.shows forest.old) f)) }
{
    match way {
        Way::Down => Way::Down,
        Way::Up => {
            let ratio = Ratio {
                times: discount,
                by: 1_000_000,
            };
            if are_exact(alloc, forest, ratio, &[f]) {
                Way::Down
            } else {
                Way::Up
            }
        }
    }
}

/// The same as `discount_with`, with a table of each way of rounding. Where no rounding happens the answer is that of rounding down, so
/// that nothing is made twice.
pub fn discount_once<F: Forest, L: Ledger>(
    alloc: Global,
    forest: &mut F,
    f: Ref,
    discount: u32,
    way: Way,
    down: &mut Table,
    up: &mut Table,
    steps: &mut Steps<L>,
) -> Result<Ref, OpFault>
    requires known { (F.shows forest.old).knows f ≡ true }
    requires whole { IsWhole (F.shows forest.old) f }
    requires discount { discount ≤ 999999 }
    requires values { HasValues (F.shows forest.old).sizes (meaning (F.shows forest.old) f) }
    requires down { HoldsDiscounts W.Down discount (F.shows forest.old) down.old }
    requires up { HoldsDiscounts W.Up discount (F.shows forest.old) up.old }

    ensures made { MakesDiagram (F.shows forest.old) (F.shows forest.new) (discounted way discount (meaning (F.shows forest.old) f)) result }
    ensures keeps { F.kept forest.new ≡ F.kept forest.old }
    ensures down { HoldsDiscounts W.Down discount (F.shows forest.new) down.new }
    ensures up { HoldsDiscounts W.Up discount (F.shows forest.new) up.new }
{
    let _ = forest.layout();
    match needed_way(alloc, forest, f, discount, way) {
        Way::Down => discount_with(alloc, forest, f, discount, Way::Down, down, steps),
        Way::Up => discount_with(alloc, forest, f, discount, Way::Up, up, steps),
    }
}
