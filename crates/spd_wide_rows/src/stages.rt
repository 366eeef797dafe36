//! The widest model, built and backed up.
ghost use Rattle.std.specs.Prelude.{◌≡◌, ◌<◌, ◌≤◌, IfOk, IfSome, true};
ghost use Rattle.spd_model.specs.States.{sizes as sizes_of};
ghost use Rattle.spd_nodes.specs.Shown.{Shown, Grows};
ghost use Rattle.spd_build.specs.Built.{IsBuiltWhole};
ghost use Rattle.spd_backup.specs.Thawing.{IsThawedOf};

use crate::chain::number_in;
use crate::models::widest_model;
use crate::numbers::IsTestNumber;
use crate::room::{check_room, mark};
use crate::shape::{LEVELS, Point, Values, last_state, point_of, tests_before};
use spd_apply::maps_leaves;
use spd_backup::{Bounds, Thawed, backup, thaw_built};
use spd_build::{BuildFault, Built, build, layout_of};
use spd_frozen::{freeze, thaw};
use spd_model::Model;
use spd_nodes::{Alone, Forest, Ref, Steps, StoreFault, is_whole};
use spd_restrict::is_plain;
use spd_weigh::Way;
use std::alloc::Global;
use std::marker::Brand;
use std::sync::ledger::{Blank, Ledger};
use std::test::Fail;

/// How many answers each table of an operation keeps.
const MEMO_SIZE: usize = 100_000;

/// A forest of so many entries has room for all that is made.
const AMPLE: u32 = 1_000_000;

/// What a model is built into, and None where the forest was full.
fn built_in<F: Forest, L: Ledger>(
    alloc: Global,
    model: &Model,
    forest: &mut F,
    steps: &mut Steps<L>,
) -> Result<Option<Built>, Fail>
    requires { (F.shows forest.old).sizes ≡ sizes_of model.now }
    ensures { IfOk result (λ o. IfSome o (IsBuiltWhole model.now)) }
{
    match build(alloc, model, forest, MEMO_SIZE, steps) {
        Ok(built) => Ok(Some(built)),
        Err(BuildFault::Full) => Ok(None),
        Err(fault) => Err(Fail::new(format_args!("{fault:?}"))),
    }
}

/// The same beside a known leaf. Fails where it isn't known as before afterwards, or where the model isn't built and the forest isn't full.
fn builds_in<F: Forest, L: Ledger>(
    alloc: Global,
    model: &Model,
    forest: &mut F,
    steps: &mut Steps<L>,
) -> Result<Option<Built>, Fail>
    requires { (F.shows forest.old).sizes ≡ sizes_of model.now }
    ensures { IfOk result (λ o. IfSome o (IsBuiltWhole model.now)) }
{
    let mark = mark(forest, steps)?;
    let built = built_in(alloc, model, forest, steps)?;
    check_room(forest, mark, built.is_some(), steps)?;
    Ok(built)
}

/// The same in a forest of so many entries.
fn builds_with<L: Ledger>(
    alloc: Global,
    model: &Model,
    limit: u32,
    blank: Blank,
) -> Result<Option<Built>, Fail>
    requires name { blank.name ≡ L.name }
    requires parts { blank.parts ≡ L.parts }
    requires one { 0 < blank.parts }
    ensures { IfOk result (λ o. IfSome o (IsBuiltWhole model.now)) }
{
    let mut steps = Steps::<L>::new(blank);
    let mut forest = Alone::new(alloc, layout_of(alloc, model)?, limit)?;
    builds_in(alloc, model, &mut forest, &mut steps)
}

/// The value at the start of what a model was built into, and None where the forest was full. Fails where its diagram is written as another
/// list.
fn value_in<F: Forest, L: Ledger>(
    alloc: Global,
    model: &Model,
    built: &Built,
    forest: &mut F,
    steps: &mut Steps<L>,
) -> Result<Option<Ref>, Fail>
    requires layout { (F.shows forest.old).sizes ≡ sizes_of model.now }
    requires built { IsBuiltWhole model.now built.now }
    ensures grows { Grows (F.shows forest.old) (F.shows forest.new) }
    ensures known { IfOk result (λ o. IfSome o (λ w. (F.shows forest.new).knows w ≡ true)) }
{
    let _ = forest.layout();
    match thaw(alloc, forest, &built.start, steps) {
        Ok(w) => {
            let list = freeze(alloc, forest, w)?;
            if list.nodes() != built.start.nodes() {
                return Err(Fail::new("another list"));
            }
            Ok(Some(w))
        }
        Err(StoreFault::Full) => Ok(None),
        Err(StoreFault::Memory) => Err(Fail::new("no memory")),
    }
}

/// What a model was built into as diagrams, and None where the forest was full.
fn parts_in<F: Forest, L: Ledger>(
    alloc: Global,
    model: &Model,
    built: &Built,
    forest: &mut F,
    steps: &mut Steps<L>,
) -> Result<Option<Thawed>, Fail>
    requires layout { (F.shows forest.old).sizes ≡ sizes_of model.now }
    requires built { IsBuiltWhole model.now built.now }
    ensures grows { Grows (F.shows forest.old) (F.shows forest.new) }
    ensures thawed { IfOk result (λ o. IfSome o (IsThawedOf model.now (F.shows forest.new))) }
{
    let _ = forest.layout();
    // Reading a field tells the proof what every model keeps.
    let _vars = &model.vars;
    match thaw_built(alloc, built, forest, steps) {
        Ok(thawed) => Ok(Some(thawed)),
        Err(StoreFault::Full) => Ok(None),
        Err(StoreFault::Memory) => Err(Fail::new("no memory")),
    }
}

/// The bounds of the only action's return where a value of at most 512 follows, and None where the forest was full.
fn bounds_in<F: Forest, L: Ledger>(
    alloc: Global,
    model: &Model,
    thawed: &Thawed,
    forest: &mut F,
    w: Ref,
    steps: &mut Steps<L>,
) -> Result<Option<Bounds>, Fail>
    requires thawed { IsThawedOf model.now (F.shows forest.old) thawed.now }
    requires known { (F.shows forest.old).knows w ≡ true }
    ensures lo { IfOk result (λ o. IfSome o (λ b. (F.shows forest.new).knows b.lo ≡ true)) }
    ensures hi { IfOk result (λ o. IfSome o (λ b. (F.shows forest.new).knows b.hi ≡ true)) }
{
    if !is_whole(forest, w) || !is_plain(alloc, forest, w)? {
        return Err(Fail::new("no function of the present state"));
    }
    if !maps_leaves(alloc, forest, &IsTestNumber, w)? {
        return Err(Fail::new("not the numbers of tests"));
    }
    match backup(alloc, thawed, forest, w, 0, MEMO_SIZE, steps) {
        Ok(bounds) => Ok(Some(bounds)),
        Err(StoreFault::Full) => Ok(None),
        Err(StoreFault::Memory) => Err(Fail::new("no memory")),
    }
}

/// The bounds of the only action's return where the value at the start follows, and None where the forest was full in any of the calls.
fn stages_in<F: Forest, L: Ledger>(
    alloc: Global,
    model: &Model,
    built: &Built,
    forest: &mut F,
    steps: &mut Steps<L>,
) -> Result<Option<Bounds>, Fail>
    requires layout { (F.shows forest.old).sizes ≡ sizes_of model.now }
    requires built { IsBuiltWhole model.now built.now }
    ensures lo { IfOk result (λ o. IfSome o (λ b. (F.shows forest.new).knows b.lo ≡ true)) }
    ensures hi { IfOk result (λ o. IfSome o (λ b. (F.shows forest.new).knows b.hi ≡ true)) }
{
    let Some(w) = value_in(alloc, model, built, forest, steps)? else {
        return Ok(None);
    };
    let Some(thawed) = parts_in(alloc, model, built, forest, steps)? else {
        return Ok(None);
    };
    bounds_in(alloc, model, &thawed, forest, w, steps)
}

/// A sum of some parts, divided by their number and rounded.
fn rounded(sum: u64, count: u64, way: Way) -> u64
    requires count { 0 < count }
    requires sum { sum ≤ 1000000 }
    requires few { count ≤ 1000000 }
    ensures { result ≤ sum }
{
    match way {
        Way::Down => sum / count,
        Way::Up => sum / count + if sum % count == 0 { 0 } else { 1 },
    }
}

/// The model's reward at a state, in units of 10^-9: the level of the first test of a present value that holds.
fn reward(state: &Values) -> u64
    ensures { result ≤ 25200 }
{
    u64::from(tests_before(&Point {
        present: *state,
        next: last_state(),
    }))
}

/// The expectation at a state where the last variable takes this value. The first variable takes its value 62 or its last one, the other
/// ones keep theirs.
fn expected(state: &Values, last: u8, way: Way) -> u64
    ensures { result ≤ 100800 }
{
    let mut next = *state;
    next[0] = 63;
    next[99] = last;
    let tests = tests_before(&Point {
        present: *state,
        next,
    });
    let quarters = if tests % 2 == 0 { 1 } else { 3 };
    let high = reward(&next);
    next[0] = 62;
    let low = reward(&next);
    rounded(quarters * low + (4 - quarters) * high, 4, way)
}

/// A bound of the only action's return at a state. The last variable takes each of its first two values with 1/2, and the discount is 1/2.
fn bound(state: &Values, way: Way) -> i128 {
    let both = rounded(expected(state, 0, way) + expected(state, 1, way), 2, way);
    i128::from(reward(state) + rounded(both, 2, way))
}

/// Fails where a bound is another one than is calculated, at the states that lead to each test of a present value.
fn check_bound<F: Forest>(forest: &mut F, r: Ref, way: Way) -> Result<(), Fail>
    requires { (F.shows forest.old).knows r ≡ true }
    ensures { F.shows forest.new ≡ F.shows forest.old }
{
    for level in 0..LEVELS + 1 {
        let present = point_of(level).present;
        let want = Some(bound(&present, way));
        for next in [[0; 100], last_state()] {
            let found = number_in(forest, r, &Point { present, next });
            if found != want {
                return Err(Fail::new(format_args!(
                    "{way:?}: {found:?} in place of {want:?} at {level}"
                )));
            }
        }
    }
    Ok(())
}

/// Whether the stages are done where the forest has the room.
fn done_in<F: Forest, L: Ledger>(
    alloc: Global,
    model: &Model,
    built: &Built,
    forest: &mut F,
    steps: &mut Steps<L>,
) -> Result<bool, Fail>
    requires layout { (F.shows forest.old).sizes ≡ sizes_of model.now }
    requires built { IsBuiltWhole model.now built.now }
{
    let mark = mark(forest, steps)?;
    let bounds = stages_in(alloc, model, built, forest, steps)?;
    if let Some(bounds) = bounds {
        check_bound(forest, bounds.lo, Way::Down)?;
        check_bound(forest, bounds.hi, Way::Up)?;
    }
    check_room(forest, mark, bounds.is_some(), steps)?;
    Ok(bounds.is_some())
}

/// The same in a forest of so many entries.
fn done_with<L: Ledger>(
    alloc: Global,
    model: &Model,
    built: &Built,
    limit: u32,
    blank: Blank,
) -> Result<bool, Fail>
    requires built { IsBuiltWhole model.now built.now }
    requires name { blank.name ≡ L.name }
    requires parts { blank.parts ≡ L.parts }
    requires one { 0 < blank.parts }
{
    let mut steps = Steps::<L>::new(blank);
    let mut forest = Alone::new(alloc, layout_of(alloc, model)?, limit)?;
    done_in(alloc, model, built, &mut forest, &mut steps)
}

/// The widest model's parts.
fn widest_built(alloc: Global, model: &Model) -> Result<Built, Fail>
    ensures { IfOk result (IsBuiltWhole model.now) }
{
    match builds_with::<Brand>(alloc, model, AMPLE, Blank::new(1))? {
        Some(built) => Ok(built),
        None => Err(Fail::new("full")),
    }
}

/// The least of the rooms 257 apart in which the model is built.
fn least_room(alloc: Global, model: &Model) -> Result<u32, Fail> {
    for limit in (1..30_000).step_by(257) {
        if builds_with::<Brand>(alloc, model, limit, Blank::new(1))?.is_some() {
            return Ok(limit);
        }
    }
    Err(Fail::new("not built"))
}

/// Fails where the stages are done in some of these rooms, so many entries apart.
fn check_refused(
    alloc: Global,
    model: &Model,
    built: &Built,
    from: u32,
    end: u32,
    apart: usize,
) -> Result<(), Fail>
    requires built { IsBuiltWhole model.now built.now }
    requires apart { 0 < apart }
{
    for limit in (from..end).step_by(apart) {
        if done_with::<Brand>(alloc, model, built, limit, Blank::new(1))? {
            return Err(Fail::new(format_args!("done in {limit}")));
        }
    }
    Ok(())
}

/// Fails where the stages are done in too little room, or not in ample room. The value at the start has 256 tests and 257 leaves: each of
/// these rooms is tried. Behind them the rooms are further apart, since each try makes all parts anew.
fn check_stages(alloc: Global, model: &Model) -> Result<(), Fail> {
    let built = widest_built(alloc, model)?;
    check_refused(alloc, model, &built, 1, 520, 1)?;
    check_refused(alloc, model, &built, 520, 3_000, 61)?;
    check_refused(alloc, model, &built, 3_000, 30_000, 2_003)?;
    if !done_with::<Brand>(alloc, model, &built, AMPLE, Blank::new(1))? {
        return Err(Fail::new("not done"));
    }
    Ok(())
}

/// Building takes many nodes on the way: a chain's branch on a variable of 64 values is made from its last value on, and where it has come
/// to a value it tests each value up to there, so that it makes up to 63 * 64 / 2 nodes. There are nine such branches. The rooms are 257
/// apart, since each try builds anew.
#[test]
fn each_step_of_building_may_be_refused(rt: HostRuntime) -> Result<(), Fail> {
    let model = widest_model(rt.alloc())?;
    let least = least_room(rt.alloc(), &model)?;
    assert!(rt; least > 9 * 63);
    Ok(())
}

#[test]
fn each_step_of_backing_up_may_be_refused(rt: HostRuntime) -> Result<(), Fail> {
    let model = widest_model(rt.alloc())?;
    check_stages(rt.alloc(), &model)
}
