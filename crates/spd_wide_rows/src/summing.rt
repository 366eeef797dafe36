//! The chain of all tests with a variable's next value summed out.
ghost use Rattle.std.specs.Prelude.{◌≡◌, ◌<◌, ◌≤◌, ◌*◌, IfOk, IfSome, IsTrue, true, pos, length, replicate, slice_index};
ghost use Rattle.spd_nodes.specs.declared.leaf.Leaf.TheVariants.{Num};
ghost use Rattle.spd_nodes.specs.Shown.{Shown, Grows, KnowsAs};
ghost use Rattle.spd_nodes.specs.Trees.{Ends};

use crate::chain::{CHAIN_NODES, chain, check_chain, number_in};
use crate::numbers::IsTestNumber;
use crate::room::{check_room, mark};
use crate::shape::{LEVELS, Point, layout, point_of, tests_before, tests_of};
use spd_apply::maps_leaves;
use spd_nodes::{Alone, Forest, Layout, Leaf, Ref, Steps, StoreFault, is_whole};
use spd_weigh::{Way, sum_out};
use std::alloc::{AllocError, Global};
use std::marker::Brand;
use std::sync::ledger::{Blank, Ledger};
use std::test::Fail;

/// One, as a probability, in units of 10^-12.
const ONE: u64 = 1_000_000_000_000;

/// How many answers a table keeps.
const MEMO_SIZE: usize = 10_000;

/// A variable whose next value is summed out by equal weights, how the sum is rounded, how many nodes of the sum aren't the chain's, and
/// how far those numbers of nodes are apart for which there is too little room.
#[derive(Clone, Copy, Debug)]
struct Case {
    var: u32,
    way: Way,
    nodes: u32,
    apart: usize,
}

/// All leaves of the sums are leaves of the chain, and each test is a new one. The first variable's sum has the numbers (1953 + l) / 64 at
/// the levels l from 63 on: rounded down it is 38 from level 479 on, so that there are the tests of the levels 63 to 478; rounded up it is
/// 39 from level 480 on. The next value of the variable 50 is tested at level 288: the levels before it stay, and behind it the numbers are
/// (288 + l) / 2, which rounded up are equal at level 511 and behind it. The last variable's next value is tested at the levels 386 to
/// 448: the levels before it stay, and behind it the numbers are (26271 + l) / 64, which rounded down are equal from level 481 on, and
/// rounded up from level 482 on.
const CASES: [Case; 6] = [
    Case {
        var: 0,
        way: Way::Down,
        nodes: 479 - 63,
        apart: 41,
    },
    Case {
        var: 0,
        way: Way::Up,
        nodes: 480 - 63,
        apart: 41,
    },
    Case {
        var: 50,
        way: Way::Down,
        nodes: 288 + 223,
        apart: 1,
    },
    Case {
        var: 50,
        way: Way::Up,
        nodes: 288 + 222,
        apart: 7,
    },
    Case {
        var: 99,
        way: Way::Down,
        nodes: 386 + 32,
        apart: 41,
    },
    Case {
        var: 99,
        way: Way::Up,
        nodes: 386 + 33,
        apart: 41,
    },
];

/// Whether a variable has so many values.
fn has_size(layout: &Layout, var: u32, size: usize) -> bool
    ensures var { IsTrue result → var < length layout.now }
    ensures size { IsTrue result → size ≡ slice_index layout.now var }
{
    let sizes = layout.sizes();
    let var = var as usize;
    var < sizes.len() && size == sizes[var] as usize
}

/// So many copies of a weight.
fn copies(alloc: Global, weight: Ref, count: usize) -> Result<Vec<Ref>, AllocError>
    ensures { IfOk result (λ weights. weights.items ≡ replicate count weight) }
{
    vec![in alloc; weight; count]
}

/// A diagram with a variable's next value summed out, where each of its values has the same weight; None where the forest was full.
fn sum_equally<F: Forest, L: Ledger>(
    alloc: Global,
    forest: &mut F,
    f: Ref,
    case: Case,
    weight: Ref,
    share: u64,
    count: usize,
    steps: &mut Steps<L>,
) -> Result<Option<Ref>, Fail>
    requires known { (F.shows forest.old).knows f ≡ true }
    requires weight { KnowsAs (F.shows forest.old) weight (Ends (Num (pos share))) }
    requires one { count * share ≡ 1000000000000 }
    ensures grows { Grows (F.shows forest.old) (F.shows forest.new) }
    ensures ok { IfOk result (λ o. IfSome o (λ r. (F.shows forest.new).knows r ≡ true)) }
{
    if !has_size(forest.layout(), case.var, count) {
        return Err(Fail::new("no such variable"));
    }
    if !is_whole(forest, f) || !maps_leaves(alloc, forest, &IsTestNumber, f)? {
        return Err(Fail::new("not the numbers of tests"));
    }
    let weights = copies(alloc, weight, count)?;
    match sum_out(
        alloc, forest, f, case.var, &weights, case.way, MEMO_SIZE, steps,
    ) {
        Ok(sum) => Ok(Some(sum)),
        Err(StoreFault::Full) => Ok(None),
        Err(StoreFault::Memory) => Err(Fail::new("no memory")),
    }
}

/// The same, with the weights that are 1 in all.
fn summed<F: Forest, L: Ledger>(
    alloc: Global,
    forest: &mut F,
    f: Ref,
    case: Case,
    steps: &mut Steps<L>,
) -> Result<Option<Ref>, Fail>
    requires { (F.shows forest.old).knows f ≡ true }
    ensures grows { Grows (F.shows forest.old) (F.shows forest.new) }
    ensures ok { IfOk result (λ o. IfSome o (λ r. (F.shows forest.new).knows r ≡ true)) }
{
    let count = u64::from(tests_of(case.var as usize)) + 1;
    let share = ONE / count;
    if count * share != ONE {
        return Err(Fail::new("no equal weights"));
    }
    let weight = forest.leaf(Leaf::Num(i128::from(share)), steps)?;
    sum_equally(alloc, forest, f, case, weight, share, count as usize, steps)
}

/// What the chain's sum is at a present and a next state: the mean of the numbers of the tests that hold first, one for each next value of
/// the variable.
fn mean(point: &Point, case: Case) -> i128 {
    let tests = tests_of(case.var as usize);
    let mut sum: u64 = 0;
    for value in 0..tests + 1 {
        let mut at = *point;
        if let Some(own) = at.next.get_mut(case.var as usize) {
            *own = value;
        }
        sum += u64::from(tests_before(&at));
    }
    let size = u64::from(tests) + 1;
    i128::from(match case.way {
        Way::Down => sum / size,
        Way::Up => (sum + size - 1) / size,
    })
}

/// Fails where a sum of the chain is another one than the mean, at the states that lead to each of the tests.
fn check_sum<F: Forest>(forest: &mut F, sum: Ref, case: Case) -> Result<(), Fail>
    requires { (F.shows forest.old).knows sum ≡ true }
{
    for level in 0..LEVELS + 1 {
        let point = point_of(level);
        let want = Some(mean(&point, case));
        let found = number_in(forest, sum, &point);
        if found != want {
            return Err(Fail::new(format_args!("{found:?} in place of {want:?} at {level}")));
        }
    }
    Ok(())
}

/// Whether the chain's sum is made where the forest has the room. Fails where it is another one than the mean, where the chain isn't as
/// before afterwards, or where the sum is refused before the forest is full.
fn sums_in<F: Forest, L: Ledger>(
    alloc: Global,
    forest: &mut F,
    case: Case,
    steps: &mut Steps<L>,
) -> Result<bool, Fail> {
    let mark = mark(forest, steps)?;
    let f = chain(forest, steps)?;
    let sum = summed(alloc, forest, f, case, steps)?;
    check_chain(forest, f, 73)?;
    if let Some(sum) = sum {
        check_sum(forest, sum, case)?;
    }
    check_room(forest, mark, sum.is_some(), steps)?;
    Ok(sum.is_some())
}

/// The same in a forest with room for so many nodes beside the chain's, the weights' leaf and a known one.
fn sums_with<L: Ledger>(alloc: Global, case: Case, room: u32, blank: Blank) -> Result<bool, Fail>
    requires name { blank.name ≡ L.name }
    requires parts { blank.parts ≡ L.parts }
    requires one { 0 < blank.parts }
{
    let mut steps = Steps::<L>::new(blank);
    let limit = CHAIN_NODES.saturating_add(2).saturating_add(room);
    let mut forest = Alone::new(alloc, layout(alloc)?, limit)?;
    sums_in(alloc, &mut forest, case, &mut steps)
}

/// Fails where the chain's sum is made in one of the rooms up to this one, so many nodes apart.
fn check_refused(alloc: Global, case: Case, end: u32) -> Result<(), Fail>
    requires { 0 < case.apart }
{
    for room in (0..end).step_by(case.apart) {
        if sums_with::<Brand>(alloc, case, room, Blank::new(1))? {
            return Err(Fail::new(format_args!("{case:?}: made in {room}")));
        }
    }
    Ok(())
}

/// Whether the chain's sum is made in this room, and not in one that has one node less. Fails where it is made in less.
fn is_least(alloc: Global, case: Case) -> Result<bool, Fail> {
    if case.apart == 0 || case.nodes == 0 {
        return Ok(false);
    }
    check_refused(alloc, case, case.nodes)?;
    let less = sums_with::<Brand>(alloc, case, case.nodes - 1, Blank::new(1))?;
    let made = sums_with::<Brand>(alloc, case, case.nodes, Blank::new(1))?;
    Ok(made && !less)
}

#[test]
fn each_step_of_a_sum_may_be_refused(rt: HostRuntime) -> Result<(), Fail> {
    for case in CASES {
        assert!(rt; is_least(rt.alloc(), case)?, "{case:?}");
    }
    Ok(())
}
