//! Forests: what no clause says, and each call once.

ghost use Rattle.std.specs.Prelude.{◌≡◌, ℕ, ◌<◌, ◌∷◌, []};
ghost use Rattle.spd_nodes.specs.Levels.{levels_of, slots};

use spd_nodes::{
    Alone, Counting, Forest, Layout, Leaf, Level, Steps, StoreFault, can_test, count,
    is_same_function, is_same_rest, is_whole, reached,
};
use std::alloc::Global;
use std::marker::Brand;
use std::sync::ledger::{Blank, Ledger};
use std::test::Fail;

/// Whether the first, the second, the third and again the first of three distinct leaves come in a forest of two entries.
fn three_leaves<L: Ledger>(alloc: Global, blank: Blank) -> Result<[bool; 4], Fail>
    requires name { blank.name ≡ L.name }
    requires parts { blank.parts ≡ L.parts }
    requires one { 0 < blank.parts }
{
    let mut steps = Steps::<L>::new(blank);
    let mut forest = Alone::new(alloc, Layout::new(alloc, &[2, 2])?, 2)?;
    let first = forest.leaf(Leaf::Num(1), &mut steps);
    let second = forest.leaf(Leaf::Pair(1, 1), &mut steps);
    let third = forest.leaf(Leaf::Act(1), &mut steps);
    let again = forest.leaf(Leaf::Num(1), &mut steps);
    Ok([
        first.is_ok(),
        second.is_ok(),
        third == Err(StoreFault::Full),
        again == first,
    ])
}

#[test]
fn full_comes_at_the_limit(rt: HostRuntime) -> Result<(), Fail> {
    let seen = three_leaves::<Brand>(rt.alloc(), Blank::new(1))?;
    assert_eq!(rt; seen, [true, true, true, true]);
    Ok(())
}

/// The nodes of "is the first of two variables its first value?", with 1 for yes and 0 for no; the find-or-make calls that
/// were taken for it; and whether a test with it as both children is itself.
fn indicator<F: Forest, L: Ledger>(
    alloc: Global,
    forest: &mut Counting<F>,
    steps: &mut Steps<L>,
) -> Result<(usize, u64, bool), Fail>
    requires { (F.shows forest.old.forest).sizes ≡ 2 ∷ 2 ∷ [] }
{
    let one = forest.leaf(Leaf::Num(1), steps)?;
    let zero = forest.leaf(Leaf::Num(0), steps)?;
    let f = forest.test(Level(1), one, zero, steps)?;
    let same = forest.test(Level(0), f, f, steps)?;
    Ok((count(alloc, forest, f)?, forest.calls, same == f))
}

/// The same over a forest of 64 entries.
fn indicator_alone<L: Ledger>(alloc: Global, blank: Blank) -> Result<(usize, u64, bool), Fail>
    requires name { blank.name ≡ L.name }
    requires parts { blank.parts ≡ L.parts }
    requires one { 0 < blank.parts }
{
    let mut steps = Steps::<L>::new(blank);
    let forest = Alone::new(alloc, Layout::new(alloc, &[2, 2])?, 64)?;
    let mut counting = Counting { forest, calls: 0 };
    indicator(alloc, &mut counting, &mut steps)
}

#[test]
fn an_indicator_has_three_nodes(rt: HostRuntime) -> Result<(), Fail> {
    assert_eq!(rt;
        indicator_alone::<Brand>(rt.alloc(), Blank::new(1))?,
        (3, 3, true)
    );
    Ok(())
}

/// "Is some variable not at its last value?", with a test at each level, in one chain: the number of its nodes, of the Refs
/// that are reached, and whether it is the last of them.
fn all_levels<F: Forest, L: Ledger>(
    alloc: Global,
    forest: &mut F,
    levels: u16,
    steps: &mut Steps<L>,
) -> Result<(usize, usize, bool), Fail>
    requires { levels ≡ levels_of (slots (F.shows forest.old).sizes) }
{
    let one = forest.leaf(Leaf::Num(1), steps)?;
    let mut rest = forest.leaf(Leaf::Num(0), steps)?;
    for done in 0..levels {
        rest = forest.test(Level(levels - 1 - done), one, rest, steps)?;
    }
    let refs = reached(alloc, forest, rest)?;
    let last = refs.as_slice().last() == Some(&rest);
    Ok((count(alloc, forest, rest)?, refs.len(), last))
}

/// The same with as many levels as there may be.
fn deepest<L: Ledger>(alloc: Global, blank: Blank) -> Result<(usize, usize, bool), Fail>
    requires name { blank.name ≡ L.name }
    requires parts { blank.parts ≡ L.parts }
    requires one { 0 < blank.parts }
{
    let mut steps = Steps::<L>::new(blank);
    let mut forest = Alone::new(alloc, Layout::new(alloc, &[64, 64, 64, 64, 5])?, 514)?;
    all_levels(alloc, &mut forest, 512, &mut steps)
}

#[test]
fn the_deepest_diagram_is_counted(rt: HostRuntime) -> Result<(), Fail> {
    assert_eq!(rt;
        deepest::<Brand>(rt.alloc(), Blank::new(1))?,
        (514, 514, true)
    );
    Ok(())
}

/// Whether the leaf 1 is the leaf 1, and the leaf 0; and whether a test of a variable's second value is itself, and the test
/// with its children the other way.
fn comparisons<F: Forest, L: Ledger>(
    forest: &mut F,
    steps: &mut Steps<L>,
) -> Result<[bool; 4], Fail>
    requires { (F.shows forest.old).sizes ≡ 3 ∷ [] }
{
    let zero = forest.leaf(Leaf::Num(0), steps)?;
    let one = forest.leaf(Leaf::Num(1), steps)?;
    let same = is_same_function(forest, one, one);
    let other = is_same_function(forest, one, zero);
    let f = forest.test(Level(1), one, zero, steps)?;
    let g = forest.test(Level(1), zero, one, steps)?;
    Ok([
        same,
        other,
        is_same_rest(forest, Level(1), f, f),
        is_same_rest(forest, Level(1), f, g),
    ])
}

/// The same over a forest of 64 entries.
fn comparisons_alone<L: Ledger>(alloc: Global, blank: Blank) -> Result<[bool; 4], Fail>
    requires name { blank.name ≡ L.name }
    requires parts { blank.parts ≡ L.parts }
    requires one { 0 < blank.parts }
{
    let mut steps = Steps::<L>::new(blank);
    let mut forest = Alone::new(alloc, Layout::new(alloc, &[3])?, 64)?;
    comparisons(&mut forest, &mut steps)
}

#[test]
fn equal_refs_are_the_same(rt: HostRuntime) -> Result<(), Fail> {
    let same = comparisons_alone::<Brand>(rt.alloc(), Blank::new(1))?;
    assert_eq!(rt; same, [true, false, true, false]);
    Ok(())
}

/// With three values: whether a leaf, a test of the first value and one of the second value are whole; and whether the test of
/// the second value may be the `no`, and the `yes`, of the first value's, and the `no` of its own.
fn conditions<F: Forest, L: Ledger>(forest: &mut F, steps: &mut Steps<L>) -> Result<[bool; 6], Fail>
    requires { (F.shows forest.old).sizes ≡ 3 ∷ [] }
{
    let zero = forest.leaf(Leaf::Num(0), steps)?;
    let one = forest.leaf(Leaf::Num(1), steps)?;
    let first = forest.test(Level(0), one, zero, steps)?;
    let second = forest.test(Level(1), one, zero, steps)?;
    Ok([
        is_whole(forest, one),
        is_whole(forest, first),
        is_whole(forest, second),
        can_test(forest, Level(0), one, second),
        can_test(forest, Level(0), second, one),
        can_test(forest, Level(1), one, second),
    ])
}

/// The same over a forest of 64 entries.
fn conditions_alone<L: Ledger>(alloc: Global, blank: Blank) -> Result<[bool; 6], Fail>
    requires name { blank.name ≡ L.name }
    requires parts { blank.parts ≡ L.parts }
    requires one { 0 < blank.parts }
{
    let mut steps = Steps::<L>::new(blank);
    let mut forest = Alone::new(alloc, Layout::new(alloc, &[3])?, 64)?;
    conditions(&mut forest, &mut steps)
}

#[test]
fn conditions_are_tested(rt: HostRuntime) -> Result<(), Fail> {
    let seen = conditions_alone::<Brand>(rt.alloc(), Blank::new(1))?;
    assert_eq!(rt; seen, [true, true, false, true, false, false]);
    Ok(())
}

#[test]
fn layouts_are_tested(rt: HostRuntime) -> Result<(), Fail> {
    for (sizes, fits) in [
        (&[2, 3, 1][..], true),
        (&[64, 64, 64, 64, 5][..], true),
        (&[64, 64, 64, 64, 6][..], false),
        (&[2, 0][..], false),
        (&[65][..], false),
        (&[1; 100][..], true),
        (&[1; 101][..], false),
        (&[][..], false),
    ] {
        assert_eq!(rt; Layout::fits(sizes), fits);
    }
    Ok(())
}

#[test]
fn levels_go_primed_before_plain(rt: HostRuntime) -> Result<(), Fail> {
    let layout = Layout::new(rt.alloc(), &[2, 3, 1])?;
    for (var, primed, value, level) in [
        (0, true, 0, 0),
        (0, false, 0, 1),
        (1, true, 0, 2),
        (1, true, 1, 3),
        (1, false, 0, 4),
        (1, false, 1, 5),
    ] {
        assert_eq!(rt; layout.what(Level(level)), (var, primed, value));
        assert_eq!(rt; layout.level(var, primed, value), Level(level));
    }
    assert_eq!(rt; layout.tests(2, true), (6, 6));
    assert_eq!(rt; layout.tests(1, false), (4, 6));
    assert_eq!(rt; layout.end(Level(2)), 4);
    Ok(())
}
