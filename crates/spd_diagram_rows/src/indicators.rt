//! The indicators of two variables' first values, and their sum.
ghost use Rattle.std.specs.Prelude.{◌≡◌, ◌<◌, true};
ghost use Rattle.spd_nodes.specs.Shown.{Shown};

use crate::guarded::{applied, chosen, fixed, primed, test};
use crate::reading::leaf_at;
use spd_apply::{Add, leaves_of};
use spd_nodes::{Alone, Counting, Forest, Layout, Leaf, Level, Ref, Steps, StoreFault, count};
use std::alloc::Global;
use std::marker::Brand;
use std::sync::ledger::{Blank, Ledger};
use std::test::Fail;

/// Two indicators and what is made of them.
#[derive(Clone, Copy, Debug, PartialEq, Eq, Drop)]
struct Seen {
    /// How many nodes each indicator has, and the first one primed.
    indicators: (usize, usize, usize),
    /// How many nodes their sum has, and the sum at the first variable's first value.
    sums: (usize, usize),
    /// The find-or-make calls of the sum.
    calls: u64,
    /// The sum at the present states (0, 0), (0, 1), (1, 0) and (1, 1).
    leaves: [Option<Leaf>; 4],
    /// Whether the sum's distinct leaves are 0, 1 and 2.
    has_three_leaves: bool,
    /// How many nodes the second indicator has where the first variable has its first value, and 0 elsewhere.
    choice: usize,
}

/// The leaves of a diagram at the present states of two variables of two values, whatever the next state is.
fn four_leaves<F: Forest>(forest: &mut F, r: Ref) -> [Option<Leaf>; 4]
    requires { (F.shows forest.old).knows r ≡ true }
    ensures { F.shows forest.new ≡ F.shows forest.old }
{
    [
        leaf_at(forest, r, &[0, 0], &[1, 1], 5),
        leaf_at(forest, r, &[0, 1], &[0, 0], 5),
        leaf_at(forest, r, &[1, 0], &[1, 0], 5),
        leaf_at(forest, r, &[1, 1], &[0, 1], 5),
    ]
}

fn indicators<F: Forest, L: Ledger>(
    alloc: Global,
    forest: &mut Counting<F>,
    steps: &mut Steps<L>,
) -> Result<Seen, Fail> {
    let one = forest.leaf(Leaf::Num(1), steps)?;
    let zero = forest.leaf(Leaf::Num(0), steps)?;
    let f = test(forest, Level(1), one, zero, steps)?;
    let g = test(forest, Level(3), one, zero, steps)?;
    let before = forest.calls;
    let sum = applied(alloc, forest, &Add, f, g, steps)?;
    let calls = forest.calls.wrapping_sub(before);
    let distinct = leaves_of(alloc, forest, sum)?;
    let at_first = fixed(alloc, forest, sum, 0, false, 0, steps)?;
    let choice = chosen(alloc, forest, 0, false, &[g, zero], steps)?;
    let next = primed(alloc, forest, f, steps)?;
    Ok(Seen {
        indicators: (
            count(alloc, forest, f)?,
            count(alloc, forest, g)?,
            count(alloc, forest, next)?,
        ),
        sums: (count(alloc, forest, sum)?, count(alloc, forest, at_first)?),
        calls,
        leaves: four_leaves(forest, sum),
        has_three_leaves: distinct.as_slice()
            == [0, 1, 2].map(|number| Leaf::Num(number)).as_slice(),
        choice: count(alloc, forest, choice)?,
    })
}

fn indicators_alone<L: Ledger>(alloc: Global, blank: Blank) -> Result<Seen, Fail>
    requires name { blank.name ≡ L.name }
    requires parts { blank.parts ≡ L.parts }
    requires one { 0 < blank.parts }
{
    let mut steps = Steps::<L>::new(blank);
    let forest = Alone::new(alloc, Layout::new(alloc, &[2, 2])?, 64)?;
    let mut counting = Counting { forest, calls: 0 };
    indicators(alloc, &mut counting, &mut steps)
}

/// Whether the third distinct leaf is Full in a forest of two entries.
fn is_third_full<L: Ledger>(alloc: Global, blank: Blank) -> Result<bool, Fail>
    requires name { blank.name ≡ L.name }
    requires parts { blank.parts ≡ L.parts }
    requires one { 0 < blank.parts }
{
    let mut steps = Steps::<L>::new(blank);
    let mut forest = Alone::new(alloc, Layout::new(alloc, &[2, 2])?, 2)?;
    forest.leaf(Leaf::Num(0), &mut steps)?;
    forest.leaf(Leaf::Num(1), &mut steps)?;
    Ok(forest.leaf(Leaf::Num(2), &mut steps) == Err(StoreFault::Full))
}

#[test]
fn a_sum_of_indicators(rt: HostRuntime) -> Result<(), Fail> {
    let seen = indicators_alone::<Brand>(rt.alloc(), Blank::new(1))?;
    assert_eq!(rt; seen.indicators, (3, 3, 3));
    assert_eq!(rt; seen.sums, (6, 3));
    assert!(rt; seen.calls <= 9);
    let leaves = [2, 1, 1, 0].map(|number| Some(Leaf::Num(number)));
    assert_eq!(rt; seen.leaves, leaves);
    assert!(rt; seen.has_three_leaves);
    assert_eq!(rt; seen.choice, 4);
    assert!(rt; is_third_full::<Brand>(rt.alloc(), Blank::new(1))?);
    Ok(())
}
