//! Diagrams that test each of 512 levels.
ghost use Rattle.std.specs.Prelude.{◌≡◌, ◌<◌, IfOk, true};
ghost use Rattle.spd_nodes.specs.Shown.{Shown};

use crate::guarded::{applied, chosen, fixed, levels, mapped, primed, test};
use spd_apply::{Add, TimesFloor};
use spd_nodes::{Alone, Forest, Layout, Leaf, Level, Ref, Steps, count};
use std::alloc::Global;
use std::marker::Brand;
use std::sync::ledger::{Blank, Ledger};
use std::test::Fail;

/// A chain of tests: where the test of a level holds, the leaf is the level's number modulo 2, else the rest follows.
fn link<F: Forest, L: Ledger>(
    forest: &mut F,
    level: u16,
    rest: Ref,
    steps: &mut Steps<L>,
) -> Result<Ref, Fail>
    requires { (F.shows forest.old).knows rest ≡ true }
    ensures { IfOk result (λ r. (F.shows forest.new).knows r ≡ true) }
{
    let number = if level % 2 == 0 { 0 } else { 1 };
    let yes = forest.leaf(Leaf::Num(number), steps)?;
    test(forest, Level(level), yes, rest, steps)
}

/// Which levels a chain tests.
#[derive(Clone, Copy)]
enum Tested {
    All,
    Plain,
}

/// Whether a level is tested.
fn is_tested(layout: &Layout, tested: Tested, level: u16) -> bool {
    if level >= levels(layout) {
        return false;
    }
    let (_, primed, _) = layout.what(Level(level));
    match tested {
        Tested::All => true,
        Tested::Plain => !primed,
    }
}

/// The chain of all 512 levels or of the plain ones, from the last one up. Where no test holds, the leaf is 0, which the last test's isn't.
fn chain<F: Forest, L: Ledger>(
    forest: &mut F,
    tested: Tested,
    steps: &mut Steps<L>,
) -> Result<Ref, Fail>
    ensures { IfOk result (λ r. (F.shows forest.new).knows r ≡ true) }
{
    let mut rest = forest.leaf(Leaf::Num(0), steps)?;
    for level in (0..512).rev() {
        if is_tested(forest.layout(), tested, level) {
            rest = link(forest, level, rest, steps)?;
        }
    }
    Ok(rest)
}

/// How many nodes the chain of all levels has, its sum with itself, three times it, it with the third variable held at
/// its value 30 and at its last one, and it or three times it by the last variable's value.
fn whole_counts<F: Forest, L: Ledger>(
    alloc: Global,
    forest: &mut F,
    steps: &mut Steps<L>,
) -> Result<[usize; 6], Fail> {
    let f = chain(forest, Tested::All, steps)?;
    let sum = applied(alloc, forest, &Add, f, f, steps)?;
    let thrice = mapped(alloc, forest, &TimesFloor { g: 3, gd: 1 }, f, steps)?;
    let middle = fixed(alloc, forest, f, 2, false, 30, steps)?;
    let last = fixed(alloc, forest, f, 2, false, 63, steps)?;
    let branch = chosen(alloc, forest, 4, false, &[f, thrice, f, thrice, f], steps)?;
    Ok([
        count(alloc, forest, f)?,
        count(alloc, forest, sum)?,
        count(alloc, forest, thrice)?,
        count(alloc, forest, middle)?,
        count(alloc, forest, last)?,
        count(alloc, forest, branch)?,
    ])
}

/// How many nodes the chain of the plain levels has, and it primed.
fn plain_counts<F: Forest, L: Ledger>(
    alloc: Global,
    forest: &mut F,
    steps: &mut Steps<L>,
) -> Result<[usize; 2], Fail> {
    let f = chain(forest, Tested::Plain, steps)?;
    let next = primed(alloc, forest, f, steps)?;
    Ok([count(alloc, forest, f)?, count(alloc, forest, next)?])
}

fn counts_alone<L: Ledger>(alloc: Global, blank: Blank) -> Result<([usize; 6], [usize; 2]), Fail>
    requires name { blank.name ≡ L.name }
    requires parts { blank.parts ≡ L.parts }
    requires one { 0 < blank.parts }
{
    let mut steps = Steps::<L>::new(blank);
    let layout = Layout::new(alloc, &[64, 64, 64, 64, 5])?;
    let mut forest = Alone::new(alloc, layout, 10_000)?;
    let whole = whole_counts(alloc, &mut forest, &mut steps)?;
    Ok((whole, plain_counts(alloc, &mut forest, &mut steps)?))
}

/// All tests and two leaves. The third variable's plain tests are the levels 315 to 377: at value 30 level 345's leaf stands
/// in place of what follows level 314, and at the last value 63 tests are gone. The last variable's plain tests are the
/// levels 508 to 511: the branch tests each of the 508 levels before them, and below those the four in two ways, whose
/// leaves are 1 and 3 below the odd levels, and 0 and 3 at the chain's end.
#[test]
fn chains_of_512_levels(rt: HostRuntime) -> Result<(), Fail> {
    let (whole, plain) = counts_alone::<Brand>(rt.alloc(), Blank::new(1))?;
    assert_eq!(rt; whole, [514, 514, 514, 317, 451, 508 + 2 * 4 + 3]);
    assert_eq!(rt; plain, [258, 258]);
    Ok(())
}
