//! Summing out and discounting, each call once.

ghost use Rattle.std.specs.Prelude.{◌≡◌, ℕ, ◌<◌, ◌∷◌, [], true};
ghost use Rattle.spd_nodes.specs.Shown.{Shown};
ghost use Rattle.spd_weigh.specs.Leaves.{HasValues};

use spd_nodes::{Alone, Forest, Layout, Leaf, Level, Ref, Steps, View};
use spd_weigh::{Way, discount, sum_out};
use std::alloc::Global;
use std::marker::Brand;
use std::sync::ledger::{Blank, Ledger};
use std::test::Fail;

/// The number of a leaf.
fn number<F: Forest>(forest: &mut F, r: Ref) -> i128
    requires { (F.shows forest.old).knows r ≡ true }
{
    match forest.view(r) {
        View::Leaf(Leaf::Num(x)) => x,
        _ => -1,
    }
}

/// The sum over a variable with weights 1/4 and 3/4 of two numbers, rounded.
fn sum<F: Forest, L: Ledger>(
    alloc: Global,
    forest: &mut F,
    way: Way,
    steps: &mut Steps<L>,
) -> Result<i128, Fail>
    requires { (F.shows forest.old).sizes ≡ 2 ∷ [] }
{
    let quarter = forest.leaf(Leaf::Num(250_000_000_000), steps)?;
    let rest = forest.leaf(Leaf::Num(750_000_000_000), steps)?;
    let seven = forest.leaf(Leaf::Num(7), steps)?;
    let ten = forest.leaf(Leaf::Num(10), steps)?;
    let f = forest.test(Level(0), seven, ten, steps)?;
    let sum = sum_out(alloc, forest, f, 0, &[quarter, rest], way, 16, steps)?;
    Ok(number(forest, sum))
}

/// 9 times 0.9, rounded.
fn discounted<F: Forest, L: Ledger>(
    alloc: Global,
    forest: &mut F,
    way: Way,
    steps: &mut Steps<L>,
) -> Result<i128, Fail> {
    let nine = forest.leaf(Leaf::Num(9), steps)?;
    let product = discount(alloc, forest, nine, 900_000, way, steps)?;
    Ok(number(forest, product))
}

/// Both, over a forest of 64 entries.
fn alone<L: Ledger>(alloc: Global, blank: Blank, way: Way) -> Result<(i128, i128), Fail>
    requires name { blank.name ≡ L.name }
    requires parts { blank.parts ≡ L.parts }
    requires one { 0 < blank.parts }
{
    let mut steps = Steps::<L>::new(blank);
    let mut forest = Alone::new(alloc, Layout::new(alloc, &[2])?, 64)?;
    let sum = sum(alloc, &mut forest, way, &mut steps)?;
    Ok((sum, discounted(alloc, &mut forest, way, &mut steps)?))
}

#[test]
fn sums_and_products_are_rounded(rt: HostRuntime) -> Result<(), Fail> {
    let alloc = rt.alloc();
    assert_eq!(rt; alone::<Brand>(alloc, Blank::new(1), Way::Down)?, (9, 8));
    assert_eq!(rt; alone::<Brand>(alloc, Blank::new(1), Way::Up)?, (10, 9));
    Ok(())
}
