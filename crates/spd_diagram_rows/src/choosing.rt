//! Choosing the best of the bounds of four actions.

ghost use Rattle.std.specs.Prelude.{◌≡◌, ◌<◌, ◌∷◌, [], true};
ghost use Rattle.spd_nodes.specs.Shown.{Shown};

use spd_backup::Bounds;
use spd_nodes::{Alone, Forest, Layout, Leaf, Level, Ref, Steps, View};
use spd_policy::best;
use std::alloc::Global;
use std::marker::Brand;
use std::sync::ledger::{Blank, Ledger};
use std::test::Fail;

/// The leaves of a diagram of one variable where it has its first value, and elsewhere.
fn leaves<F: Forest>(forest: &mut F, r: Ref) -> (View, View)
    requires { (F.shows forest.old).knows r ≡ true }
    ensures { F.shows forest.new ≡ F.shows forest.old }
{
    let root = forest.view(r);
    match root {
        View::Leaf(_) => (root, root),
        View::Test { yes, no, .. } => (forest.view(yes), forest.view(no)),
    }
}

/// The greatest bounds and the policy, where the lower bounds are 3, 3, 9 and 3 at the variable's first value and 3, 5, 3 and 5 elsewhere,
/// and the upper ones 3, 9, 9 and 5.
fn chosen<F: Forest, L: Ledger>(
    alloc: Global,
    forest: &mut F,
    steps: &mut Steps<L>,
) -> Result<[(View, View); 3], Fail>
    requires { (F.shows forest.old).sizes ≡ 2 ∷ [] }
{
    let three = forest.leaf(Leaf::Num(3), steps)?;
    let five = forest.leaf(Leaf::Num(5), steps)?;
    let nine = forest.leaf(Leaf::Num(9), steps)?;
    let later = forest.test(Level(1), three, five, steps)?;
    let earlier = forest.test(Level(1), nine, three, steps)?;
    let bounds = [
        Bounds {
            lo: three,
            hi: three,
        },
        Bounds {
            lo: later,
            hi: nine,
        },
        Bounds {
            lo: earlier,
            hi: nine,
        },
        Bounds {
            lo: later,
            hi: five,
        },
    ];
    let best = best(alloc, forest, &bounds, 16, steps)?;
    Ok([
        leaves(forest, best.low),
        leaves(forest, best.high),
        leaves(forest, best.act),
    ])
}

/// The same over a forest of 64 entries.
fn alone<L: Ledger>(alloc: Global, blank: Blank) -> Result<[(View, View); 3], Fail>
    requires name { blank.name ≡ L.name }
    requires parts { blank.parts ≡ L.parts }
    requires one { 0 < blank.parts }
{
    let mut steps = Steps::<L>::new(blank);
    let mut forest = Alone::new(alloc, Layout::new(alloc, &[2])?, 64)?;
    chosen(alloc, &mut forest, &mut steps)
}

#[test]
fn the_first_of_the_greatest_is_chosen(rt: HostRuntime) -> Result<(), Fail> {
    let num = |x: i128| View::Leaf(Leaf::Num(x));
    let act = |a: u32| View::Leaf(Leaf::Act(a));
    let [low, high, policy] = alone::<Brand>(rt.alloc(), Blank::new(1))?;
    assert_eq!(rt; low, (num(9), num(5)));
    assert_eq!(rt; high, (num(9), num(9)));
    assert_eq!(rt; policy, (act(2), act(1)));
    Ok(())
}
