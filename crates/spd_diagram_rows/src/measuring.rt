//! The residual of a value, between the bounds of two actions.

ghost use Rattle.std.specs.Prelude.{◌≡◌, ◌<◌};

use spd_backup::Bounds;
use spd_frozen::Residual;
use spd_model::Side;
use spd_nodes::{Alone, Forest, Layout, Leaf, Steps};
use spd_policy::best;
use spd_residual::residual;
use std::alloc::Global;
use std::marker::Brand;
use std::sync::ledger::{Blank, Ledger};
use std::test::Fail;

/// The residual of the value 9, where the lower bounds are 2 and 3 and both upper ones are 5.
fn measured<F: Forest, L: Ledger>(
    alloc: Global,
    forest: &mut F,
    steps: &mut Steps<L>,
) -> Result<Residual, Fail> {
    let two = forest.leaf(Leaf::Num(2), steps)?;
    let three = forest.leaf(Leaf::Num(3), steps)?;
    let five = forest.leaf(Leaf::Num(5), steps)?;
    let nine = forest.leaf(Leaf::Num(9), steps)?;
    let bounds = [
        Bounds { lo: two, hi: five },
        Bounds {
            lo: three,
            hi: five,
        },
    ];
    let best = best(alloc, forest, &bounds, 16, steps)?;
    Ok(residual(alloc, forest, nine, &bounds, &best, 16, steps)?)
}

/// The same over a forest of 64 entries.
fn alone<L: Ledger>(alloc: Global, blank: Blank) -> Result<Residual, Fail>
    requires name { blank.name ≡ L.name }
    requires parts { blank.parts ≡ L.parts }
    requires one { 0 < blank.parts }
{
    let mut steps = Steps::<L>::new(blank);
    let mut forest = Alone::new(alloc, Layout::new(alloc, &[2])?, 64)?;
    measured(alloc, &mut forest, &mut steps)
}

// The value lies 6 above the greatest lower bound, which is the second action's, at both states.
#[test]
fn a_residual_is_told_with_its_place(rt: HostRuntime) -> Result<(), Fail> {
    let found = alone::<Brand>(rt.alloc(), Blank::new(1))?;
    assert_eq!(rt; found.r, 6);
    assert_eq!(rt; found.at.len(), 1);
    assert_eq!(rt; found.at.get(0), 0);
    assert_eq!(rt; found.side, Side::Below);
    assert_eq!(rt; found.action, 1);
    Ok(())
}
