//! The middle of a range.

ghost use Rattle.std.specs.Prelude.{◌≡◌, ◌≤ℤ◌, ◌+ℤ◌, pos};
ghost use Rattle.spd_scaled.specs.Scaled.{floor_div};
ghost use Rattle.spd_ranges.specs.inner.Groups.{is_range, middle_leaf};

use spd_apply::LeafMap;
use spd_nodes::Leaf;

/// The middle of a range, rounded down. The sum of its ends may pass an `i128`, and half of their distance doesn't.
fn halfway(low: i128, high: i128) -> i128
    requires { low ≤ℤ high }
    ensures { result ≡ floor_div (low +ℤ high) (pos 2) }
{
    let half = high.abs_diff(low) / 2;
    low + half as i128
}

/// The middle of a Pair's numbers, rounded down, as a Num. It fits where the first is at most the second.
#[derive(Clone, Copy, Debug)]
pub(crate) struct Middle;

impl LeafMap for Middle {
    ghost fits = { λ _ a. is_range a };

    ghost of = { λ _ a. middle_leaf a };

    fn fits(&self, a: Leaf) -> bool {
        match a {
            Leaf::Pair(low, high) => low <= high,
            _ => false,
        }
    }

    fn of(&self, a: Leaf) -> Leaf {
        match a {
            Leaf::Pair(low, high) => Leaf::Num(halfway(low, high)),
            _ => a,
        }
    }
}
