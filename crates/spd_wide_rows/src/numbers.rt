//! Leaves that are numbers of tests.
ghost use Rattle.spd_wide_rows.specs.Numbers.{is_test_number};

use spd_apply::LeafMap;
use spd_nodes::Leaf;

/// Fits the numbers of at most 512 in magnitude, and answers them.
pub struct IsTestNumber;

impl LeafMap for IsTestNumber {
    ghost fits = { λ _ a. is_test_number a };

    ghost of = { λ _ a. a };

    fn fits(&self, a: Leaf) -> bool {
        match a {
            Leaf::Num(x) => x.unsigned_abs() <= 512,
            _ => false,
        }
    }

    fn of(&self, a: Leaf) -> Leaf {
        a
    }
}
