//! The maps of leaves that divide and round.

ghost use Rattle.std.specs.Prelude.{◌≡◌};
ghost use Rattle.spd_apply.specs.Rounding.{by_fits, floor_by, ceil_by, times_fits, times_floor, times_ceil};

use crate::leaf_op::LeafMap;
use spd_nodes::Leaf;
use spd_scaled::{ceil_div, floor_div};

/// A Num divided by a number above 0, rounded down.
#[derive(Clone, Copy, Debug)]
pub struct FloorBy(pub i128);

impl LeafMap for FloorBy {
    ghost fits = { λ m a. by_fits m.0 a };

    ghost of = { λ m a. floor_by m.0 a };

    fn fits(&self, a: Leaf) -> bool {
        match a {
            Leaf::Num(_) => 0 < self.0,
            _ => false,
        }
    }

    fn of(&self, a: Leaf) -> Leaf {
        match a {
            Leaf::Num(x) => Leaf::Num(floor_div(x, self.0)),
            _ => a,
        }
    }
}

/// A Num divided by a number above 0, rounded up.
#[derive(Clone, Copy, Debug)]
pub struct CeilBy(pub i128);

impl LeafMap for CeilBy {
    ghost fits = { λ m a. by_fits m.0 a };

    ghost of = { λ m a. ceil_by m.0 a };

    fn fits(&self, a: Leaf) -> bool {
        match a {
            Leaf::Num(_) => 0 < self.0,
            _ => false,
        }
    }

    fn of(&self, a: Leaf) -> Leaf {
        match a {
            Leaf::Num(x) => Leaf::Num(ceil_div(x, self.0)),
            _ => a,
        }
    }
}

/// A Num times `g`, divided by `gd` above 0 and rounded down. It fits where the product is an `i128`.
#[derive(Clone, Copy, Debug)]
pub struct TimesFloor {
    pub g: i128,
    pub gd: i128,
}

impl LeafMap for TimesFloor {
    ghost fits = { λ m a. times_fits m.g m.gd a };

    ghost of = { λ m a. times_floor m.g m.gd a };

    fn fits(&self, a: Leaf) -> bool {
        match a {
            Leaf::Num(x) => 0 < self.gd && self.g.checked_mul(x).is_some(),
            _ => false,
        }
    }

    fn of(&self, a: Leaf) -> Leaf {
        match a {
            Leaf::Num(x) => Leaf::Num(floor_div(self.g * x, self.gd)),
            _ => a,
        }
    }
}

/// A Num times `g`, divided by `gd` above 0 and rounded up. It fits where the product is an `i128`.
#[derive(Clone, Copy, Debug)]
pub struct TimesCeil {
    pub g: i128,
    pub gd: i128,
}

impl LeafMap for TimesCeil {
    ghost fits = { λ m a. times_fits m.g m.gd a };

    ghost of = { λ m a. times_ceil m.g m.gd a };

    fn fits(&self, a: Leaf) -> bool {
        match a {
            Leaf::Num(x) => 0 < self.gd && self.g.checked_mul(x).is_some(),
            _ => false,
        }
    }

    fn of(&self, a: Leaf) -> Leaf {
        match a {
            Leaf::Num(x) => {
                let product = self.g * x;
                Leaf::Num(ceil_div(product, self.gd))
            }
            _ => a,
        }
    }
}
