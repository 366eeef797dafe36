//! The maps of leaves that take a Pair or an Act apart.

ghost use Rattle.std.specs.Prelude.{◌≡◌};
ghost use Rattle.spd_apply.specs.Operations.{is_pair, first_of_pair, second_of_pair, is_pair_with_act, second_as_act, is_act, act_number};

use crate::leaf_op::LeafMap;
use spd_nodes::Leaf;

/// The first number of a Pair, as a Num.
#[derive(Clone, Copy, Debug)]
pub struct First;

impl LeafMap for First {
    ghost fits = { λ _ a. is_pair a };

    ghost of = { λ _ a. first_of_pair a };

    fn fits(&self, a: Leaf) -> bool {
        match a {
            Leaf::Pair(_, _) => true,
            _ => false,
        }
    }

    fn of(&self, a: Leaf) -> Leaf {
        match a {
            Leaf::Pair(x, _) => Leaf::Num(x),
            _ => a,
        }
    }
}

/// The second number of a Pair, as a Num.
#[derive(Clone, Copy, Debug)]
pub struct Second;

impl LeafMap for Second {
    ghost fits = { λ _ a. is_pair a };

    ghost of = { λ _ a. second_of_pair a };

    fn fits(&self, a: Leaf) -> bool {
        match a {
            Leaf::Pair(_, _) => true,
            _ => false,
        }
    }

    fn of(&self, a: Leaf) -> Leaf {
        match a {
            Leaf::Pair(_, y) => Leaf::Num(y),
            _ => a,
        }
    }
}

/// The second number of a Pair, as an Act. It fits where it is a `u32`.
#[derive(Clone, Copy, Debug)]
pub struct SecondAct;

impl LeafMap for SecondAct {
    ghost fits = { λ _ a. is_pair_with_act a };

    ghost of = { λ _ a. second_as_act a };

    fn fits(&self, a: Leaf) -> bool {
        match a {
            Leaf::Pair(_, y) => 0 <= y && y <= u32::MAX as i128,
            _ => false,
        }
    }

    fn of(&self, a: Leaf) -> Leaf {
        match a {
            Leaf::Pair(_, y) => Leaf::Act(y as u32),
            _ => a,
        }
    }
}

/// The number of an Act, as a Num.
#[derive(Clone, Copy, Debug)]
pub struct ActNum;

impl LeafMap for ActNum {
    ghost fits = { λ _ a. is_act a };

    ghost of = { λ _ a. act_number a };

    fn fits(&self, a: Leaf) -> bool {
        match a {
            Leaf::Act(_) => true,
            _ => false,
        }
    }

    fn of(&self, a: Leaf) -> Leaf {
        match a {
            Leaf::Act(x) => Leaf::Num(x as i128),
            _ => a,
        }
    }
}
