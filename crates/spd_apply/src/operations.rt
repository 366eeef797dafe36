//! The operations on two leaves.

ghost use Rattle.std.specs.Prelude.{◌≡◌, ◌+ℤ◌, ◌-ℤ◌, ◌*ℤ◌};
ghost use Rattle.std.specs.Int.{int_max, int_min};
ghost use Rattle.spd_apply.specs.Operations.{are_nums, num_of, num_fits, pair_of, are_pairs, first_greater, is_pair_and_num, kept_of};

use crate::leaf_op::LeafOp;
use spd_nodes::Leaf;

/// The sum of two Num, which fit where it is an `i128`.
#[derive(Clone, Copy, Debug)]
pub struct Add;

impl LeafOp for Add {
    ghost fits = { λ _ a b. num_fits (λ x y. x +ℤ y) a b };

    ghost of = { λ _ a b. num_of (λ x y. x +ℤ y) a b };

    fn fits(&self, a: Leaf, b: Leaf) -> bool {
        match (a, b) {
            (Leaf::Num(x), Leaf::Num(y)) => x.checked_add(y).is_some(),
            _ => false,
        }
    }

    fn of(&self, a: Leaf, b: Leaf) -> Leaf {
        match (a, b) {
            (Leaf::Num(x), Leaf::Num(y)) => Leaf::Num(x + y),
            _ => a,
        }
    }
}

/// The difference of two Num, which fit where it is an `i128`.
#[derive(Clone, Copy, Debug)]
pub struct Sub;

impl LeafOp for Sub {
    ghost fits = { λ _ a b. num_fits (λ x y. x -ℤ y) a b };

    ghost of = { λ _ a b. num_of (λ x y. x -ℤ y) a b };

    fn fits(&self, a: Leaf, b: Leaf) -> bool {
        match (a, b) {
            (Leaf::Num(x), Leaf::Num(y)) => x.checked_sub(y).is_some(),
            _ => false,
        }
    }

    fn of(&self, a: Leaf, b: Leaf) -> Leaf {
        match (a, b) {
            (Leaf::Num(x), Leaf::Num(y)) => Leaf::Num(x - y),
            _ => a,
        }
    }
}

/// The product of two Num, which fit where it is an `i128`.
#[derive(Clone, Copy, Debug)]
pub struct Mul;

impl LeafOp for Mul {
    ghost fits = { λ _ a b. num_fits (λ x y. x *ℤ y) a b };

    ghost of = { λ _ a b. num_of (λ x y. x *ℤ y) a b };

    fn fits(&self, a: Leaf, b: Leaf) -> bool {
        match (a, b) {
            (Leaf::Num(x), Leaf::Num(y)) => x.checked_mul(y).is_some(),
            _ => false,
        }
    }

    fn of(&self, a: Leaf, b: Leaf) -> Leaf {
        match (a, b) {
            (Leaf::Num(x), Leaf::Num(y)) => Leaf::Num(x * y),
            _ => a,
        }
    }
}

/// The greater of two Num.
#[derive(Clone, Copy, Debug)]
pub struct Max;

impl LeafOp for Max {
    ghost fits = { λ _ a b. are_nums a b };

    ghost of = { λ _ a b. num_of int_max a b };

    fn fits(&self, a: Leaf, b: Leaf) -> bool {
        match (a, b) {
            (Leaf::Num(_), Leaf::Num(_)) => true,
            _ => false,
        }
    }

    fn of(&self, a: Leaf, b: Leaf) -> Leaf {
        match (a, b) {
            (Leaf::Num(x), Leaf::Num(y)) => Leaf::Num(x.max(y)),
            _ => a,
        }
    }
}

/// The lesser of two Num.
#[derive(Clone, Copy, Debug)]
pub struct Min;

impl LeafOp for Min {
    ghost fits = { λ _ a b. are_nums a b };

    ghost of = { λ _ a b. num_of int_min a b };

    fn fits(&self, a: Leaf, b: Leaf) -> bool {
        match (a, b) {
            (Leaf::Num(_), Leaf::Num(_)) => true,
            _ => false,
        }
    }

    fn of(&self, a: Leaf, b: Leaf) -> Leaf {
        match (a, b) {
            (Leaf::Num(x), Leaf::Num(y)) => Leaf::Num(x.min(y)),
            _ => a,
        }
    }
}

/// The Pair of two Num.
#[derive(Clone, Copy, Debug)]
pub struct MakePair;

impl LeafOp for MakePair {
    ghost fits = { λ _ a b. are_nums a b };

    ghost of = { λ _ a b. pair_of a b };

    fn fits(&self, a: Leaf, b: Leaf) -> bool {
        match (a, b) {
            (Leaf::Num(_), Leaf::Num(_)) => true,
            _ => false,
        }
    }

    fn of(&self, a: Leaf, b: Leaf) -> Leaf {
        match (a, b) {
            (Leaf::Num(x), Leaf::Num(y)) => Leaf::Pair(x, y),
            _ => a,
        }
    }
}

/// Of two Pairs, the left one where its first number is at least the right one's, else the right one.
#[derive(Clone, Copy, Debug)]
pub struct PickFirst;

impl LeafOp for PickFirst {
    ghost fits = { λ _ a b. are_pairs a b };

    ghost of = { λ _ a b. first_greater a b };

    fn fits(&self, a: Leaf, b: Leaf) -> bool {
        match (a, b) {
            (Leaf::Pair(_, _), Leaf::Pair(_, _)) => true,
            _ => false,
        }
    }

    fn of(&self, a: Leaf, b: Leaf) -> Leaf {
        match (a, b) {
            (Leaf::Pair(x, _), Leaf::Pair(y, _)) => { if x < y { b } else { a } }
            _ => a,
        }
    }
}

/// Of a Pair and a Num, the Pair with the Num in second place where its first number is this one, else the Pair.
#[derive(Clone, Copy, Debug)]
pub struct Keep(pub u32);

impl LeafOp for Keep {
    ghost fits = { λ _ a b. is_pair_and_num a b };

    ghost of = { λ k a b. kept_of k.0 a b };

    fn fits(&self, a: Leaf, b: Leaf) -> bool {
        match (a, b) {
            (Leaf::Pair(_, _), Leaf::Num(_)) => true,
            _ => false,
        }
    }

    fn of(&self, a: Leaf, b: Leaf) -> Leaf {
        match (a, b) {
            (Leaf::Pair(number, old), Leaf::Num(new)) => {
                let kept = if number == self.0 as i128 { new } else { old };
                Leaf::Pair(number, kept)
            }
            _ => a,
        }
    }
}
