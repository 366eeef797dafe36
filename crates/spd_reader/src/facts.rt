//! What a use of a decision diagram asks.

ghost use Rattle.std.specs.Prelude.{◌≡◌, if◌then◌else◌, Some, None};
ghost use Rattle.spd_reader.specs.Facts.{lesser_var, together, deeper, of_leaf, of_branch, no_facts, primes_wrong_in, negative_wrong_in, fine_wrong_in};

use crate::purpose::Purpose;

/// What is written in a decision diagram and in those that it names, as far as a use of it asks.
#[derive(Clone, Copy, PartialEq, Eq, Debug)]
pub(crate) struct Facts {
    /// The least variable whose next value is tested.
    pub primed: Option<u32>,
    /// Whether a leaf is below zero.
    pub negative: bool,
    /// Whether a leaf is no whole number of 10^-9.
    pub fine: bool,
    /// How deep it nests, or 301 where it passes 300.
    pub nesting: u32,
}

/// The lesser of two variables, as far as there are any.
fn lesser_var(a: Option<u32>, b: Option<u32>) -> Option<u32>
    ensures { result ≡ lesser_var a b }
{
    match (a, b) {
        (Some(a), Some(b)) => Some(a.min(b)),
        (Some(a), None) => Some(a),
        (None, b) => b,
    }
}

impl Facts {
    /// The facts of nothing.
    pub(crate) fn none() -> Facts
        ensures { result ≡ no_facts }
    {
        Facts {
            primed: None,
            negative: false,
            fine: false,
            nesting: 0,
        }
    }

    /// The facts of a leaf.
    pub(crate) fn of_leaf(units: i128) -> Facts
        ensures { result ≡ of_leaf units }
    {
        Facts {
            primed: None,
            negative: units < 0,
            fine: units.unsigned_abs() % 1000 != 0,
            nesting: 1,
        }
    }

    /// The facts of the name of a choice.
    pub(crate) fn of_branch(var: u32, primed: bool) -> Facts
        ensures { result ≡ of_branch var primed }
    {
        Facts {
            primed: if primed { Some(var) } else { None },
            negative: false,
            fine: false,
            nesting: 0,
        }
    }

    /// The facts of two trees that stand beside one another.
    pub(crate) fn together(self, other: Facts) -> Facts
        ensures { result ≡ together self other }
    {
        Facts {
            primed: lesser_var(self.primed, other.primed),
            negative: self.negative || other.negative,
            fine: self.fine || other.fine,
            nesting: self.nesting.max(other.nesting),
        }
    }

    /// The facts with one tree more round it.
    pub(crate) fn deeper(self) -> Facts
        ensures { result ≡ deeper self }
    {
        let nesting = if self.nesting < 301 {
            self.nesting + 1
        } else {
            301
        };
        Facts { nesting, ..self }
    }

    /// Whether a next value is tested that may not be tested here.
    pub(crate) fn primes_wrong(self, purpose: Purpose) -> bool
        ensures { result ≡ primes_wrong_in purpose self.primed }
    {
        match self.primed {
            None => false,
            Some(var) => !purpose.may_prime(var),
        }
    }

    /// Whether a leaf is below zero that may not be so here.
    pub(crate) fn negative_wrong(self, purpose: Purpose) -> bool
        ensures { result ≡ negative_wrong_in purpose self.negative }
    {
        match purpose {
            Purpose::Table(_) => self.negative,
            Purpose::Diagram | Purpose::Reward => false,
        }
    }

    /// Whether a leaf is no whole number of 10^-9 where it has to be one.
    pub(crate) fn fine_wrong(self, purpose: Purpose) -> bool
        ensures { result ≡ fine_wrong_in purpose self.fine }
    {
        match purpose {
            Purpose::Reward => self.fine,
            Purpose::Diagram | Purpose::Table(_) => false,
        }
    }
}
