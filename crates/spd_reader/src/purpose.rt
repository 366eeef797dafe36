//! What trees are for.

ghost use Rattle.std.specs.Prelude.{◌≡◌};
ghost use Rattle.spd_reader.specs.Trees.{may_prime};

/// What a tree is for.
#[derive(Clone, Copy, PartialEq, Eq, Debug)]
pub enum Purpose {
    /// A decision diagram.
    Diagram,
    /// The probabilities of the next values of the variable of this number.
    Table(u32),
    /// A part of a reward or of a cost.
    Reward,
}

impl Purpose {
    /// Whether the next value of this variable may be tested.
    pub(crate) fn may_prime(self, var: u32) -> bool
        ensures { result ≡ may_prime self var }
    {
        match self {
            Purpose::Diagram => true,
            Purpose::Table(of) => of <= var,
            Purpose::Reward => false,
        }
    }
}
