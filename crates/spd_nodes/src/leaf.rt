//! The leaves of test trees.

/// What stands at the end of a test tree's path. Leaves are ordered by kind, Num before Pair before Act, and then by their
/// numbers.
#[derive(Clone, Copy, Debug, PartialEq, Eq, PartialOrd, Ord, Hash)]
pub enum Leaf {
    /// A number. A diagram's builder says in which units: 10^-12 for probabilities, 10^-9 for values.
    Num(i128),
    /// Two numbers, as a lower and an upper bound.
    Pair(i128, i128),
    /// The number of an action.
    Act(u32),
}
