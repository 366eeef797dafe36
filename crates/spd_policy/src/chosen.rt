//! What is chosen of the bounds of all actions.

use spd_nodes::Ref;

/// The greatest bounds over all actions at each state, in units of 10^-9, and the policy.
#[derive(Clone, Copy, Debug, PartialEq, Eq)]
pub struct Best {
    /// The greatest lower bound.
    pub low: Ref,
    /// The greatest upper bound.
    pub high: Ref,
    /// The number of the first action that has the greatest lower bound, as an `Act`.
    pub act: Ref,
}
