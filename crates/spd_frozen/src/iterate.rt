//! What value iteration found at a turn.

ghost use Rattle.std.specs.Prelude.{◌≡◌, All};
ghost use Rattle.spd_frozen.specs.Frozen.{HasKid, leaf_at};

use crate::Frozen;
use spd_model::{Side, State};
use spd_nodes::Leaf;

/// The Bellman residual of a value: how large it is, and where it lies.
#[derive(Debug, Drop)]
pub struct Residual {
    /// The residual, in units of 10^-9.
    pub r: i128,
    /// The first state with this residual.
    pub at: State,
    /// The side of the value on which it lies there.
    pub side: Side,
    /// The action by which it comes there.
    pub action: u32,
}

/// What value iteration found at a turn.
#[derive(Debug, Drop)]
pub struct Iterate {
    /// The number of the turn, from 0.
    pub turn: u32,
    /// The value at each state, with leaves in units of 10^-9.
    pub value: Frozen,
    /// The policy: the number of an action at each state.
    pub policy: Frozen,
    pub residual: Residual,
    /// How far the value may lie from the best value at any state, in units of 10^-9.
    pub error: i128,
}

impl Iterate {
    /// The value's leaf and the policy's leaf at a state. Each branch has a kid for the state's value of its variable.
    pub fn at(&self, s: &State) -> (Leaf, Leaf)
        requires value_kids { All (HasKid s.now) self.now.value }
        requires policy_kids { All (HasKid s.now) self.now.policy }
        ensures value { result.0 ≡ leaf_at self.now.value s.now }
        ensures policy { result.1 ≡ leaf_at self.now.policy s.now }
    {
        self.value.at_both(&self.policy, s)
    }
}
