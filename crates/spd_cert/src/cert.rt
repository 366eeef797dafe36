//! What a certificate tells.

use spd_frozen::Frozen;
use spd_model::{Side, State, Why};

/// What a certificate tells of a model: a value and a policy, how far they may be from the best, and where that was found.
#[derive(Debug, Drop)]
pub struct Cert {
    /// The version of its text: 1 or 2.
    pub version: u8,
    /// The SHA-256 of the model's file, which a text of version 2 names.
    pub digest: Option<[u8; 32]>,
    /// The number of the turn, from 0.
    pub turn: u32,
    /// Why the run ended.
    pub why: Why,
    /// The residual, in units of 10^-9.
    pub residual: i128,
    /// The state at which it lies.
    pub place: State,
    /// The side of the value on which it lies there.
    pub side: Side,
    /// The action by which it comes there.
    pub action: u32,
    /// How far the value may lie from the best value at any state, in units of 10^-9.
    pub error: i128,
    /// The value at each state, with leaves in units of 10^-9. It needn't be reduced.
    pub value: Frozen,
    /// The policy: the number of an action at each state. It needn't be reduced.
    pub policy: Frozen,
}
