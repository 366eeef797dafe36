//! The verdict on a certificate.

ghost use Rattle.std.specs.Prelude.{◌≡◌};
ghost use Rattle.spd_check.specs.declared.verdict.CheckFault.TheVariants as C;

use spd_model::{Side, State};
use std::alloc::AllocError;

/// The verdict on a certificate.
#[derive(Debug, Drop)]
pub enum Verdict {
    /// It holds.
    Yes,
    /// It doesn't: the first state at which a gap is greater than its residual. Above, the greatest upper bound lies that far above the
    /// value, and the action is the first one that has it; else the lower bound of the policy's action lies that far below.
    No { at: State, side: Side, action: u32 },
}

/// Why there is no verdict.
#[derive(Debug, Drop)]
pub enum CheckFault {
    /// The probabilities of a variable's next values don't sum to one: the first such action, variable and state, and the sum in units
    /// of 10^-12.
    Sum {
        action: u32,
        var: u32,
        state: State,
        sum: i128,
    },
    /// A reward passes its limit: the first such action and state, and the reward in units of 10^-9.
    Range {
        action: u32,
        state: State,
        value: i128,
    },
    /// The functions of building, or else those of the check, have more nodes than a forest may hold.
    NodeLimit {
        building: bool,
        limit: u32,
    },
    /// There is no memory.
    Memory,
}

impl From<AllocError> for CheckFault {
    ghost from_gives = { λ _ fault. fault ≡ C.Memory };

    fn from(_: AllocError) -> CheckFault {
        CheckFault::Memory
    }
}
