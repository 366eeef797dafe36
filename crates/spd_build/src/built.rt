//! What building ends with.

ghost use Rattle.std.specs.Prelude.{◌≡◌};
ghost use Rattle.spd_build.specs.Building.{build_fault};
ghost use Rattle.spd_build.specs.declared.built.BuildFault.TheVariants as Fault;

use spd_frozen::{Frozen, Mixed};
use spd_model::State;
use spd_nodes::StoreFault;
use std::alloc::AllocError;

/// A model's probabilities, rewards and first value as lists of nodes, which fit the model's variables.
#[derive(Debug, Drop)]
pub struct Built {
    /// The probabilities, in units of 10^-12, over present and next values: by action, then variable, then the variable's next value.
    pub weights: Vec<Mixed>,
    /// The reward of each action, in units of 10^-9.
    pub rewards: Vec<Frozen>,
    /// The value at the start, in units of 10^-9: the greatest reward over all actions.
    pub start: Frozen,
    /// Each variable's number of values.
    pub sizes: Vec<u8>,
    /// The discount, in units of 10^-6.
    pub g: u32,
}

/// Why a model wasn't built.
#[derive(Debug, Drop)]
pub enum BuildFault {
    /// The probabilities of a variable's next values don't sum to one: the first such action, variable and state, and the sum in units
    /// of 10^-12, which is that for the first next values of the variables after it at which it isn't one.
    Sum {
        action: u32,
        var: u32,
        state: State,
        sum: i128,
    },
    /// A reward passes its limit: the first such action and state, and the reward in units of 10^-9.
    Range {
        action: u32,
        state: State,
        value: i128,
    },
    /// The forest is full.
    Full,
    /// There is no memory.
    Memory,
}

impl From<StoreFault> for BuildFault {
    ghost from_gives = { λ e fault. fault ≡ build_fault e };

    fn from(e: StoreFault) -> BuildFault {
        match e {
            StoreFault::Full => BuildFault::Full,
            StoreFault::Memory => BuildFault::Memory,
        }
    }
}

impl From<AllocError> for BuildFault {
    ghost from_gives = { λ _ fault. fault ≡ Fault.Memory };

    fn from(_: AllocError) -> BuildFault {
        BuildFault::Memory
    }
}
