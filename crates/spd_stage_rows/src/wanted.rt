//! What the tests want, as lists of nodes.

/// A node of a list, kids first, and the root last.
#[derive(Clone, Copy, Debug)]
pub enum Want {
    /// A number.
    Leaf(i128),
    /// A choice by a variable's present value: which nodes follow.
    Now(u32, &'static [u32]),
    /// A choice by its next value.
    Next(u32, &'static [u32]),
}

/// A backup, and what it gives.
#[derive(Clone, Copy, Debug)]
pub struct Backed {
    /// What it shows.
    pub what: &'static str,
    /// The model file.
    pub file: &'static str,
    /// The action's number.
    pub action: u32,
    /// The value that follows.
    pub value: &'static [Want],
    /// The lower bound.
    pub lo: &'static [Want],
    /// The upper bound.
    pub hi: &'static [Want],
    /// The number of nodes of the backup's functions.
    pub nodes: u32,
}

/// A model's parts.
#[derive(Clone, Copy, Debug)]
pub struct Parts {
    /// The model file.
    pub file: &'static str,
    /// Each variable's number of values.
    pub sizes: &'static [u8],
    /// The discount, in units of 10^-6.
    pub discount: u32,
    /// The probabilities: by action, then variable, then the variable's next value.
    pub weights: &'static [&'static [Want]],
    /// The reward of each action.
    pub rewards: &'static [&'static [Want]],
    /// The value at the start.
    pub start: &'static [Want],
}

/// The node that follows at a variable's value in a state.
fn next_of(kids: &[u32], var: u32, state: &[u8]) -> Option<usize> {
    let value = state.get(var as usize)?;
    let kid = kids.get(*value as usize)?;
    Some(*kid as usize)
}

/// The number of a list at a present and a next state, if it has one.
pub fn number_at(list: &[Want], present: &[u8], next: &[u8]) -> Option<i128> {
    let mut at = list.len().checked_sub(1)?;
    for _ in 0..list.len() {
        at = match *list.get(at)? {
            Want::Leaf(number) => return Some(number),
            Want::Now(var, kids) => next_of(kids, var, present)?,
            Want::Next(var, kids) => next_of(kids, var, next)?,
        };
    }
    None
}
