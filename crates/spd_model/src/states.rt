//! The states of a model: in their order, and by pairs of a variable and a value.

ghost use Rattle.std.specs.Prelude.{◌≡◌, ◌≢◌, ◌+◌, ◌<◌, ◌≤◌, ◌++◌, ◌∷◌, length, map, take, drop, replicate, slice_get, slice_index, All, true, Some, None, IfSome, IfOk, IfErr, Decides};
ghost use Rattle.spd_model.specs.States.{sizes, states, rank, state_count as state_count_of, IsState};
ghost use Rattle.spd_model.specs.Inner.Order.{IsRaisable};
ghost use Rattle.spd_model.specs.StatePairs.{IsKnown, Describe, HasFault};
ghost use Rattle.spd_model.specs.Inner.Chosen.{AreChosen};

use crate::{Model, State};

/// Why pairs of a variable and a value describe no state of a model.
#[derive(Clone, Copy, PartialEq, Eq, Debug)]
pub enum StateFault {
    /// The pair of this number, counted from 0, has no variable of the model, or no value of its variable.
    Unknown { pair: usize },
    /// The variable of the pair of this number stands at an earlier pair too.
    Twice { pair: usize },
    /// No pair has this variable. It is the first such one.
    Missing { var: u32 },
}

/// The state s with the value after its own at the variable `var`, and the first value at each variable after that one.
fn raised(s: &State, var: usize) -> State
    requires near { var < length s.now }
    requires few { length s.now ≤ 100 }
    requires small { slice_index s.now var < 255 }
    ensures { result ≡ take var s.now ++ (slice_index s.now var + 1) ∷ replicate (length (drop (var + 1) s.now)) 0 }
{
    let mut values = [0; 100];
    values[..var].copy_from_slice(&s.values()[..var]);
    values[var] = s.get(var) + 1;
    State::of(&values[..s.len()])
}

/// The state of these values, or the first place at which there is none.
fn gather(chosen: &[Option<u8>]) -> Result<State, u32>
    requires { length chosen.now ≤ 100 }
    ensures all { IfOk result (λ s. map Some s ≡ chosen.now) }
    ensures first { IfErr result (λ var. (slice_get chosen.now var ≡ Some None) × All (λ value. value ≢ None) (take var chosen.now)) }
{
    let mut values = [0; 100];
    for (var, value) in chosen.iter().enumerate() {
        match value {
            Some(value) => values[var] = *value,
            None => return Err(var as u32),
        }
    }
    Ok(State::of(&values[..chosen.len()]))
}

impl Model {
    /// The first state: each variable has its first value.
    pub fn first_state(&self) -> State
        ensures { slice_get (states (sizes self.now)) 0 ≡ Some result }
    {
        State::of(&[0; 100][..self.vars.as_slice().len()])
    }

    /// The last variable whose value in s isn't its last one: those after it have their last values there.
    fn last_raisable(&self, s: &State) -> Option<usize>
        requires { IsState (sizes self.now) s.now }
        ensures some { IfSome result (IsRaisable (sizes self.now) s.now) }
        ensures none { result ≡ None → rank (sizes self.now) s.now + 1 ≡ state_count_of (sizes self.now) }
    {
        let mut var = s.len();
        while var > 0 {
            var -= 1;
            if (s.get(var) as usize) + 1 < self.vars.as_slice()[var].values.len() {
                return Some(var);
            }
        }
        None
    }

    /// The state after s in the order of all states, first variable first and first value first: None exactly where s is the last one.
    pub fn next_state(&self, s: &State) -> Option<State>
        requires { IsState (sizes self.now) s.now }
        ensures { result ≡ slice_get (states (sizes self.now)) (rank (sizes self.now) s.now + 1) }
    {
        // Reading a field tells the proof what every model keeps.
        let _vars = &self.vars;
        match self.last_raisable(s) {
            Some(var) => Some(raised(s, var)),
            None => None,
        }
    }

    /// Whether the model has a variable and a value of these numbers.
    fn is_known(&self, var: u32, value: u8) -> bool
        ensures known { Decides result (IsKnown self.now (var, value)) }
        ensures few { result ≡ true → var < 100 }
    {
        match self.vars.as_slice().get(var as usize) {
            Some(var) => (value as usize) < var.values.len(),
            None => false,
        }
    }

    /// The value that the pairs give each variable.
    fn choose(&self, pairs: &[(u32, u8)]) -> Result<[Option<u8>; 100], StateFault>
        ensures chosen { IfOk result (AreChosen self.now pairs.now) }
        ensures fault { IfErr result (HasFault self.now pairs.now) }
    {
        let mut chosen = [None; 100];
        for (place, pair) in pairs.iter().enumerate() {
            let (var, value) = *pair;
            if !self.is_known(var, value) {
                return Err(StateFault::Unknown { pair: place });
            }
            if chosen[var as usize].is_some() {
                return Err(StateFault::Twice { pair: place });
            }
            chosen[var as usize] = Some(value);
        }
        Ok(chosen)
    }

    /// The state that pairs of a variable's number and a value's number describe, in any order.
    ///
    /// The fault is that of the first faulty pair, `Unknown` before `Twice`; `Missing` comes only where all pairs are in order.
    pub fn state_of(&self, pairs: &[(u32, u8)]) -> Result<State, StateFault>
        ensures state { IfOk result (Describe self.now pairs.now) }
        ensures fault { IfErr result (HasFault self.now pairs.now) }
    {
        let chosen = self.choose(pairs)?;
        match gather(&chosen[..self.vars.as_slice().len()]) {
            Ok(state) => Ok(state),
            Err(var) => Err(StateFault::Missing { var }),
        }
    }
}
