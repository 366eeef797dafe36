//! A state: the numbers of its variables' values.

ghost use Rattle.std.specs.Prelude.{◌≡◌, ◌<◌, ◌≤◌, length, slice_index};

use std::marker::Model;

/// A state: the number of each variable's value, in the order of the variables.
#[derive(Debug, Drop)]
pub struct State {
    values: [u8; 100],
    len: u8,
}

impl Model for State {
    ghost use Rattle.std.specs.Prelude.{ℕ, List, take, ◌≤◌};

    ghost Value = { List ℕ };

    ghost view = { λ s. take s.len s.values };

    ghost invariant = { λ s. s.len ≤ 100 };
}

impl State {
    /// The state of these values.
    pub fn of(values: &[u8]) -> State
        requires { length values.now ≤ 100 }
        ensures { result ≡ values.now }
    {
        let mut kept = [0; 100];
        kept[..values.len()].copy_from_slice(values);
        State {
            values: kept,
            len: values.len() as u8,
        }
    }

    /// The number of variables.
    pub fn len(&self) -> usize
        ensures { result ≡ length self.now }
    {
        self.len as usize
    }

    /// The number of the value of the variable `var`.
    pub fn get(&self, var: usize) -> u8
        requires { var < length self.now }
        ensures { result ≡ slice_index self.now var }
    {
        self.values[var]
    }

    /// The numbers of all values, in the order of the variables.
    pub fn values(&self) -> &[u8]
        ensures { result.now ≡ self.now }
    {
        &self.values[..self.len as usize]
    }
}
