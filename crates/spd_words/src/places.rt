//! The operands of a command, by the numbers of their words.

ghost use Rattle.std.specs.Prelude.{◌≡◌, ◌<◌, ◌≤◌, [], ◌∷◌, ◌++◌, length};

use std::marker::Model;

/// The numbers of at most 129 words: those of a file and of 64 pairs.
#[derive(Debug, Drop)]
pub(crate) struct Places {
    places: [usize; 129],
    len: usize,
}

impl Model for Places {
    ghost use Rattle.std.specs.Prelude.{ℕ, List, take, ◌≤◌};

    ghost Value = { List ℕ };

    ghost view = { λ p. take p.len p.places };

    ghost invariant = { λ p. p.len ≤ 129 };
}

impl Places {
    pub(crate) fn new() -> Places
        ensures { result ≡ [] }
    {
        Places {
            places: [0; 129],
            len: 0,
        }
    }

    pub(crate) fn push(&mut self, place: usize)
        requires { length self.old < 129 }
        ensures { self.new ≡ self.old ++ place ∷ [] }
    {
        self.places[self.len] = place;
        self.len += 1;
    }

    pub(crate) fn as_slice(&self) -> &[usize]
        ensures places { result.now ≡ self.now }
        ensures few { length result.now ≤ 129 }
    {
        &self.places[..self.len]
    }
}
