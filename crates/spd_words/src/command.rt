//! What the words of a command ask for.

ghost use Rattle.std.specs.Prelude.{◌≡◌, ◌<◌, [], ◌∷◌, ◌++◌, length};

use spd_model::Options;
use std::marker::Model;

/// The files of a client of `ask`, by the numbers of their words.
#[derive(Clone, Copy, PartialEq, Eq, Debug)]
pub struct Pair {
    /// Where its queries are read.
    pub queries: usize,
    /// Where its answers are written.
    pub answers: usize,
}

/// The files of the clients of `ask`, in order: at most 64 pairs.
#[derive(Debug, Drop)]
pub struct Pairs {
    pairs: [Pair; 64],
    len: usize,
}

impl Model for Pairs {
    ghost use Rattle.std.specs.Prelude.{List, take, ◌≤◌};
    ghost use Rattle.spd_words.specs.declared.command.Pair.{Pair as PairValue};

    ghost Value = { List PairValue };

    ghost view = { λ p. take p.len p.pairs };

    ghost invariant = { λ p. p.len ≤ 64 };
}

impl Pairs {
    /// No pairs.
    pub(crate) fn new() -> Pairs
        ensures { result ≡ [] }
    {
        Pairs {
            pairs: [Pair {
                queries: 0,
                answers: 0,
            }; 64],
            len: 0,
        }
    }

    /// Adds a pair at the end.
    pub(crate) fn push(&mut self, pair: Pair)
        requires { length self.old < 64 }
        ensures { self.new ≡ self.old ++ pair ∷ [] }
    {
        self.pairs[self.len] = pair;
        self.len += 1;
    }

    /// The pairs, in the order of the words.
    pub fn as_slice(&self) -> &[Pair]
        ensures { result.now ≡ self.now }
    {
        &self.pairs[..self.len]
    }
}

/// What the words of a command ask for. A file is given by the number of its word, counted from 0; `-` names standard input.
/// Options that aren't given have their defaults.
#[derive(Debug, Drop)]
pub enum Command {
    /// Solve the model of a file, and write its result.
    Solve {
        file: usize,
        options: Options,
    },
    /// The same, while clients ask. No pairs stand for the one pair of standard input and output.
    Ask {
        file: usize,
        pairs: Pairs,
        options: Options,
    },
    /// Judge a certificate of a model.
    Check {
        file: usize,
        cert: usize,
        options: Options,
    },
    /// Solve the model of a file over tables.
    Plain {
        file: usize,
        options: Options,
    },
    /// Write the model of a ring of 2 to 63 variables.
    Gen {
        n: u32,
    },
    /// Solve the model of a ring of 2 to 63 variables, and write a summary.
    Ring {
        n: u32,
        options: Options,
    },
    /// Judge a certificate of a model, and write it in its newest form.
    Upgrade {
        file: usize,
        cert: usize,
        options: Options,
    },
    /// Plan for a number of steps, 0 to 1,000, or for the file's own number.
    Horizon {
        file: usize,
        steps: Option<u32>,
        options: Options,
    },
    /// Evaluate the policy of a certificate, or improve it in so many rounds, 0 to 1,000,000, of 1 to 1,000 sweeps each.
    Evaluate {
        file: usize,
        cert: usize,
        rounds: Option<u32>,
        sweeps: u32,
        options: Options,
    },
    /// Plan against the worst probabilities between those of two files.
    Bounded {
        file: usize,
        upper: usize,
        options: Options,
    },
}
