//! The values of the options that the words give.

ghost use Rattle.std.specs.Prelude.{◌≡◌};
ghost use Rattle.spd_words.specs.Values.{is_value, with_value, is_given, nothing_given, options_of, sweeps_of};

use crate::value::{number_in, span_of};
use crate::verb::Key;
use spd_model::Options;

/// The values of the options that are given, each within its limits.
#[derive(Clone, Copy, Debug)]
pub(crate) struct Given {
    pub workers: Option<u32>,
    pub nodes: Option<u32>,
    pub turns: Option<u32>,
    pub span: Option<i128>,
    pub memo: Option<u32>,
    pub steps: Option<u32>,
    pub rounds: Option<u32>,
    pub sweeps: Option<u32>,
}

impl Given {
    pub(crate) fn nothing() -> Given
        ensures { result ≡ nothing_given }
    {
        Given {
            workers: None,
            nodes: None,
            turns: None,
            span: None,
            memo: None,
            steps: None,
            rounds: None,
            sweeps: None,
        }
    }

    /// Whether the option was given.
    pub(crate) fn has(&self, key: Key) -> bool
        ensures { result ≡ is_given key self.now }
    {
        match key {
            Key::Workers => self.workers.is_some(),
            Key::Nodes => self.nodes.is_some(),
            Key::Turns => self.turns.is_some(),
            Key::Span => self.span.is_some(),
            Key::Memo => self.memo.is_some(),
            Key::Steps => self.steps.is_some(),
            Key::Rounds => self.rounds.is_some(),
            Key::Sweeps => self.sweeps.is_some(),
        }
    }

    /// Takes the value of an option, and says whether it is one.
    pub(crate) fn set(&mut self, key: Key, text: &[u8]) -> bool
        ensures value { result ≡ is_value key text.now }
        ensures given { self.new ≡ with_value key text.now self.old }
    {
        match key {
            Key::Workers => self.workers = number_in(1, 64, text),
            Key::Nodes => self.nodes = number_in(16, 8_388_608, text),
            Key::Turns => self.turns = number_in(0, 1_000_000, text),
            Key::Span => self.span = span_of(text),
            Key::Memo => self.memo = number_in(1, 8_388_608, text),
            Key::Steps => self.steps = number_in(0, 1_000, text),
            Key::Rounds => self.rounds = number_in(0, 1_000_000, text),
            Key::Sweeps => self.sweeps = number_in(1, 1_000, text),
        }
        self.has(key)
    }

    /// The options of a run, with their defaults where they aren't given.
    pub(crate) fn options(&self) -> Options
        ensures { result ≡ options_of self.now }
    {
        let default = Options::default();
        Options {
            workers: self.workers.unwrap_or(default.workers),
            nodes: self.nodes.unwrap_or(default.nodes),
            turns: self.turns.unwrap_or(default.turns),
            span: self.span.unwrap_or(default.span),
            memo: self.memo.unwrap_or(default.memo),
        }
    }

    /// How many sweeps a round makes.
    pub(crate) fn sweeps(&self) -> u32
        ensures { result ≡ sweeps_of self.now }
    {
        self.sweeps.unwrap_or(10)
    }
}
