//! What a line asks for.

use spd_model::State;

/// What a line asks for.
pub enum Query {
    /// The value and the action at this state.
    State(State),
    /// How far the solver is.
    Status,
}

/// Why a line is refused.
#[derive(Clone, Copy, PartialEq, Eq, Debug)]
pub enum Reason {
    /// It has more than 4,096 bytes.
    Long,
    /// It has a byte other than tab, CR and 0x20 to 0x7E.
    Byte,
    /// Its first word is neither `state` nor `status`, or there is none, or a word follows `status`.
    Word,
    /// A word hasn't just one `=` with something on both sides of it.
    Pair,
    /// A word names no variable, or no value of its variable.
    Unknown,
    /// A word names the variable of an earlier word.
    Twice,
    /// No word names some variable.
    Missing,
}
