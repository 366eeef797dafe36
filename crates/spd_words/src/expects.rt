//! What a word is, by those before it.

use crate::verb::Key;

/// What the next word is.
#[derive(Clone, Copy, PartialEq, Eq, Debug)]
pub(crate) enum Expects {
    /// An operand, an option, or `--`.
    Anything,
    /// The value of this option.
    Value(Key),
    /// An operand: `--` stands before.
    Operands,
}
