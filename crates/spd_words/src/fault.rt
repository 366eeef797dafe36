//! Why words are no command.

/// Why words are no command.
#[derive(Clone, Copy, PartialEq, Eq, Debug)]
pub enum WordsFault {
    /// The first word that can't stand where it does, counted from 0, or the number of words where one is missing.
    Usage { word: usize },
}
