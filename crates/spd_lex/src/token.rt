//! Tokens, and where they stand in the file.

/// What a token is.
#[derive(Clone, Copy, PartialEq, Eq, Debug)]
pub enum Kind {
    /// `(`
    Open,
    /// `)`
    Close,
    /// `[`
    OpenSum,
    /// `]`
    CloseSum,
    /// A longest run of bytes that are no blanks and no brackets. It ends before `//`.
    Word,
}

/// A token, which takes the bytes of the file from the place `from` up to the place before `to`,
/// counted from 0. The tokens of a file rise and don't overlap.
#[derive(Clone, Copy, PartialEq, Eq, Debug)]
pub struct Token {
    pub kind: Kind,
    pub from: u32,
    pub to: u32,
}
