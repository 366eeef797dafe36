//! Why a file is refused.

/// What is wanted in a place where the token that stands there, or the end of the file, can't go on.
#[derive(Clone, Copy, PartialEq, Eq, Debug)]
pub enum Want {
    Variables,
    Open,
    Close,
    Name,
    Value,
    Section,
    Plus,
    EndDd,
    Number,
}

/// Of what there are too many.
#[derive(Clone, Copy, PartialEq, Eq, Debug)]
pub enum What {
    Variables,
    Values,
    Tests,
    Actions,
    Dds,
    NameBytes,
    Nesting,
}

/// Why a file is refused, and the place: a byte of the file, counted from 0, or the file's length.
#[derive(Clone, Copy, PartialEq, Eq, Debug, Drop)]
pub enum Refusal {
    /// A byte that may not stand outside comments.
    BadByte { at: usize },
    /// The token at this place, or the end of the file, can't go on.
    Expected { at: usize, want: Want },
    /// A word in a number's place that is no decimal.
    Number { at: usize },
    /// A number that is no whole number of its units.
    TooFine { at: usize },
    /// A number that passes 10^30 units, or a discount that isn't below one.
    TooLarge { at: usize },
    /// A probability, a discount, a tolerance or a horizon below zero.
    Negative { at: usize },
    /// A limit is passed.
    TooMany { at: usize, what: What },
    /// A word of the SPUDD format that this profile leaves out.
    LeftOut { at: usize },
    /// A name that isn't declared.
    Unknown { at: usize },
    /// A name, a branch's value or a section a second time.
    Twice { at: usize },
    /// A branch lacks a value; the place is its variable's word.
    MissingBranch { at: usize },
    /// An action lacks a table; the place is its `endaction`.
    MissingVariable { at: usize, var: u32 },
    /// A primed name, or a decision diagram that tests one, where it may not stand.
    Primed { at: usize },
}
