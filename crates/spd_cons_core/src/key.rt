//! The keys of the table and its entries.

/// The number of an entry of the table.
#[derive(Clone, Copy, PartialEq, Eq, Hash, Debug)]
pub struct Entry(pub u32);

/// What an entry stands for. Equal keys have one published entry.
#[derive(Clone, Copy, PartialEq, Eq, Hash, Debug)]
pub enum Key {
    /// A test of a variable's value: the level of the test, and the entries of its two branches.
    Test { level: u16, yes: Entry, no: Entry },
    /// A leaf with a number.
    Num(i128),
    /// A leaf with two numbers.
    Pair(i128, i128),
    /// A leaf with the number of an action.
    Act(u32),
}
