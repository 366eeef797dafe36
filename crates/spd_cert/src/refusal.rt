//! Why bytes are no certificate.

/// The first place at which bytes are no certificate of a model: a byte of them, counted from 0.
#[derive(Clone, Copy, PartialEq, Eq, Debug, Drop)]
pub enum CertRefusal {
    /// A byte other than LF and 0x20 to 0x7E.
    BadByte { at: usize },
    /// A word, a space or a line isn't of the form, a node's number isn't the next one, or a branch has another count of kids.
    Expected { at: usize },
    /// A variable, a value or an action isn't declared, or a place names the variables in another order.
    Unknown { at: usize },
    /// A kid's number isn't smaller than its branch's, or the kid branches on the same or an earlier variable.
    Order { at: usize },
    /// A whole number or a decimal isn't of its form or range.
    Number { at: usize },
    /// The bytes end before the line `end` does, or go on after it.
    End { at: usize },
}

/// Why a certificate was not read.
#[derive(Clone, Copy, PartialEq, Eq, Debug, Drop)]
pub enum Uncert {
    /// The bytes are no certificate of the model.
    Refused(CertRefusal),
    /// There was no memory.
    Memory,
}
