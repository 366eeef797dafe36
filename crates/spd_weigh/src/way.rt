//! Which way a number is rounded.

/// Which way a number is rounded.
#[derive(Clone, Copy, Debug, PartialEq, Eq)]
pub enum Way {
    /// To the greatest whole number that isn't above.
    Down,
    /// To the least whole number that isn't below.
    Up,
}
