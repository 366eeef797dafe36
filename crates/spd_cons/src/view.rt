//! What a seat of the running table knows, as proofs see it.
use spd_cons_core::{Known, Mind};
use std::collections::LinkedList;

/// The numbers of a table.
#[derive(Clone, Copy)]
pub struct Size {
    /// How many entries can be published whatever the seats do.
    pub limit: u32,
    /// How many seats may be made.
    pub most: u32,
    /// How many buckets there are.
    pub count: u64,
}

/// The view of a seat. No value of it is made.
pub struct View {
    pub size: Size,
    pub mind: Mind,
    /// What the seats that were joined into this one knew, until it looks at the table again.
    pub heard: LinkedList<Known>,
}
