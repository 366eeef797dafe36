use crate::facts::Facts;
use spd_model::Tree;

/// A decision diagram: its tree, and what a use of it asks.
#[derive(Drop)]
pub(crate) struct Dd {
    pub tree: Tree,
    pub facts: Facts,
}
