//! Operations on leaves, and maps of a leaf.

ghost use Rattle.std.specs.Prelude.{◌≡◌, Bool, true};
ghost use Rattle.spd_nodes.specs.declared.leaf.Leaf.{Leaf};

use spd_nodes::Leaf;

/// An operation on two leaves.
pub trait LeafOp {
    /// Whether it is defined on two leaves.
    ghost fits: { Self → Leaf → Leaf → Bool };

    /// What it answers.
    ghost of: { Self → Leaf → Leaf → Leaf };

    /// Whether it is defined on two leaves.
    fn fits(&self, a: Leaf, b: Leaf) -> bool
        ensures { result ≡ fits self.now a b };

    /// The answer for two leaves on which it is defined.
    fn of(&self, a: Leaf, b: Leaf) -> Leaf
        requires { fits self.now a b ≡ true }
        ensures { result ≡ of self.now a b };
}

/// A map of leaves.
pub trait LeafMap {
    /// Whether it is defined on a leaf.
    ghost fits: { Self → Leaf → Bool };

    /// What it answers.
    ghost of: { Self → Leaf → Leaf };

    /// Whether it is defined on a leaf.
    fn fits(&self, a: Leaf) -> bool
        ensures { result ≡ fits self.now a };

    /// The answer for a leaf on which it is defined.
    fn of(&self, a: Leaf) -> Leaf
        requires { fits self.now a ≡ true }
        ensures { result ≡ of self.now a };
}
