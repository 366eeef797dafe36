//! Which leaves are looked for.

ghost use Rattle.std.specs.Prelude.{◌≡◌, Bool};
ghost use Rattle.spd_nodes.specs.declared.leaf.Leaf.{Leaf};

use spd_nodes::Leaf;

/// Which leaves are looked for, as the sums of probabilities that aren't 1.
pub trait Wanted {
    /// Whether a leaf is looked for.
    ghost wants: { Self → Leaf → Bool };

    /// Whether a leaf is looked for.
    fn is_wanted(&self, leaf: Leaf) -> bool
        ensures { result ≡ wants self.now leaf };
}
