//! What a diagram's nodes say, by views of them.
ghost use Rattle.std.specs.Prelude.{◌≡◌, true};
ghost use Rattle.spd_nodes.specs.Shown.{Shown};

use spd_nodes::{Forest, Layout, Leaf, Level, Ref, View};

/// The leaf of a diagram at a present and a next state, if at most `most` nodes lead to it.
pub fn leaf_at<F: Forest>(
    forest: &mut F,
    r: Ref,
    present: &[u8],
    next: &[u8],
    most: usize,
) -> Option<Leaf>
    requires { (F.shows forest.old).knows r ≡ true }
    ensures { F.shows forest.new ≡ F.shows forest.old }
{
    let mut at = r;
    for _ in 0..most {
        match forest.view(at) {
            View::Leaf(a) => return Some(a),
            View::Test { level, yes, no } => {
                let (var, primed, value) = forest.layout().what(level);
                let state = if primed { next } else { present };
                at = if state.get(var as usize) == Some(&value) {
                    yes
                } else {
                    no
                };
            }
        }
    }
    None
}
