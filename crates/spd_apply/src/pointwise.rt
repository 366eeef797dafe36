//! The rule of an operation on leaves.

ghost use Rattle.std.specs.Prelude.{◌≡◌, ℕ};
ghost use Rattle.spd_apply.specs.Applied.{applied, MayApply};

use crate::leaf_op::LeafOp;
use crate::rule::{Node, Plan, Rule};
use crate::split::{lower_level, test_of_halves};
use spd_nodes::{Forest, Leaf, View};

/// An operation on leaves, at each leaf of two diagrams.
#[derive(Clone, Copy)]
pub struct Pointwise<'a, O> {
    pub op: &'a O,
}

impl<'a, O: LeafOp> Rule for Pointwise<'a, O> {
    ghost making = { λ r t u. applied (O.of r.op.now) t u };

    ghost may = { λ r sizes t u. MayApply (O.fits r.op.now) sizes t u };

    fn plan<F: Forest>(&self, _forest: &F, f: Node, g: Node) -> Plan {
        match lower_level(f.root, g.root) {
            Some(level) => test_of_halves(level, f, g),
            None => match (f.root, g.root) {
                (View::Leaf(a), View::Leaf(b)) => Plan::Leaf(self.op.of(a, b)),
                _ => unreachable!(),
            },
        }
    }
}
