//! A map of leaves, carried out on a diagram.

ghost use Rattle.std.specs.Prelude.{◌≡◌, ℕ, true};
ghost use Rattle.spd_nodes.specs.Shown.{Shown, IsWhole, MakesDiagram, meaning};
ghost use Rattle.spd_apply.specs.Applied.{mapped, EachFits};
ghost use Rattle.spd_apply.specs.Outcome.{FitsEverywhere, map_each};

use crate::leaf_op::LeafMap;
use crate::make::make_alone;
use crate::rule::{Below, Node, OpFault, Plan, Rule};
use spd_nodes::{Forest, Ref, Steps, View};
use std::alloc::Global;
use std::sync::ledger::Ledger;

/// A map of leaves, at each leaf of a diagram.
#[derive(Clone, Copy)]
pub struct EachLeaf<'a, M> {
    pub map: &'a M,
}

impl<'a, M: LeafMap> Rule for EachLeaf<'a, M> {
    ghost making = { λ r t u. mapped (M.of r.map.now) t };

    ghost may = { λ r sizes t u. EachFits (M.fits r.map.now) t × (t ≡ u) };

    fn plan<F: Forest>(&self, _forest: &F, f: Node, _g: Node) -> Plan {
        match f.root {
            View::Leaf(a) => Plan::Leaf(self.map.of(a)),
            View::Test { level, yes, no } => Plan::Test {
                level,
                yes: Below::Pair(yes, yes),
                no: Below::Pair(no, no),
            },
        }
    }
}

/// The diagram of a map's answers at each state, for a diagram whose leaves fit at all states. It makes only nodes of its
/// answer. Full comes only where a call of the forest answered Full in this call. Calls nest at most three deep a level, and
/// there are at most 512 levels.
pub fn map_leaves<F: Forest, M: LeafMap, L: Ledger>(
    alloc: Global,
    forest: &mut F,
    map: &M,
    f: Ref,
    steps: &mut Steps<L>,
) -> Result<Ref, OpFault>
    requires known { (F.shows forest.old).knows f ≡ true }
    requires whole { IsWhole (F.shows forest.old) f }
    requires fits { FitsEverywhere (M.fits map.now) (F.shows forest.old) f }

    ensures made { MakesDiagram (F.shows forest.old) (F.shows forest.new) (map_each (M.of map.now) (meaning (F.shows forest.old) f)) result }
    ensures keeps { F.kept forest.new ≡ F.kept forest.old }
{
    let _ = forest.layout();
    make_alone(alloc, forest, &EachLeaf { map }, f, f, steps)
}
