//! A diagram with its plain names primed.

ghost use Rattle.std.specs.Prelude.{◌≡◌, ℕ, ◌<◌, true};
ghost use Rattle.spd_nodes.specs.Shown.{Shown, IsWhole, MakesDiagram, meaning};
ghost use Rattle.spd_restrict.specs.Primed.{primed, primed_tree, MayPrime, TestsNoPrimed};

use spd_apply::{Below, Node, OpFault, Plan, Rule, make_alone};
use spd_nodes::{Forest, Layout, Ref, Steps, View};
use std::alloc::Global;
use std::sync::ledger::Ledger;

/// A diagram with each plain test primed.
#[derive(Drop)]
struct Priming {
    layout: Layout,
}

impl Rule for Priming {
    ghost making = { λ r t u. primed_tree r.layout t };

    ghost may = { λ r sizes t u. MayPrime r.layout sizes t × (t ≡ u) };

    fn plan<F: Forest>(&self, _forest: &F, f: Node, _g: Node) -> Plan {
        match f.root {
            View::Leaf(_) => Plan::Below(Below::Known(f.name)),
            View::Test { level, yes, no } => {
                let (var, _, value) = self.layout.what(level);
                Plan::Test {
                    level: self.layout.level(var, true, value),
                    yes: Below::Pair(yes, yes),
                    no: Below::Pair(no, no),
                }
            }
        }
    }
}

/// The diagram of a function at the next state in place of the present one: each plain name primed. It makes only nodes of
/// its answer. Full comes only where a call of the forest answered Full in this call. Calls nest at most three deep a level,
/// and there are at most 512 levels.
pub fn prime<F: Forest, L: Ledger>(
    alloc: Global,
    forest: &mut F,
    f: Ref,
    steps: &mut Steps<L>,
) -> Result<Ref, OpFault>
    requires known { (F.shows forest.old).knows f ≡ true }
    requires whole { IsWhole (F.shows forest.old) f }
    requires plain { TestsNoPrimed (F.shows forest.old).sizes ((F.shows forest.old).tree f) }

    ensures made { MakesDiagram (F.shows forest.old) (F.shows forest.new) (primed (meaning (F.shows forest.old) f)) result }
    ensures keeps { F.kept forest.new ≡ F.kept forest.old }
{
    match Layout::new(alloc, forest.layout().sizes()) {
        Ok(layout) => make_alone(alloc, forest, &Priming { layout }, f, f, steps),
        Err(_) => Err(OpFault::Memory),
    }
}
