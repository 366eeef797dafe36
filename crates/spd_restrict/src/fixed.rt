//! A diagram with a variable's value held fixed.

ghost use Rattle.std.specs.Prelude.{◌≡◌, ℕ, ◌<◌, true, length, slice_index};
ghost use Rattle.spd_nodes.specs.Shown.{Shown, IsWhole, MakesDiagram, meaning};
ghost use Rattle.spd_restrict.specs.Restricted.{restricted, cofactored, MayRestrict};

use spd_apply::{Below, Node, OpFault, Plan, Rule, make_alone};
use spd_nodes::{Forest, Ref, Steps, View};
use std::alloc::Global;
use std::sync::ledger::Ledger;

/// A diagram with one variable, primed or plain, at a value: `first` and `end` are the number of its first test and the one
/// after its last test.
#[derive(Clone, Copy)]
struct AtValue {
    first: u16,
    end: u16,
    value: u16,
}

impl Rule for AtValue {
    ghost making = { λ r t u. cofactored r.first r.end r.value t };

    ghost may = { λ r sizes t u. MayRestrict r.first r.end r.value sizes t × (t ≡ u) };

    fn plan<F: Forest>(&self, _forest: &F, f: Node, _g: Node) -> Plan {
        match f.root {
            View::Leaf(_) => Plan::Below(Below::Known(f.name)),
            View::Test { level, yes, no } => {
                if level.0 < self.first {
                    Plan::Test {
                        level,
                        yes: Below::Pair(yes, yes),
                        no: Below::Pair(no, no),
                    }
                } else if level.0 >= self.end {
                    Plan::Below(Below::Known(f.name))
                } else if level.0 == self.first + self.value {
                    Plan::Below(Below::Known(yes))
                } else {
                    Plan::Below(Below::Pair(no, no))
                }
            }
        }
    }
}

/// The diagram of a function with a variable's next value (primed) or present one held at `value`. It makes only nodes of
/// its answer. Full comes only where a call of the forest answered Full in this call. Calls nest at most three deep a level,
/// and there are at most 512 levels.
pub fn cofactor<F: Forest, L: Ledger>(
    alloc: Global,
    forest: &mut F,
    f: Ref,
    var: u32,
    primed: bool,
    value: u8,
    steps: &mut Steps<L>,
) -> Result<Ref, OpFault>
    requires known { (F.shows forest.old).knows f ≡ true }
    requires whole { IsWhole (F.shows forest.old) f }
    requires var { var < length (F.shows forest.old).sizes }
    requires value { value < slice_index (F.shows forest.old).sizes var }

    ensures made { MakesDiagram (F.shows forest.old) (F.shows forest.new) (restricted var primed value (meaning (F.shows forest.old) f)) result }
    ensures keeps { F.kept forest.new ≡ F.kept forest.old }
{
    let (first, end) = forest.layout().tests(var, primed);
    let rule = AtValue {
        first,
        end,
        value: value as u16,
    };
    make_alone(alloc, forest, &rule, f, f, steps)
}
