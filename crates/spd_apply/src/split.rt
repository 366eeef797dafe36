//! Where two diagrams go on at the lower of their levels.

ghost use Rattle.std.specs.Prelude.{◌≡◌};
ghost use Rattle.spd_apply.specs.Views.{lower_of_views, next_yes, next_no};
ghost use Rattle.spd_apply.specs.declared.rule.Plan.{Plan};
ghost use Rattle.spd_apply.specs.declared.rule.Below.{Below};

use crate::rule::{Below, Node, Plan};
use spd_nodes::{Level, Ref, View};

/// The lower of the levels that two roots test, if any.
pub fn lower_level(a: View, b: View) -> Option<Level>
    ensures { result ≡ lower_of_views a b }
{
    match (a, b) {
        (View::Leaf(_), View::Leaf(_)) => None,
        (View::Leaf(_), View::Test { level, .. }) => Some(level),
        (View::Test { level, .. }, View::Leaf(_)) => Some(level),
        (View::Test { level: left, .. }, View::Test { level: right, .. }) => {
            if right.0 < left.0 {
                Some(right)
            } else {
                Some(left)
            }
        }
    }
}

/// The children of a diagram whose root tests a level, or itself twice.
pub fn halves(f: Node, at: Level) -> (Ref, Ref)
    ensures yes { result.0 ≡ next_yes f.root f.name at }
    ensures no { result.1 ≡ next_no f.root f.name at }
{
    match f.root {
        View::Leaf(_) => (f.name, f.name),
        View::Test { level, yes, no } => {
            if level.0 == at.0 {
                (yes, no)
            } else {
                (f.name, f.name)
            }
        }
    }
}

/// A test of a level above what is made of the halves of two diagrams there.
pub fn test_of_halves(level: Level, f: Node, g: Node) -> Plan
    ensures { result ≡ Plan.Test level (Below.Pair (next_yes f.root f.name level) (next_yes g.root g.name level)) (Below.Pair (next_no f.root f.name level) (next_no g.root g.name level)) }
{
    let (f_yes, f_no) = halves(f, level);
    let (g_yes, g_no) = halves(g, level);
    Plan::Test {
        level,
        yes: Below::Pair(f_yes, g_yes),
        no: Below::Pair(f_no, g_no),
    }
}
