//! A branch: a diagram for each value of a variable, put together.

ghost use Rattle.std.specs.Prelude.{◌≡◌, ℕ, ◌+◌, ◌-◌, ◌<◌, ◌≤◌, All, true, length, map, slice_index};
ghost use Rattle.spd_nodes.specs.Levels.{levels_of, slots};
ghost use Rattle.spd_nodes.specs.Shown.{Shown, IsSound, IsWhole, MakesTree, MakesDiagram, MakesAmong, meaning};
ghost use Rattle.spd_apply.specs.Rules.{IsNodeAt};
ghost use Rattle.spd_apply.specs.Views.{next_no};
ghost use Rattle.spd_restrict.specs.Chosen.{branch_functions, chosen, chosen_from};
ghost use Rattle.spd_restrict.specs.Replaced.{replaced, replaced_after, replaced_at, MayReplace, MeetAt, CanReplace};

use spd_apply::{
    Below, Descent, Node, OpFault, Plan, halves, lower_level, make_alone, test_of_halves,
};
use spd_nodes::{Forest, Level, Ref, Steps, View};
use std::alloc::Global;
use std::sync::ledger::Ledger;

/// One diagram at one value of a variable, primed or plain, that isn't its last one, and another one elsewhere. `first` is
/// the number of the variable's first test. It goes no further where both are the same diagram.
#[derive(Clone, Copy)]
struct AtOneValue {
    first: u16,
    value: u16,
}

/// Where a diagram goes on if a level's test doesn't hold, with its root, which is viewed if it wasn't.
fn no_half<F: Forest>(forest: &mut F, f: Node, at: Level) -> Node
    requires { IsNodeAt (F.shows forest.old) f }
    ensures same { F.shows forest.new ≡ F.shows forest.old }
    ensures keeps { F.kept forest.new ≡ F.kept forest.old }
    ensures name { result.name ≡ next_no f.root f.name at }
    ensures root { IsNodeAt (F.shows forest.old) result }
{
    match f.root {
        View::Test { level, no, .. } if level.0 == at.0 => Node {
            name: no,
            root: forest.view(no),
        },
        _ => f,
    }
}

/// The test of a level and those after it in its slot, of which `before` come before the value's own one: the second
/// diagram's children, but the first one's where the value's test holds. Calls nest at most 64 deep.
fn replace_after<F: Forest, L: Ledger>(
    forest: &mut F,
    before: u16,
    level: Level,
    f: Node,
    g: Node,
    steps: &mut Steps<L>,
) -> Result<Ref, OpFault>
    requires sound { IsSound (F.shows forest.old) }
    requires left { IsNodeAt (F.shows forest.old) f }
    requires right { IsNodeAt (F.shows forest.old) g }
    requires can { CanReplace before level.0 (F.shows forest.old).sizes ((F.shows forest.old).tree f.name) ((F.shows forest.old).tree g.name) }
    ensures made { MakesTree (F.shows forest.old) (F.shows forest.new) (replaced_after before level.0 ((F.shows forest.old).tree f.name) ((F.shows forest.old).tree g.name)) result }
    ensures keeps { F.kept forest.new ≡ F.kept forest.old }
    ensures cost { steps.new ≤ steps.old + (1 + before) }
{
    let (f_yes, _) = halves(f, level);
    let (g_yes, g_no) = halves(g, level);
    if before == 0 {
        return forest.test(level, f_yes, g_no, steps);
    }
    let f_rest = no_half(forest, f, level);
    let g_rest = no_half(forest, g, level);
    let rest = replace_after(
        forest,
        before - 1,
        Level(level.0 + 1),
        f_rest,
        g_rest,
        steps,
    )?;
    forest.test(level, g_yes, rest, steps)
}

impl Descent for AtOneValue {
    ghost making = { λ r t u. replaced r.first r.value t u };

    ghost may = { λ r sizes t u. MayReplace r.first r.value sizes t u };

    ghost ends = { λ r sizes t u. MeetAt r.first t u };

    ghost more_steps = { λ r. r.value };

    fn plan<F: Forest>(&self, _forest: &F, f: Node, g: Node) -> Plan {
        if f.name == g.name {
            return Plan::Below(Below::Known(f.name));
        }
        match lower_level(f.root, g.root) {
            Some(level) if level.0 < self.first => test_of_halves(level, f, g),
            _ => Plan::Bottom,
        }
    }

    fn bottom<F: Forest, L: Ledger>(
        &self,
        forest: &mut F,
        f: Node,
        g: Node,
        steps: &mut Steps<L>,
    ) -> Result<Ref, OpFault> {
        replace_after(forest, self.value, Level(self.first), f, g, steps)
    }
}

/// One diagram at one value of a variable's next value (primed) or present one, which isn't its last, and another one
/// elsewhere. It makes only nodes of its answer.
fn replace<F: Forest, L: Ledger>(
    alloc: Global,
    forest: &mut F,
    var: u32,
    primed: bool,
    value: u8,
    f: Ref,
    g: Ref,
    steps: &mut Steps<L>,
) -> Result<Ref, OpFault>
    requires left { (F.shows forest.old).knows f ≡ true }
    requires right { (F.shows forest.old).knows g ≡ true }
    requires left_whole { IsWhole (F.shows forest.old) f }
    requires right_whole { IsWhole (F.shows forest.old) g }
    requires var { var < length (F.shows forest.old).sizes }
    requires value { value + 1 < slice_index (F.shows forest.old).sizes var }
    ensures made { MakesDiagram (F.shows forest.old) (F.shows forest.new) (replaced_at var primed value (meaning (F.shows forest.old) f) (meaning (F.shows forest.old) g)) result }
    ensures keeps { F.kept forest.new ≡ F.kept forest.old }
{
    let (first, _) = forest.layout().tests(var, primed);
    let rule = AtOneValue {
        first,
        value: value as u16,
    };
    make_alone(alloc, forest, &rule, f, g, steps)
}

/// The kid of the variable's value where that is at least `value`, and the last kid elsewhere. Calls nest at most 64 deep.
fn choose_from<F: Forest, L: Ledger>(
    alloc: Global,
    forest: &mut F,
    var: u32,
    primed: bool,
    kids: &[Ref],
    value: usize,
    steps: &mut Steps<L>,
) -> Result<Ref, OpFault>
    requires known { All (λ k. (F.shows forest.old).knows k ≡ true) kids.now }
    requires whole { All (λ k. IsWhole (F.shows forest.old) k) kids.now }
    requires var { var < length (F.shows forest.old).sizes }
    requires count { length kids.now ≡ slice_index (F.shows forest.old).sizes var }
    requires value { value < length kids.now }
    ensures made { MakesAmong (F.shows forest.old) (F.shows forest.new) (chosen_from value var primed (map (meaning (F.shows forest.old)) kids.now)) (branch_functions var primed (map (meaning (F.shows forest.old)) kids.now)) result }
    ensures keeps { F.kept forest.new ≡ F.kept forest.old }
{
    let _ = forest.layout();
    let kid = kids[value];
    if value + 1 == kids.len() {
        return Ok(kid);
    }
    let rest = choose_from(alloc, forest, var, primed, kids, value + 1, steps)?;
    replace(alloc, forest, var, primed, value as u8, kid, rest, steps)
}

/// The diagram of the kid of a variable's next value (primed) or present one, at each state; there is one kid for each value,
/// in order.
///
/// It makes only nodes of its answer and of the functions on the way: for each value, the kid of the variable's value where
/// that is at least this one, and the last kid elsewhere. Full comes only where a call of the forest answered Full in this
/// call. Calls nest at most three deep a level and 128 deep besides, and there are at most 512 levels.
pub fn choose<F: Forest, L: Ledger>(
    alloc: Global,
    forest: &mut F,
    var: u32,
    primed: bool,
    kids: &[Ref],
    steps: &mut Steps<L>,
) -> Result<Ref, OpFault>
    requires known { All (λ k. (F.shows forest.old).knows k ≡ true) kids.now }
    requires whole { All (λ k. IsWhole (F.shows forest.old) k) kids.now }
    requires var { var < length (F.shows forest.old).sizes }
    requires count { length kids.now ≡ slice_index (F.shows forest.old).sizes var }

    ensures made { MakesAmong (F.shows forest.old) (F.shows forest.new) (chosen var primed (map (meaning (F.shows forest.old)) kids.now)) (branch_functions var primed (map (meaning (F.shows forest.old)) kids.now)) result }
    ensures keeps { F.kept forest.new ≡ F.kept forest.old }
{
    let _ = forest.layout();
    choose_from(alloc, forest, var, primed, kids, 0, steps)
}
