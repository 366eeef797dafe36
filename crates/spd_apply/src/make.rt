//! The recursion that all operations share: recall, view, plan, go on below, keep.

ghost use Rattle.std.specs.Prelude.{◌≡◌, ℕ, ◌+◌, ◌*◌, ◌≤◌, IfOk, IfErr, IfSome, OnOk, OnErr, true};
ghost use Rattle.spd_memo.specs.Kept.{IsKept, Keeps, answer_in, promoted_in, put_in};
ghost use Rattle.spd_nodes.specs.declared.forest.StoreFault.{StoreFault};
ghost use Rattle.spd_nodes.specs.Levels.{slots};
ghost use Rattle.spd_nodes.specs.Shown.{Shown, IsSound, MakesTree};
ghost use Rattle.spd_apply.specs.Costs.{AddsLower, Counts, pair_count, unkept_of};
ghost use Rattle.spd_apply.specs.Halves.{pair_rank};
ghost use Rattle.spd_apply.specs.Rules.{HoldsAnswers, IsAnswer, IsReady, IsBelow, IsNodeAt, below_rank, below_tree};

use crate::rule::{Below, Descent, Node, OpFault, Plan};
use spd_memo::Memo;
use spd_nodes::{Forest, Ref, Steps};
use std::alloc::Global;
use std::sync::ledger::Ledger;

/// The answer that a memo keeps. None comes exactly where it keeps none.
#[tactic(auto, using(crate::proofs::MemoLaws::answer_laws))]
fn recall<F: Forest, D: Descent>(
    forest: &F,
    rule: &D,
    f: Ref,
    g: Ref,
    memo: &mut Memo,
) -> Option<Ref>
    requires { HoldsAnswers (D.making rule.now) (F.shows forest.now) memo.old }
    ensures kept { result ≡ answer_in memo.old.pairs f g }
    ensures pairs { memo.new.pairs ≡ promoted_in memo.old.pairs f g }
    ensures before { IsKept memo.old }
    ensures distinct { IsKept memo.new }
    ensures answer { IfSome result (λ r. IsAnswer (D.making rule.now) (F.shows forest.now) f g r) }
    ensures memo { HoldsAnswers (D.making rule.now) (F.shows forest.now) memo.new }
    ensures capacity { memo.new.capacity ≡ memo.old.capacity }
{
    memo.get(f, g)
}

/// Keeps an answer.
#[tactic(auto, using(crate::proofs::MemoLaws::answer_laws))]
fn keep<F: Forest, D: Descent>(
    forest: &F,
    rule: &D,
    f: Ref,
    g: Ref,
    r: Ref,
    memo: &mut Memo,
) -> Result<Ref, OpFault>
    requires memo { HoldsAnswers (D.making rule.now) (F.shows forest.now) memo.old }
    requires answer { IsAnswer (D.making rule.now) (F.shows forest.now) f g r }
    ensures same { IfOk result (λ q. q ≡ r) }
    ensures kept { OnOk result (memo.new ≡ put_in memo.old f g r) }
    ensures unkept { OnErr result (memo.new ≡ memo.old) }
    ensures distinct { IsKept memo.new }
    ensures memory { IfErr result (λ e. e ≡ StoreFault.Memory) }
    ensures memo { HoldsAnswers (D.making rule.now) (F.shows forest.now) memo.new }
    ensures capacity { memo.new.capacity ≡ memo.old.capacity }
{
    match memo.put(f, g, r) {
        Ok(()) => Ok(r),
        Err(_) => Err(OpFault::Memory),
    }
}

/// A diagram with its root.
fn node<F: Forest>(forest: &mut F, name: Ref) -> Node
    requires { (F.shows forest.old).knows name ≡ true }
    ensures same { F.shows forest.new ≡ F.shows forest.old }
    ensures keeps { F.kept forest.new ≡ F.kept forest.old }
    ensures name { result.name ≡ name }
    ensures root { IsNodeAt (F.shows forest.old) result }
{
    Node {
        name,
        root: forest.view(name),
    }
}

/// Two diagrams with their roots. One that is given twice is viewed once.
fn nodes<F: Forest>(forest: &mut F, f: Ref, g: Ref) -> (Node, Node)
    requires left { (F.shows forest.old).knows f ≡ true }
    requires right { (F.shows forest.old).knows g ≡ true }
    ensures same { F.shows forest.new ≡ F.shows forest.old }
    ensures keeps { F.kept forest.new ≡ F.kept forest.old }
    ensures left_name { result.0.name ≡ f }
    ensures right_name { result.1.name ≡ g }
    ensures left { IsNodeAt (F.shows forest.old) result.0 }
    ensures right { IsNodeAt (F.shows forest.old) result.1 }
{
    let left = node(forest, f);
    if f == g {
        return (left, left);
    }
    (left, node(forest, g))
}

/// Makes what a rule makes of two Refs, each pair once as long as the memo keeps it. Each call of a pair goes down at least
/// one level, so calls nest at most three deep a level, and there are at most 512 levels.
///
/// A memo that may keep all pairs of nodes of the two diagrams drops none of them on the way, whatever it kept before. So each is
/// made at most once, in one step, or, where the rule goes no further, in as many as it says.
pub fn make_pair<F: Forest, D: Descent, L: Ledger>(
    forest: &mut F,
    rule: &D,
    f: Ref,
    g: Ref,
    memo: &mut Memo,
    steps: &mut Steps<L>,
) -> Result<Ref, OpFault>
    requires { IsReady (D.making rule.now) (D.may rule.now (F.shows forest.old).sizes) (F.shows forest.old) f g memo.old }
    ensures made { MakesTree (F.shows forest.old) (F.shows forest.new) (D.making rule.now ((F.shows forest.old).tree f) ((F.shows forest.old).tree g)) result }
    ensures keeps { F.kept forest.new ≡ F.kept forest.old }
    ensures memo { HoldsAnswers (D.making rule.now) (F.shows forest.new) memo.new }
    ensures capacity { memo.new.capacity ≡ memo.old.capacity }
    ensures steps { pair_count ((F.shows forest.old).tree f) ((F.shows forest.old).tree g) ≤ memo.old.capacity → steps.new ≤ steps.old + (1 + D.more_steps rule.now) * pair_count ((F.shows forest.old).tree f) ((F.shows forest.old).tree g) }
{
    recall_or_make(forest, rule, f, g, memo, steps)
}

/// The answer that the memo keeps, or the one that is made, which it then keeps.
#[cycle(make)]
fn recall_or_make<F: Forest, D: Descent, L: Ledger>(
    forest: &mut F,
    rule: &D,
    f: Ref,
    g: Ref,
    memo: &mut Memo,
    steps: &mut Steps<L>,
) -> Result<Ref, OpFault>
    requires { IsReady (D.making rule.now) (D.may rule.now (F.shows forest.old).sizes) (F.shows forest.old) f g memo.old }
    ensures made { MakesTree (F.shows forest.old) (F.shows forest.new) (D.making rule.now ((F.shows forest.old).tree f) ((F.shows forest.old).tree g)) result }
    ensures keeps { F.kept forest.new ≡ F.kept forest.old }
    ensures memo { HoldsAnswers (D.making rule.now) (F.shows forest.new) memo.new }
    ensures capacity { memo.new.capacity ≡ memo.old.capacity }
    ensures before { IsKept memo.old }
    ensures lower { AddsLower (F.shows forest.new) memo.old memo.new (below_rank (F.shows forest.old) (Below.Pair f g)) }
    ensures counts { Counts (F.shows forest.old) (F.shows forest.new) memo.old memo.new steps.old steps.new (1 + D.more_steps rule.now) (Below.Pair f g) (unkept_of result) }
{
    if let Some(r) = recall(forest, rule, f, g, memo) {
        return Ok(r);
    }
    let (left, right) = nodes(forest, f, g);
    let r = make_anew(forest, rule, left, right, memo, steps)?;
    keep(forest, rule, f, g, r, memo)
}

/// The same, where the memo has no answer.
#[cycle(make)]
fn make_anew<F: Forest, D: Descent, L: Ledger>(
    forest: &mut F,
    rule: &D,
    f: Node,
    g: Node,
    memo: &mut Memo,
    steps: &mut Steps<L>,
) -> Result<Ref, OpFault>
    requires ready { IsReady (D.making rule.now) (D.may rule.now (F.shows forest.old).sizes) (F.shows forest.old) f.name g.name memo.old }
    requires absent { Keeps memo.old f.name g.name → ⊥ }
    requires left { IsNodeAt (F.shows forest.old) f }
    requires right { IsNodeAt (F.shows forest.old) g }
    ensures made { MakesTree (F.shows forest.old) (F.shows forest.new) (D.making rule.now ((F.shows forest.old).tree f.name) ((F.shows forest.old).tree g.name)) result }
    ensures keeps { F.kept forest.new ≡ F.kept forest.old }
    ensures memo { HoldsAnswers (D.making rule.now) (F.shows forest.new) memo.new }
    ensures capacity { memo.new.capacity ≡ memo.old.capacity }
    ensures lower { AddsLower (F.shows forest.new) memo.old memo.new (pair_rank (slots (F.shows forest.old).sizes) ((F.shows forest.old).tree f.name) ((F.shows forest.old).tree g.name)) }
    ensures counts { Counts (F.shows forest.old) (F.shows forest.new) memo.old memo.new steps.old steps.new (1 + D.more_steps rule.now) (Below.Pair f.name g.name) 1 }
{
    match rule.plan(forest, f, g) {
        Plan::Leaf(leaf) => forest.leaf(leaf, steps),
        Plan::Below(below) => make_below(forest, rule, below, memo, steps),
        Plan::Test { level, yes, no } => {
            let yes = make_below(forest, rule, yes, memo, steps)?;
            let no = make_below(forest, rule, no, memo, steps)?;
            forest.test(level, yes, no, steps)
        }
        Plan::Bottom => rule.bottom(forest, f, g, steps),
    }
}

/// Makes what is below.
#[cycle(make)]
fn make_below<F: Forest, D: Descent, L: Ledger>(
    forest: &mut F,
    rule: &D,
    below: Below,
    memo: &mut Memo,
    steps: &mut Steps<L>,
) -> Result<Ref, OpFault>
    requires sound { IsSound (F.shows forest.old) }
    requires below { IsBelow (D.may rule.now (F.shows forest.old).sizes) (F.shows forest.old) below }
    requires memo { HoldsAnswers (D.making rule.now) (F.shows forest.old) memo.old }
    ensures made { MakesTree (F.shows forest.old) (F.shows forest.new) (below_tree (D.making rule.now) (F.shows forest.old) below) result }
    ensures keeps { F.kept forest.new ≡ F.kept forest.old }
    ensures memo { HoldsAnswers (D.making rule.now) (F.shows forest.new) memo.new }
    ensures capacity { memo.new.capacity ≡ memo.old.capacity }
    ensures lower { AddsLower (F.shows forest.new) memo.old memo.new (below_rank (F.shows forest.old) below) }
    ensures counts { Counts (F.shows forest.old) (F.shows forest.new) memo.old memo.new steps.old steps.new (1 + D.more_steps rule.now) below (unkept_of result) }
{
    match below {
        Below::Known(r) => Ok(r),
        Below::Pair(f, g) => recall_or_make(forest, rule, f, g, memo, steps),
    }
}

/// The same as `make_pair` with a memo of its own, which keeps all pairs.
pub fn make_alone<F: Forest, D: Descent, L: Ledger>(
    alloc: Global,
    forest: &mut F,
    rule: &D,
    f: Ref,
    g: Ref,
    steps: &mut Steps<L>,
) -> Result<Ref, OpFault>
    requires left { (F.shows forest.old).knows f ≡ true }
    requires right { (F.shows forest.old).knows g ≡ true }
    requires may { D.may rule.now (F.shows forest.old).sizes ((F.shows forest.old).tree f) ((F.shows forest.old).tree g) }
    ensures made { MakesTree (F.shows forest.old) (F.shows forest.new) (D.making rule.now ((F.shows forest.old).tree f) ((F.shows forest.old).tree g)) result }
    ensures keeps { F.kept forest.new ≡ F.kept forest.old }
{
    let _ = forest.layout();
    match Memo::new(alloc, usize::MAX) {
        Ok(mut memo) => make_pair(forest, rule, f, g, &mut memo, steps),
        Err(_) => Err(OpFault::Memory),
    }
}
