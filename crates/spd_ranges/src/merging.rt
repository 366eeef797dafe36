//! Merging the values of states.

ghost use Rattle.std.specs.Prelude.{◌≡◌, ◌≤ℤ◌, ℕ, ◌<◌, List, ℤ, pos, true, IfOk};
ghost use Rattle.spd_model.specs.Process.{Process};
ghost use Rattle.spd_nodes.specs.Shown.{Shown, IsSound, IsWhole, MakesDiagram, meaning};
ghost use Rattle.spd_apply.specs.Outcome.{FitEverywhere, FitsEverywhere};
ghost use Rattle.spd_ranges.specs.Merging.{at_most, paired, group_ranges, groups_over, Merges, HaveBest, MergesTurn};
ghost use Rattle.spd_ranges.specs.inner.Groups.{is_range, Finds};

use crate::groups::{Grouping, join_pairs};
use crate::middle::Middle;
use spd_apply::{MakePair, OpFault, apply, leaves_of, map_leaves};
use spd_memo::Memo;
use spd_nodes::{Forest, Ref, Steps};
use std::alloc::{AllocError, Global};
use std::sync::ledger::Ledger;

/// The diagrams of a merge, in units of 10^-9.
#[derive(Clone, Copy, Debug, PartialEq, Eq)]
pub struct Ranged {
    /// The lower and the upper bound of each state, as a Pair.
    pub pairs: Ref,
    /// The range of the group that each state's pair is in, as a Pair: from the lower end to the greatest upper end.
    pub range: Ref,
    /// The new value of each state: the middle of that range, rounded down.
    pub mid: Ref,
}

/// The numbers of two diagrams at each state, as a Pair.
fn pair_up<F: Forest, L: Ledger>(
    alloc: Global,
    forest: &mut F,
    low: Ref,
    high: Ref,
    memo_size: usize,
    steps: &mut Steps<L>,
) -> Result<Ref, OpFault>
    requires low_known { (F.shows forest.old).knows low ≡ true }
    requires high_known { (F.shows forest.old).knows high ≡ true }
    requires low_whole { IsWhole (F.shows forest.old) low }
    requires high_whole { IsWhole (F.shows forest.old) high }
    requires ordered { FitEverywhere at_most (F.shows forest.old) low high }
    requires memo_size { 0 < memo_size }
    ensures made { MakesDiagram (F.shows forest.old) (F.shows forest.new) (paired (meaning (F.shows forest.old) low) (meaning (F.shows forest.old) high)) result }
    ensures keeps { F.kept forest.new ≡ F.kept forest.old }
{
    let _ = forest.layout();
    match Memo::new(alloc, memo_size) {
        Ok(mut memo) => apply(forest, &MakePair, low, high, &mut memo, steps),
        Err(_) => Err(OpFault::Memory),
    }
}

/// The groups of the pairs of a diagram. The error is want of memory.
fn groups_at<F: Forest>(
    alloc: Global,
    forest: &mut F,
    pairs: Ref,
    span: i128,
) -> Result<Grouping, AllocError>
    requires known { (F.shows forest.old).knows pairs ≡ true }
    requires whole { IsWhole (F.shows forest.old) pairs }
    requires ranges { FitsEverywhere is_range (F.shows forest.old) pairs }
    requires span { pos 0 ≤ℤ span }
    ensures same { F.shows forest.new ≡ F.shows forest.old }
    ensures keeps { F.kept forest.new ≡ F.kept forest.old }
    ensures finds { IfOk result (λ g. Finds (F.shows forest.old).sizes span (meaning (F.shows forest.old) pairs) g.groups.items) }
{
    let leaves = leaves_of(alloc, forest, pairs)?;
    join_pairs(alloc, &leaves, span)
}

/// The range of the group that each state's pair is in.
fn range_of<F: Forest, L: Ledger>(
    alloc: Global,
    forest: &mut F,
    pairs: Ref,
    span: i128,
    steps: &mut Steps<L>,
) -> Result<Ref, OpFault>
    requires known { (F.shows forest.old).knows pairs ≡ true }
    requires whole { IsWhole (F.shows forest.old) pairs }
    requires ranges { FitsEverywhere is_range (F.shows forest.old) pairs }
    requires span { pos 0 ≤ℤ span }
    ensures made { MakesDiagram (F.shows forest.old) (F.shows forest.new) (group_ranges (F.shows forest.old).sizes span (meaning (F.shows forest.old) pairs)) result }
    ensures keeps { F.kept forest.new ≡ F.kept forest.old }
{
    let _ = forest.layout();
    // Without a span each pair is a group of its own.
    if span == 0 {
        return Ok(pairs);
    }
    match groups_at(alloc, forest, pairs, span) {
        Ok(groups) => map_leaves(alloc, forest, &groups, pairs, steps),
        Err(_) => Err(OpFault::Memory),
    }
}

/// The ranges of states whose values are joined, and the new values, from a lower and an upper bound of each state's value
/// (APRICODD, NIPS 2000; how groups are formed is this project's own rule).
///
/// The distinct pairs of bounds are taken in order, by the lower and then by the upper one. A group takes each next pair as long as the
/// greatest upper end, that pair's included, is at most the lower end of the group's first pair plus `span`, in units of 10^-9. Each
/// state gets the middle of its group's range, rounded down. With span 0 each pair is a group of its own. The values are those of the next
/// turn where the bounds are the greatest ones over a process's actions.
///
/// `low` and `high` have numbers, and `low` is at most `high` at each state. It makes only nodes of its three answers. Full comes only
/// where a call of the forest answered Full in this call, and Memory where the heap gave none. The memo of the pairs keeps at most
/// `memo_size` of them.
pub fn merge<F: Forest, L: Ledger>(
    alloc: Global,
    forest: &mut F,
    low: Ref,
    high: Ref,
    span: i128,
    memo_size: usize,
    steps: &mut Steps<L>,
) -> Result<Ranged, OpFault>
    requires low_known { (F.shows forest.old).knows low ≡ true }
    requires high_known { (F.shows forest.old).knows high ≡ true }
    requires low_whole { IsWhole (F.shows forest.old) low }
    requires high_whole { IsWhole (F.shows forest.old) high }
    requires ordered { FitEverywhere at_most (F.shows forest.old) low high }
    requires span { pos 0 ≤ℤ span }
    requires memo_size { 0 < memo_size }

    ensures made { Merges (F.shows forest.old) (F.shows forest.new) span (meaning (F.shows forest.old) low) (meaning (F.shows forest.old) high) result }
    ensures turn { (m : Process) (w : List ℤ) → HaveBest m w (F.shows forest.old) low high → MergesTurn m span w (F.shows forest.old) (F.shows forest.new) result }
    ensures keeps { F.kept forest.new ≡ F.kept forest.old }
{
    let _ = forest.layout();
    let pairs = pair_up(alloc, forest, low, high, memo_size, steps)?;
    let range = range_of(alloc, forest, pairs, span, steps)?;
    let mid = map_leaves(alloc, forest, &Middle, range, steps)?;
    Ok(Ranged { pairs, range, mid })
}
