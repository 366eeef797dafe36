//! The first of several diagrams that is the greatest.

ghost use Rattle.std.specs.Prelude.{◌≡◌, ℕ, ◌<◌, ◌≤◌, ◌≢◌, ◌∷◌, All, IfOk, length, map, slice_index_or};
ghost use Rattle.spd_cons_core.specs.declared.key.Entry.{Entry};
ghost use Rattle.spd_nodes.specs.Levels.{levels_of, slots};
ghost use Rattle.spd_nodes.specs.Shown.{Shown, StandsFor, MakesDiagram, meaning};
ghost use Rattle.spd_gather.specs.Down.{at_each_leaf};
ghost use Rattle.spd_policy.specs.Best.{greatest_of, policy_by, IsNumeric};
ghost use Rattle.spd_policy.specs.Choosing.{place_leaf, MayCompare, IsDecided, IsLike, HoldsPlaces};

use spd_apply::OpFault;
use spd_gather::{ListPlan, ListRule, Pool, Table, make_list, split};
use spd_nodes::{Forest, Leaf, Ref, Steps};
use std::alloc::{AllocError, Global};
use std::sync::ledger::Ledger;

/// The place, in a list of the greatest and of all bounds, of the first bound that is the greatest; `levels` is the number of all
/// levels.
#[derive(Clone, Copy)]
struct Placing {
    levels: u16,
}

/// The index of the first Ref after the head of a list that is the head, else the list's length.
fn first_same(list: &[Ref]) -> usize
    requires { 0 < length list.now }
    ensures after { 0 < result }
    ensures within { result ≤ length list.now }
    ensures before { (k : ℕ) (d : Entry) → 0 < k → k < result → slice_index_or list.now k d ≢ slice_index_or list.now 0 d }
    ensures same { (d : Entry) → result < length list.now → slice_index_or list.now result d ≡ slice_index_or list.now 0 d }
{
    for i in 1..list.len() {
        if list[i] == list[0] {
            return i;
        }
    }
    list.len()
}

/// Puts the greatest in the place of each bound after the first one that is the greatest. Any bound may stand there, since none of them
/// is the first, so lists with the same answer become one.
fn cut(list: &mut Vec<Ref>)
    requires { 0 < length list.old.items }
    ensures { IsLike place_leaf list.old.items list.new.items }
{
    let greatest = list[0];
    for i in first_same(list.as_slice())..list.len() {
        list[i] = greatest;
    }
}

/// The greatest before all bounds.
fn with_greatest(alloc: Global, greatest: Ref, list: &[Ref]) -> Result<Vec<Ref>, AllocError>
    requires { length list.now ≤ 64 }
    ensures { IfOk result (λ v. v.items ≡ greatest ∷ list.now) }
{
    let mut all = Vec::with_capacity(alloc, list.len() + 1)?;
    all.push(greatest)?;
    all.extend_from_slice(list)?;
    Ok(all)
}

impl ListRule for Placing {
    ghost making = { λ r ts. at_each_leaf r.levels place_leaf ts };

    ghost may = { λ r sizes ts. MayCompare r.levels sizes ts };

    ghost ends = { λ r sizes ts. IsDecided ts };

    fn known<F: Forest>(&self, _forest: &mut F, _list: &[Ref]) -> Option<Ref> {
        None
    }

    fn plan<F: Forest>(
        &self,
        forest: &mut F,
        list: &[Ref],
        pool: &mut Pool,
    ) -> Result<ListPlan, AllocError> {
        if list.len() > 1 && list[1] == list[0] {
            return Ok(ListPlan::Bottom);
        }
        let mut sides = split(forest, list, pool)?;
        match sides.low {
            None => {
                pool.give(sides.yes);
                pool.give(sides.no);
                Ok(ListPlan::Bottom)
            }
            Some(level) => {
                cut(&mut sides.yes);
                cut(&mut sides.no);
                Ok(ListPlan::Test {
                    level,
                    yes: sides.yes,
                    no: sides.no,
                })
            }
        }
    }

    fn bottom<F: Forest, L: Ledger>(
        &self,
        forest: &mut F,
        list: &[Ref],
        steps: &mut Steps<L>,
    ) -> Result<Ref, OpFault> {
        let place = first_same(list) as u32 - 1;
        forest.leaf(Leaf::Act(place), steps)
    }
}

/// The place of the first of several diagrams that is the greatest, at each state, as an action. The greatest of them is there.
pub fn first_greatest<F: Forest, L: Ledger>(
    alloc: Global,
    forest: &mut F,
    greatest: Ref,
    list: &[Ref],
    table: &mut Table,
    steps: &mut Steps<L>,
) -> Result<Ref, OpFault>
    requires list { All (λ r. IsNumeric (F.shows forest.old) r) list.now }
    requires some { 0 < length list.now }
    requires few { length list.now ≤ 64 }
    requires greatest { StandsFor (F.shows forest.old) greatest (greatest_of (map (meaning (F.shows forest.old)) list.now)) }
    requires table { HoldsPlaces (F.shows forest.old) table.old }
    ensures made { MakesDiagram (F.shows forest.old) (F.shows forest.new) (policy_by (map (meaning (F.shows forest.old)) list.now)) result }
    ensures keeps { F.kept forest.new ≡ F.kept forest.old }
    ensures table { HoldsPlaces (F.shows forest.new) table.new }
{
    let layout = forest.layout();
    let last = layout.sizes().len() as u32 - 1;
    let (_, levels) = layout.tests(last, false);
    let rule = Placing { levels };
    match with_greatest(alloc, greatest, list) {
        Ok(mut all) => {
            cut(&mut all);
            make_list(alloc, forest, &rule, all.as_slice(), table, steps)
        }
        Err(_) => Err(OpFault::Memory),
    }
}
