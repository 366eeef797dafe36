//! A diagram times the discount.

ghost use Rattle.std.specs.Prelude.{◌≡◌, ℕ, ◌≤◌, map, true};
ghost use Rattle.spd_nodes.specs.Levels.{levels_of, slots};
ghost use Rattle.spd_nodes.specs.Shown.{Shown, IsWhole, MakesDiagram, meaning};
ghost use Rattle.spd_apply.specs.Halves.{IsLeaf};
ghost use Rattle.spd_gather.specs.Down.{Each, at_each_leaf, last_leaf};
ghost use Rattle.spd_gather.specs.Lists.{AreKnown, trees_of};
ghost use Rattle.spd_weigh.specs.Discounting.{discounted};
ghost use Rattle.spd_weigh.specs.Leaves.{HasValues};
ghost use Rattle.spd_weigh.specs.Summed.{discounted_leaf, fits_one, MayDiscount, HoldsDiscounts};

use crate::way::Way;
use spd_apply::OpFault;
use spd_gather::{ListPlan, ListRule, Pool, Table, make_list, split};
use spd_nodes::{Forest, Leaf, Ref, Steps, View};
use spd_scaled::{ceil_div, floor_div};
use std::alloc::{AllocError, Global};
use std::sync::ledger::Ledger;

/// One diagram, with each number times a discount in units of 10^-6; `levels` is the number of all levels.
#[derive(Clone, Copy)]
struct Discounting {
    levels: u16,
    discount: u32,
    way: Way,
}

/// The number of the one leaf of a list times a discount, rounded.
fn leaf_times<F: Forest>(forest: &mut F, way: Way, discount: u32, list: &[Ref]) -> Leaf
    requires known { AreKnown (F.shows forest.old) list.now }
    requires leaves { Each IsLeaf (trees_of (F.shows forest.old) list.now) }
    requires discount { discount ≤ 999999 }
    requires fit { fits_one (map last_leaf (trees_of (F.shows forest.old) list.now)) ≡ true }
    ensures same { F.shows forest.new ≡ F.shows forest.old }
    ensures keeps { F.kept forest.new ≡ F.kept forest.old }
    ensures leaf { result ≡ discounted_leaf way discount (map last_leaf (trees_of (F.shows forest.old) list.now)) }
{
    match forest.view(list[0]) {
        View::Leaf(Leaf::Num(x)) => {
            let product = discount as i128 * x;
            Leaf::Num(match way {
                Way::Down => floor_div(product, 1_000_000),
                Way::Up => ceil_div(product, 1_000_000),
            })
        }
        _ => unreachable!(),
    }
}

impl ListRule for Discounting {
    ghost making = { λ r ts. at_each_leaf r.levels (discounted_leaf r.way r.discount) ts };

    ghost may = { λ r sizes ts. MayDiscount r.levels r.discount sizes ts };

    ghost ends = { λ r sizes ts. Each IsLeaf ts };

    fn known<F: Forest>(&self, _forest: &mut F, _list: &[Ref]) -> Option<Ref> {
        None
    }

    fn plan<F: Forest>(
        &self,
        forest: &mut F,
        list: &[Ref],
        pool: &mut Pool,
    ) -> Result<ListPlan, AllocError> {
        let sides = split(forest, list, pool)?;
        match sides.low {
            None => {
                pool.give(sides.yes);
                pool.give(sides.no);
                Ok(ListPlan::Bottom)
            }
            Some(level) => Ok(ListPlan::Test {
                level,
                yes: sides.yes,
                no: sides.no,
            }),
        }
    }

    fn bottom<F: Forest, L: Ledger>(
        &self,
        forest: &mut F,
        list: &[Ref],
        steps: &mut Steps<L>,
    ) -> Result<Ref, OpFault> {
        let leaf = leaf_times(forest, self.way, self.discount, list);
        forest.leaf(leaf, steps)
    }
}

/// The same as `discount` with a table that the caller keeps, which holds functions times this discount, rounded this way, alone:
/// before, and afterwards too, also where the call fails.
pub fn discount_with<F: Forest, L: Ledger>(
    alloc: Global,
    forest: &mut F,
    f: Ref,
    discount: u32,
    way: Way,
    table: &mut Table,
    steps: &mut Steps<L>,
) -> Result<Ref, OpFault>
    requires known { (F.shows forest.old).knows f ≡ true }
    requires whole { IsWhole (F.shows forest.old) f }
    requires discount { discount ≤ 999999 }
    requires values { HasValues (F.shows forest.old).sizes (meaning (F.shows forest.old) f) }
    requires table { HoldsDiscounts way discount (F.shows forest.old) table.old }

    ensures made { MakesDiagram (F.shows forest.old) (F.shows forest.new) (discounted way discount (meaning (F.shows forest.old) f)) result }
    ensures keeps { F.kept forest.new ≡ F.kept forest.old }
    ensures table { HoldsDiscounts way discount (F.shows forest.new) table.new }
{
    let layout = forest.layout();
    let last = layout.sizes().len() as u32 - 1;
    let (_, levels) = layout.tests(last, false);
    let rule = Discounting {
        levels,
        discount,
        way,
    };
    make_list(alloc, forest, &rule, &[f], table, steps)
}

/// The diagram of a function times the discount: at each state its number times `discount`, in units of 10^-6, divided by 10^6 and
/// rounded. It makes only nodes of its answer. Full comes only where a call of the forest answered Full in this call. Calls nest at
/// most two deep a level, and there are at most 512 levels.
pub fn discount<F: Forest, L: Ledger>(
    alloc: Global,
    forest: &mut F,
    f: Ref,
    discount: u32,
    way: Way,
    steps: &mut Steps<L>,
) -> Result<Ref, OpFault>
    requires known { (F.shows forest.old).knows f ≡ true }
    requires whole { IsWhole (F.shows forest.old) f }
    requires discount { discount ≤ 999999 }
    requires values { HasValues (F.shows forest.old).sizes (meaning (F.shows forest.old) f) }

    ensures made { MakesDiagram (F.shows forest.old) (F.shows forest.new) (discounted way discount (meaning (F.shows forest.old) f)) result }
    ensures keeps { F.kept forest.new ≡ F.kept forest.old }
{
    let mut table = Table::new(alloc, 1, usize::MAX);
    discount_with(alloc, forest, f, discount, way, &mut table, steps)
}
