//! The expectation of a value after an action.

ghost use Rattle.std.specs.Prelude.{◌≡◌, ℕ, List, ℤ, length, map};
ghost use Rattle.spd_model.specs.Process.{Process};
ghost use Rattle.spd_model.specs.declared.process.Action.{Action};
ghost use Rattle.spd_nodes.specs.Shown.{Shown, MakesDiagram, meaning};
ghost use Rattle.spd_weigh.specs.Weighing.{summed_out};
ghost use Rattle.spd_backup.specs.Thawing.{weights_in};
ghost use Rattle.spd_backup.specs.Exact.{HoldDown};
ghost use Rattle.spd_backup.specs.Keeping.{HoldVariable, HoldEachSum};
ghost use Rattle.spd_backup.specs.Making.{IsFollowed, Follows, MakesExpected, CanSumOut};

use crate::exact::sum_once;
use crate::tables::{SumTables, kept_sum, last_sum};
use crate::thawed::{Thawed, weights_of};
use spd_apply::OpFault;
use spd_nodes::{Forest, Ref, Steps};
use spd_weigh::Way;
use std::alloc::Global;
use std::sync::ledger::Ledger;

/// An expectation with one variable more summed out, by an action's weights of it. `down` has sums that were rounded down.
fn sum_variable<F: Forest, L: Ledger>(
    alloc: Global,
    forest: &mut F,
    thawed: &Thawed,
    expected: Ref,
    action: u32,
    var: usize,
    way: Way,
    down: &[SumTables],
    tables: &mut SumTables,
    steps: &mut Steps<L>,
) -> Result<Ref, OpFault>
    requires down { HoldDown (F.shows forest.old) down.now }
    requires can { CanSumOut way (F.shows forest.old) thawed.now expected action var tables.old }
    ensures made { MakesDiagram (F.shows forest.old) (F.shows forest.new) (summed_out way var (map (meaning (F.shows forest.old)) (weights_in thawed.now.sizes.items thawed.now.weights.items action var)) (meaning (F.shows forest.old) expected)) result }
    ensures keeps { F.kept forest.new ≡ F.kept forest.old }
    ensures tables { HoldVariable way var (F.shows forest.new) tables.new }
{
    let _ = forest.layout();
    let weights = weights_of(thawed, action, var);
    if let Some(sum) = last_sum(&tables.last, expected, weights) {
        return Ok(sum);
    }
    let sum = sum_once(
        alloc,
        forest,
        expected,
        var as u32,
        weights,
        way,
        down,
        &mut tables.rows,
        steps,
    )?;
    tables.last = kept_sum(alloc, expected, weights, sum);
    Ok(sum)
}

/// The expectation of a primed value after an action: the variables' next values are summed out in order, one after another. The
/// tables hold sums rounded this way, one table for each variable. What stands in `down`, rounded down, isn't made again where no
/// rounding changes it.
pub fn expect<F: Forest, L: Ledger>(
    alloc: Global,
    forest: &mut F,
    thawed: &Thawed,
    next: Ref,
    action: u32,
    way: Way,
    down: &[SumTables],
    sums: &mut Vec<SumTables>,
    steps: &mut Steps<L>,
) -> Result<Ref, OpFault>
    requires followed { IsFollowed (F.shows forest.old) thawed.now action next }
    requires down { HoldDown (F.shows forest.old) down.now }
    requires sums { HoldEachSum way (length thawed.now.sizes.items) (F.shows forest.old) sums.old.items }
    ensures made { (m : Process) (a : Action) (w : List ℕ → ℤ) → Follows m a w (F.shows forest.old) thawed.now action next → MakesExpected way m a w (F.shows forest.old) (F.shows forest.new) result }
    ensures keeps { F.kept forest.new ≡ F.kept forest.old }
    ensures sums { HoldEachSum way (length thawed.now.sizes.items) (F.shows forest.new) sums.new.items }
{
    let _ = forest.layout();
    let sizes = thawed.sizes.as_slice();
    let mut expected = next;
    for var in 0..sizes.len() {
        expected = sum_variable(
            alloc,
            forest,
            thawed,
            expected,
            action,
            var,
            way,
            down,
            &mut sums[var],
            steps,
        )?;
    }
    Ok(expected)
}
