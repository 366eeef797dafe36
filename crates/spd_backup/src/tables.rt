//! The answers of a backup's operations, kept from action to action.

ghost use Rattle.std.specs.Prelude.{◌≡◌, ℕ, ◌<◌, length, IfOk, IfSome, IsSomeAnd, IsTrue};
ghost use Rattle.spd_nodes.specs.Shown.{Shown};
ghost use Rattle.spd_weigh.specs.declared.way.Way.{Way};
ghost use Rattle.spd_backup.specs.Keeping.{IsSumOf, HoldEachSum, HoldWay, HoldAll};

use spd_gather::Table;
use spd_memo::Memo;
use spd_nodes::Ref;
use std::alloc::{AllocError, Global};

/// A variable summed out of a diagram.
#[derive(Drop)]
pub struct LastSum {
    /// The diagram.
    pub of: Ref,
    /// The weights of the variable's values.
    pub weights: Vec<Ref>,
    /// The diagram that was made.
    pub sum: Ref,
}

/// The answers of summing out one variable.
#[derive(Drop)]
pub struct SumTables {
    /// What was summed out last. Where an action's weights of the first variables are those of the action before, nothing is made: what
    /// that one made stands here, whatever answers the table has let go.
    pub last: Option<LastSum>,
    /// The answers of the recursion.
    pub rows: Table,
}

/// The answers of one way of rounding.
#[derive(Drop)]
pub struct WayTables {
    /// Those of summing out, for each variable.
    pub sums: Vec<SumTables>,
    /// Those of discounting.
    pub discounts: Table,
}

/// The answers of a backup's operations. Whoever backs up several actions hands them from one to the next.
#[derive(Drop)]
pub struct Tables {
    /// The value that was primed last, and its primed diagram.
    pub next: Option<(Ref, Ref)>,
    /// The answers of rounding down.
    pub down: WayTables,
    /// The answers of rounding up.
    pub up: WayTables,
    /// The answers of adding a reward.
    pub adds: Memo,
}

/// Whether two lists are the same.
fn is_same(a: &[Ref], b: &[Ref]) -> bool
    ensures { IsTrue result → a.now ≡ b.now }
{
    if a.len() != b.len() {
        return false;
    }
    for i in 0..a.len() {
        if a[i] != b[i] {
            return false;
        }
    }
    true
}

/// What was summed out last, if it is this diagram by these weights.
pub fn last_sum(last: &Option<LastSum>, of: Ref, weights: &[Ref]) -> Option<Ref>
    ensures { IfSome result (λ sum. IsSomeAnd last.now (IsSumOf of weights.now sum)) }
{
    match last {
        Some(made) if made.of == of && is_same(&made.weights, weights) => Some(made.sum),
        _ => None,
    }
}

/// What was summed out now. Where there is no memory nothing is kept.
pub fn kept_sum(alloc: Global, of: Ref, weights: &[Ref], sum: Ref) -> Option<LastSum>
    ensures { IfSome result (IsSumOf of weights.now sum) }
{
    let mut kept = Vec::new(alloc);
    match kept.extend_from_slice(weights) {
        Ok(()) => Some(LastSum {
            of,
            weights: kept,
            sum,
        }),
        Err(_) => None,
    }
}

/// Tables for each variable, with at most so many places each.
fn sum_tables(alloc: Global, sizes: &[u8], memo_size: usize) -> Result<Vec<SumTables>, AllocError>
    ensures { IfOk result (λ v. (way : Way) (s : Shown) → HoldEachSum way (length sizes.now) s v.items) }
{
    let mut sums = Vec::with_capacity(alloc, sizes.len())?;
    for size in sizes {
        sums.push(SumTables {
            last: None,
            rows: Table::new(alloc, 2 * *size as usize, memo_size),
        })?;
    }
    Ok(sums)
}

impl WayTables {
    /// Tables with no answer yet.
    fn new(alloc: Global, sizes: &[u8], memo_size: usize) -> Result<WayTables, AllocError>
        ensures { IfOk result (λ t. (way : Way) (discount : ℕ) (s : Shown) → HoldWay way (length sizes.now) discount s t) }
    {
        let sums = sum_tables(alloc, sizes, memo_size)?;
        let discounts = Table::new(alloc, 1, memo_size);
        Ok(WayTables { sums, discounts })
    }
}

impl Tables {
    /// Tables with no answer yet, for variables with these numbers of values. Each table keeps at most `memo_size` answers, and takes
    /// memory as it fills. It fails only for want of memory.
    pub fn new(alloc: Global, sizes: &[u8], memo_size: usize) -> Result<Tables, AllocError>
        requires { 0 < memo_size }
        ensures { IfOk result (λ t. (discount : ℕ) (s : Shown) → HoldAll (length sizes.now) discount s t) }
    {
        let down = WayTables::new(alloc, sizes, memo_size)?;
        let up = WayTables::new(alloc, sizes, memo_size)?;
        let adds = Memo::new(alloc, memo_size)?;
        Ok(Tables {
            next: None,
            down,
            up,
            adds,
        })
    }
}
