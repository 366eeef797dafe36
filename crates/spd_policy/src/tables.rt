//! The answers of choosing the best.

ghost use Rattle.spd_nodes.specs.Shown.{Shown};
ghost use Rattle.spd_policy.specs.Choosing.{HoldBest};

use spd_gather::Table;
use std::alloc::Global;

/// The answers of choosing the best. Whoever chooses several times hands them from call to call.
#[derive(Drop)]
pub struct BestTables {
    /// The greatest of some bounds, lower or upper ones.
    pub greatest: Table,
    /// The places of the first greatest ones; its lists have the greatest too.
    pub places: Table,
}

impl BestTables {
    /// Tables with no answer yet, for so many actions. Each keeps at most `memo_size` answers, and takes memory as it fills.
    pub fn new(alloc: Global, actions: usize, memo_size: usize) -> BestTables
        ensures { (s : Shown) → HoldBest s result }
    {
        BestTables {
            greatest: Table::new(alloc, actions, memo_size),
            places: Table::new(alloc, actions.saturating_add(1), memo_size),
        }
    }
}
