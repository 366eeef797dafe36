//! Forests with little room.
ghost use Rattle.spd_nodes.specs.Shown.{Shown, Grows};

use spd_nodes::{Forest, Leaf, Ref, Steps, StoreFault};
use std::sync::ledger::Ledger;
use std::test::Fail;

/// A leaf that is known before a call.
pub fn mark<F: Forest, L: Ledger>(forest: &mut F, steps: &mut Steps<L>) -> Result<Ref, Fail>
    ensures { Grows (F.shows forest.old) (F.shows forest.new) }
{
    Ok(forest.leaf(Leaf::Act(1), steps)?)
}

/// Fails where the leaf that was known before has another Ref, or where a call was refused that isn't done and a new leaf doesn't find
/// the forest full.
pub fn check_room<F: Forest, L: Ledger>(
    forest: &mut F,
    mark: Ref,
    done: bool,
    steps: &mut Steps<L>,
) -> Result<(), Fail> {
    if forest.leaf(Leaf::Act(1), steps) != Ok(mark) {
        return Err(Fail::new("a known leaf has another Ref"));
    }
    if !done && forest.leaf(Leaf::Act(2), steps) != Err(StoreFault::Full) {
        return Err(Fail::new("the forest isn't full"));
    }
    Ok(())
}
