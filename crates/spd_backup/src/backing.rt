//! The bounds of an action's return.

ghost use Rattle.std.specs.Prelude.{◌≡◌, ℕ, ◌<◌, List, ℤ, length, map, slice_get, true, Some, IfSome};
ghost use Rattle.spd_model.specs.Process.{Process};
ghost use Rattle.spd_model.specs.declared.process.Action.{Action};
ghost use Rattle.spd_nodes.specs.Shown.{Shown, IsWhole, IsSound, MakesDiagram, meaning};
ghost use Rattle.spd_restrict.specs.Primed.{primed, TestsNoPrimed};
ghost use Rattle.spd_weigh.specs.Leaves.{HasValues};
ghost use Rattle.spd_backup.specs.Expected.{BacksUp};
ghost use Rattle.spd_backup.specs.Thawing.{IsThawed, HasAction, HasNumbers};
ghost use Rattle.spd_backup.specs.Keeping.{HoldAll, IsPrimed};
ghost use Rattle.spd_backup.specs.Making.{IsFollowed, Follows, MakesBound, MakesExpected};

use crate::exact::discount_once;
use crate::expecting::expect;
use crate::tables::Tables;
use crate::thawed::Thawed;
use spd_apply::{Add, OpFault, apply};
use spd_nodes::{Forest, Ref, Steps};
use spd_restrict::prime;
use spd_weigh::Way;
use std::alloc::Global;
use std::sync::ledger::Ledger;

/// The bounds of an action's return at each state, in units of 10^-9.
#[derive(Clone, Copy, Debug, PartialEq, Eq)]
pub struct Bounds {
    /// The lower one, all of whose roundings are down.
    pub lo: Ref,
    /// The upper one, all of whose roundings are up.
    pub hi: Ref,
}

/// The primed diagram of the value that was primed last, if it is this one.
fn primed_last(last: &Option<(Ref, Ref)>, f: Ref) -> Option<Ref>
    ensures { IfSome result (λ r. last.now ≡ Some (f, r)) }
{
    match *last {
        Some((of, primed)) if of == f => Some(primed),
        _ => None,
    }
}

/// A diagram with each plain name primed, which isn't made again where it was primed last.
fn primed_of<F: Forest, L: Ledger>(
    alloc: Global,
    forest: &mut F,
    f: Ref,
    last: &mut Option<(Ref, Ref)>,
    steps: &mut Steps<L>,
) -> Result<Ref, OpFault>
    requires known { (F.shows forest.old).knows f ≡ true }
    requires whole { IsWhole (F.shows forest.old) f }
    requires plain { TestsNoPrimed (F.shows forest.old).sizes ((F.shows forest.old).tree f) }
    requires last { IfSome last.old (λ p. IsPrimed (F.shows forest.old) p.0 p.1) }
    ensures made { MakesDiagram (F.shows forest.old) (F.shows forest.new) (primed (meaning (F.shows forest.old) f)) result }
    ensures keeps { F.kept forest.new ≡ F.kept forest.old }
    ensures last { IfSome last.new (λ p. IsPrimed (F.shows forest.new) p.0 p.1) }
{
    let _ = forest.layout();
    if let Some(primed) = primed_last(last, f) {
        return Ok(primed);
    }
    let primed = prime(alloc, forest, f, steps)?;
    *last = Some((f, primed));
    Ok(primed)
}

/// The expectation of a primed value after an action, rounded one way, with the tables of that way.
fn expected_of<F: Forest, L: Ledger>(
    alloc: Global,
    forest: &mut F,
    thawed: &Thawed,
    next: Ref,
    action: u32,
    way: Way,
    tables: &mut Tables,
    steps: &mut Steps<L>,
) -> Result<Ref, OpFault>
    requires followed { IsFollowed (F.shows forest.old) thawed.now action next }
    requires tables { HoldAll (length thawed.now.sizes.items) thawed.now.g (F.shows forest.old) tables.old }
    ensures made { (m : Process) (a : Action) (w : List ℕ → ℤ) → Follows m a w (F.shows forest.old) thawed.now action next → MakesExpected way m a w (F.shows forest.old) (F.shows forest.new) result }
    ensures keeps { F.kept forest.new ≡ F.kept forest.old }
    ensures tables { HoldAll (length thawed.now.sizes.items) thawed.now.g (F.shows forest.new) tables.new }
{
    match way {
        Way::Down => expect(
            alloc,
            forest,
            thawed,
            next,
            action,
            Way::Down,
            &[],
            &mut tables.down.sums,
            steps,
        ),
        Way::Up => expect(
            alloc,
            forest,
            thawed,
            next,
            action,
            Way::Up,
            tables.down.sums.as_slice(),
            &mut tables.up.sums,
            steps,
        ),
    }
}

/// One bound of an action's return: the discounted expectation, added to the reward.
fn bound_of<F: Forest, L: Ledger>(
    alloc: Global,
    forest: &mut F,
    thawed: &Thawed,
    next: Ref,
    action: u32,
    way: Way,
    tables: &mut Tables,
    steps: &mut Steps<L>,
) -> Result<Ref, OpFault>
    requires followed { IsFollowed (F.shows forest.old) thawed.now action next }
    requires tables { HoldAll (length thawed.now.sizes.items) thawed.now.g (F.shows forest.old) tables.old }
    ensures made { (m : Process) (a : Action) (w : List ℕ → ℤ) → Follows m a w (F.shows forest.old) thawed.now action next → MakesBound way m a w (F.shows forest.old) (F.shows forest.new) result }
    ensures keeps { F.kept forest.new ≡ F.kept forest.old }
    ensures tables { HoldAll (length thawed.now.sizes.items) thawed.now.g (F.shows forest.new) tables.new }
{
    let _ = forest.layout();
    let expected = expected_of(alloc, forest, thawed, next, action, way, tables, steps)?;
    let later = discount_once(
        alloc,
        forest,
        expected,
        thawed.g,
        way,
        &mut tables.down.discounts,
        &mut tables.up.discounts,
        steps,
    )?;
    let reward = thawed.rewards[action as usize];
    apply(forest, &Add, reward, later, &mut tables.adds, steps)
}

/// The same as `backup` with tables that the caller keeps, which hold answers of a backup's operations alone, for this many variables
/// and this discount: before, and afterwards too, also where the call fails. With the tables of the actions before, what an action has in
/// common with them is found and not made again.
pub fn backup_with<F: Forest, L: Ledger>(
    alloc: Global,
    thawed: &Thawed,
    forest: &mut F,
    w: Ref,
    action: u32,
    tables: &mut Tables,
    steps: &mut Steps<L>,
) -> Result<Bounds, OpFault>
    requires thawed { IsThawed (F.shows forest.old) thawed.now action }
    requires known { (F.shows forest.old).knows w ≡ true }
    requires whole { IsWhole (F.shows forest.old) w }
    requires plain { TestsNoPrimed (F.shows forest.old).sizes ((F.shows forest.old).tree w) }
    requires values { HasValues (F.shows forest.old).sizes (meaning (F.shows forest.old) w) }
    requires tables { HoldAll (length thawed.now.sizes.items) thawed.now.g (F.shows forest.old) tables.old }

    ensures made { (m : Process) (a : Action) (value : List ℕ → ℤ) → HasAction m a (F.shows forest.old) thawed.now action → HasNumbers (F.shows forest.old) w value → BacksUp m a value (F.shows forest.old) (F.shows forest.new) result }
    ensures keeps { F.kept forest.new ≡ F.kept forest.old }
    ensures tables { HoldAll (length thawed.now.sizes.items) thawed.now.g (F.shows forest.new) tables.new }
{
    let _ = forest.layout();
    let next = primed_of(alloc, forest, w, &mut tables.next, steps)?;
    let lo = bound_of(
        alloc,
        forest,
        thawed,
        next,
        action,
        Way::Down,
        tables,
        steps,
    )?;
    let hi = bound_of(alloc, forest, thawed, next, action, Way::Up, tables, steps)?;
    Ok(Bounds { lo, hi })
}

/// The bounds of an action's return where the value `w` follows, in units of 10^-9: its reward plus the discounted expectation of `w`,
/// with all roundings down and with all up (SPUDD, UAI 1999). The variables are summed out in file order.
///
/// `w` has numbers of at most (10^18 + 1) * 10^6 in magnitude and tests no primed level. After Ok the forest also knows a whole Ref for
/// each expectation on the way, both ways. It makes only nodes of the backup's functions. Full comes only where a call of the forest
/// answered Full in this call. Each of its tables keeps at most `memo_size` answers.
pub fn backup<F: Forest, L: Ledger>(
    alloc: Global,
    thawed: &Thawed,
    forest: &mut F,
    w: Ref,
    action: u32,
    memo_size: usize,
    steps: &mut Steps<L>,
) -> Result<Bounds, OpFault>
    requires thawed { IsThawed (F.shows forest.old) thawed.now action }
    requires known { (F.shows forest.old).knows w ≡ true }
    requires whole { IsWhole (F.shows forest.old) w }
    requires plain { TestsNoPrimed (F.shows forest.old).sizes ((F.shows forest.old).tree w) }
    requires values { HasValues (F.shows forest.old).sizes (meaning (F.shows forest.old) w) }
    requires memo_size { 0 < memo_size }

    ensures made { (m : Process) (a : Action) (value : List ℕ → ℤ) → HasAction m a (F.shows forest.old) thawed.now action → HasNumbers (F.shows forest.old) w value → BacksUp m a value (F.shows forest.old) (F.shows forest.new) result }
    ensures keeps { F.kept forest.new ≡ F.kept forest.old }
{
    let _ = forest.layout();
    match Tables::new(alloc, thawed.sizes.as_slice(), memo_size) {
        Ok(mut tables) => backup_with(alloc, thawed, forest, w, action, &mut tables, steps),
        Err(_) => Err(OpFault::Memory),
    }
}
