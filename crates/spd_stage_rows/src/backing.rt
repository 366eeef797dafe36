//! Backups of each action of some models: both bounds at each state, and how many nodes are made.
ghost use Rattle.std.specs.Prelude.{◌≡◌, ◌<◌, IfOk, true};
ghost use Rattle.spd_model.specs.States.{sizes};
ghost use Rattle.spd_frozen.specs.Fits.{FitsSizes};
ghost use Rattle.spd_nodes.specs.Shown.{Shown, Grows};
ghost use Rattle.spd_backup.specs.Thawing.{IsThawedOf};

use crate::expected::{ARC, COFFEE, DIE, KEEP, MIX, SIXTEEN};
use crate::prepared::{backed_up, model_of, prepared};
use crate::values::{check, table_of};
use crate::wanted::Backed;
use spd_backup::{Bounds, Thawed};
use spd_build::layout_of;
use spd_cons::Cons;
use spd_frozen::{Frozen, thaw};
use spd_model::Model;
use spd_nodes::{Alone, Counting, Forest, Grove, Leaf, Ref, Steps};
use std::alloc::Global;
use std::marker::Brand;
use std::sync::ledger::{Blank, Ledger};
use std::test::Fail;

/// A number that is no value, so that its leaf is new in a forest. For a seat or thread alone, entries are numbered in order, so that its
/// entry tells how many there are.
fn entries<F: Forest, L: Ledger>(
    forest: &mut F,
    more: u8,
    steps: &mut Steps<L>,
) -> Result<u32, Fail>
    ensures { Grows (F.shows forest.old) (F.shows forest.new) }
{
    let entry = forest.leaf(Leaf::Num(i128::MAX - i128::from(more)), steps)?;
    Ok(entry.0)
}

/// A value in a forest, and how many entries the forest has then.
fn value_in<F: Forest, L: Ledger>(
    alloc: Global,
    forest: &mut F,
    value: &Frozen,
    steps: &mut Steps<L>,
) -> Result<(Ref, u32), Fail>
    requires { FitsSizes (F.shows forest.old).sizes value.now }
    ensures grows { Grows (F.shows forest.old) (F.shows forest.new) }
    ensures known { IfOk result (λ found. (F.shows forest.new).knows found.0 ≡ true) }
{
    let w = thaw(alloc, forest, value, steps)?;
    let count = entries(forest, 0, steps)?;
    Ok((w, count))
}

/// An action's bounds, and how many entries the forest has then.
fn bounds_in<F: Forest, L: Ledger>(
    alloc: Global,
    model: &Model,
    forest: &mut F,
    thawed: &Thawed,
    w: Ref,
    action: u32,
    steps: &mut Steps<L>,
) -> Result<(Bounds, u32), Fail>
    requires thawed { IsThawedOf model.now (F.shows forest.old) thawed.now }
    requires known { (F.shows forest.old).knows w ≡ true }
    ensures lo { IfOk result (λ found. (F.shows forest.new).knows found.0.lo ≡ true) }
    ensures hi { IfOk result (λ found. (F.shows forest.new).knows found.0.hi ≡ true) }
{
    let Some(bounds) = backed_up(alloc, model, forest, thawed, w, action, steps)? else {
        return Err(Fail::new("full"));
    };
    let count = entries(forest, 1, steps)?;
    Ok((bounds, count))
}

/// Fails where one of a backup's bounds differs from what is wanted at some state.
fn check_bounds<F: Forest>(
    forest: &mut F,
    model: &Model,
    bounds: Bounds,
    case: &Backed,
) -> Result<(), Fail>
    requires lo { (F.shows forest.old).knows bounds.lo ≡ true }
    requires hi { (F.shows forest.old).knows bounds.hi ≡ true }
{
    check(forest, model, bounds.lo, case.lo, case.what)?;
    check(forest, model, bounds.hi, case.hi, case.what)
}

/// Fails where a backup makes more nodes than its functions have: the entry after it came so many after the entry before it.
fn check_nodes(before: u32, after: u32, case: &Backed) -> Result<(), Fail> {
    let made = i64::from(after) - i64::from(before) - 1;
    if made < 0 || made > i64::from(case.nodes) {
        return Err(Fail::new(format_args!("{}: {made} nodes", case.what)));
    }
    Ok(())
}

/// Fails where a backup gives other bounds than are wanted at some state, or makes more nodes than its functions have.
fn check_backup<F: Forest, L: Ledger>(
    alloc: Global,
    model: &Model,
    forest: &mut F,
    case: &Backed,
    steps: &mut Steps<L>,
) -> Result<(), Fail>
    requires { (F.shows forest.old).sizes ≡ sizes model.now }
{
    let value = table_of(alloc, model, case.value)?;
    let Some(thawed) = prepared(alloc, model, forest, steps)? else {
        return Err(Fail::new("full"));
    };
    let (w, before) = value_in(alloc, forest, &value, steps)?;
    let (bounds, after) = bounds_in(alloc, model, forest, &thawed, w, case.action, steps)?;
    check_bounds(forest, model, bounds, case)?;
    check_nodes(before, after, case)
}

/// The same in a forest for one thread.
fn check_alone<L: Ledger>(
    alloc: Global,
    model: &Model,
    case: &Backed,
    steps: &mut Steps<L>,
) -> Result<(), Fail> {
    let mut alone = Alone::new(alloc, layout_of(alloc, model)?, 10_000)?;
    check_backup(alloc, model, &mut alone, case, steps)
}

/// The same in a forest that counts.
fn check_counting<L: Ledger>(
    alloc: Global,
    model: &Model,
    case: &Backed,
    steps: &mut Steps<L>,
) -> Result<(), Fail> {
    let forest = Alone::new(alloc, layout_of(alloc, model)?, 10_000)?;
    let mut counting = Counting { forest, calls: 0 };
    check_backup(alloc, model, &mut counting, case, steps)
}

/// The same in a forest over a table that threads share.
fn check_grove<L: Ledger>(
    alloc: Global,
    model: &Model,
    case: &Backed,
    steps: &mut Steps<L>,
) -> Result<(), Fail> {
    let layout = layout_of(alloc, model)?;
    let (cons, seat) = Cons::new(alloc, 10_000, 1)?;
    let mut grove = Grove::new(&cons, seat, &layout);
    check_backup(alloc, model, &mut grove, case, steps)
}

/// The same in all three.
fn check_in_all<L: Ledger>(alloc: Global, case: &Backed, blank: Blank) -> Result<(), Fail>
    requires name { blank.name ≡ L.name }
    requires parts { blank.parts ≡ L.parts }
    requires one { 0 < blank.parts }
{
    let mut steps = Steps::<L>::new(blank);
    let model = model_of(alloc, case.file)?;
    check_alone(alloc, &model, case, &mut steps)?;
    check_counting(alloc, &model, case, &mut steps)?;
    check_grove(alloc, &model, case, &mut steps)
}

#[test]
fn bounds_are_those_of_tables(rt: HostRuntime) -> Result<(), Fail> {
    for cases in [KEEP, MIX, DIE, SIXTEEN, COFFEE, ARC] {
        for case in cases {
            check_in_all::<Brand>(rt.alloc(), case, Blank::new(1))?;
        }
    }
    Ok(())
}
