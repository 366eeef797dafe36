//! Stages in forests with less and less room.
ghost use Rattle.std.specs.Prelude.{◌≡◌, ◌<◌, IfOk, true};
ghost use Rattle.spd_model.specs.States.{sizes};
ghost use Rattle.spd_frozen.specs.Fits.{FitsSizes};
ghost use Rattle.spd_nodes.specs.Shown.{Shown, Grows};

use crate::expected::{MIX, MIX_NODES};
use crate::prepared::{backed_up, model_of, prepared};
use crate::values::{number_in, table_of};
use spd_build::layout_of;
use spd_frozen::{Frozen, thaw};
use spd_model::Model;
use spd_nodes::{Alone, Forest, Leaf, Ref, Steps, StoreFault};
use std::alloc::Global;
use std::marker::Brand;
use std::sync::ledger::{Blank, Ledger};
use std::test::Fail;

/// Whether a model is built, and its first action backed up, where the forest has the room. Any other fault is told.
fn stages<F: Forest, L: Ledger>(
    alloc: Global,
    model: &Model,
    forest: &mut F,
    value: &Frozen,
    steps: &mut Steps<L>,
) -> Result<bool, Fail>
    requires layout { (F.shows forest.old).sizes ≡ sizes model.now }
    requires value { FitsSizes (sizes model.now) value.now }
    ensures { Grows (F.shows forest.old) (F.shows forest.new) }
{
    let Some(thawed) = prepared(alloc, model, forest, steps)? else {
        return Ok(false);
    };
    let w = match thaw(alloc, forest, value, steps) {
        Ok(w) => w,
        Err(StoreFault::Full) => return Ok(false),
        Err(StoreFault::Memory) => return Err(Fail::new("no memory")),
    };
    let bounds = backed_up(alloc, model, forest, &thawed, w, 0, steps)?;
    Ok(bounds.is_some())
}

/// Whether the stages are done where a leaf is known before. Fails where it isn't known as before afterwards.
fn stages_after<F: Forest, L: Ledger>(
    alloc: Global,
    model: &Model,
    forest: &mut F,
    leaf: Ref,
    value: &Frozen,
    steps: &mut Steps<L>,
) -> Result<bool, Fail>
    requires layout { (F.shows forest.old).sizes ≡ sizes model.now }
    requires known { (F.shows forest.old).knows leaf ≡ true }
    requires value { FitsSizes (sizes model.now) value.now }
{
    let done = stages(alloc, model, forest, value, steps)?;
    if number_in(forest, leaf, &[], &[], 1) != Some(12_345) {
        return Err(Fail::new("a known leaf has changed"));
    }
    Ok(done)
}

/// Fails where a new leaf doesn't find the forest full.
fn check_full<F: Forest, L: Ledger>(forest: &mut F, steps: &mut Steps<L>) -> Result<(), Fail> {
    if forest.leaf(Leaf::Num(54_321), steps) != Err(StoreFault::Full) {
        return Err(Fail::new("the forest isn't full"));
    }
    Ok(())
}

/// Whether the stages are done behind a leaf. Fails where the leaf isn't known as before, or where the stages end before the forest is full.
fn stages_in<F: Forest, L: Ledger>(
    alloc: Global,
    model: &Model,
    forest: &mut F,
    value: &Frozen,
    steps: &mut Steps<L>,
) -> Result<bool, Fail>
    requires layout { (F.shows forest.old).sizes ≡ sizes model.now }
    requires value { FitsSizes (sizes model.now) value.now }
{
    let leaf = forest.leaf(Leaf::Num(12_345), steps)?;
    let done = stages_after(alloc, model, forest, leaf, value, steps)?;
    if !done {
        check_full(forest, steps)?;
    }
    Ok(done)
}

/// Whether a forest of so many entries has room for the stages of a model, and a value.
fn has_room_for<L: Ledger>(
    alloc: Global,
    model: &Model,
    value: &Frozen,
    limit: u32,
    steps: &mut Steps<L>,
) -> Result<bool, Fail>
    requires { FitsSizes (sizes model.now) value.now }
{
    let mut forest = Alone::new(alloc, layout_of(alloc, model)?, limit)?;
    stages_in(alloc, model, &mut forest, value, steps)
}

/// Whether a forest of so many entries has room for the stages of the model of one variable.
fn has_room<L: Ledger>(alloc: Global, limit: u32, blank: Blank) -> Result<bool, Fail>
    requires name { blank.name ≡ L.name }
    requires parts { blank.parts ≡ L.parts }
    requires one { 0 < blank.parts }
{
    let mut steps = Steps::<L>::new(blank);
    let Some(case) = MIX.first() else {
        return Err(Fail::new("no case"));
    };
    let model = model_of(alloc, case.file)?;
    let value = table_of(alloc, &model, case.value)?;
    has_room_for(alloc, &model, &value, limit, &mut steps)
}

#[test]
fn full_comes_until_there_is_room(rt: HostRuntime) -> Result<(), Fail> {
    let mut enough = None;
    // One entry more is the leaf that is known before.
    for limit in 1..MIX_NODES + 2 {
        let room = has_room::<Brand>(rt.alloc(), limit, Blank::new(1))?;
        if enough.is_none() && room {
            enough = Some(limit);
        }
        assert_eq!(rt; room, enough.is_some(), "at {limit}");
    }
    assert!(rt; enough.is_some());
    Ok(())
}
