//! Models that are read, built and drawn in a forest, and backups of their actions.
ghost use Rattle.std.specs.Prelude.{◌≡◌, ◌<◌, ◌≤◌, ℕ, ℤ, List, All, IfOk, IfSome, true, length};
ghost use Rattle.spd_model.specs.States.{sizes};
ghost use Rattle.spd_nodes.specs.Shown.{Shown, Grows};
ghost use Rattle.spd_backup.specs.Thawing.{IsThawedOf};
ghost use Rattle.spd_stage_rows.specs.Values.{is_value};

use spd_apply::{LeafMap, OpFault, maps_leaves};
use spd_backup::{Bounds, Thawed, backup, thaw_built};
use spd_build::{BuildFault, build};
use spd_model::Model;
use spd_nodes::{Forest, Leaf, Ref, Steps, is_whole};
use spd_reader::read_model;
use spd_restrict::is_plain;
use std::alloc::Global;
use std::sync::ledger::Ledger;
use std::test::Fail;

/// How many answers each table of an operation keeps.
pub const MEMO_SIZE: usize = 1_000;

/// The greatest magnitude of a value, in units of 10^-9.
const VALUE_LIMIT: u128 = 1_000_000_000_000_000_001_000_000;

/// Fits a leaf that is a value, and answers it.
struct IsAValue;

impl LeafMap for IsAValue {
    ghost fits = { λ _ a. is_value a };

    ghost of = { λ _ a. a };

    fn fits(&self, a: Leaf) -> bool {
        match a {
            Leaf::Num(x) => x.unsigned_abs() <= VALUE_LIMIT,
            _ => false,
        }
    }

    fn of(&self, a: Leaf) -> Leaf {
        a
    }
}

/// The model of a file.
pub fn model_of(alloc: Global, file: &str) -> Result<Model, Fail> {
    let bytes = file.as_bytes();
    if bytes.len() > 4_000_000 {
        return Err(Fail::new("too long"));
    }
    match read_model(alloc, bytes) {
        Ok(model) => Ok(model),
        Err(unread) => Err(Fail::new(format_args!("{unread:?}"))),
    }
}

/// A model's parts in a forest over its variables, ready for backing up; None where the forest was full.
pub fn prepared<F: Forest, L: Ledger>(
    alloc: Global,
    model: &Model,
    forest: &mut F,
    steps: &mut Steps<L>,
) -> Result<Option<Thawed>, Fail>
    requires layout { (F.shows forest.old).sizes ≡ sizes model.now }
    ensures grows { Grows (F.shows forest.old) (F.shows forest.new) }
    ensures thawed { IfOk result (λ o. IfSome o (IsThawedOf model.now (F.shows forest.new))) }
    ensures rewards { IfOk result (λ o. IfSome o (λ x. All (λ r. (F.shows forest.new).knows r ≡ true) x.rewards.items)) }
{
    // Reading a field tells the proof what every model keeps.
    let _vars = &model.vars;
    let built = match build(alloc, model, forest, MEMO_SIZE, steps) {
        Ok(built) => built,
        Err(BuildFault::Full) => return Ok(None),
        Err(fault) => return Err(Fail::new(format_args!("{fault:?}"))),
    };
    match thaw_built(alloc, &built, forest, steps) {
        Ok(thawed) => Ok(Some(thawed)),
        Err(OpFault::Full) => Ok(None),
        Err(OpFault::Memory) => Err(Fail::new("no memory")),
    }
}

/// The bounds of an action's return where a known value follows, where a test of the conditions passes; None where
/// the forest was full.
pub fn backed_up<F: Forest, L: Ledger>(
    alloc: Global,
    model: &Model,
    forest: &mut F,
    thawed: &Thawed,
    w: Ref,
    action: u32,
    steps: &mut Steps<L>,
) -> Result<Option<Bounds>, Fail>
    requires thawed { IsThawedOf model.now (F.shows forest.old) thawed.now }
    requires known { (F.shows forest.old).knows w ≡ true }
    ensures grows { Grows (F.shows forest.old) (F.shows forest.new) }
    ensures lo { IfOk result (λ o. IfSome o (λ b. (F.shows forest.new).knows b.lo ≡ true)) }
    ensures hi { IfOk result (λ o. IfSome o (λ b. (F.shows forest.new).knows b.hi ≡ true)) }
{
    if action as usize >= model.actions.as_slice().len() {
        return Err(Fail::new("no such action"));
    }
    if !is_whole(forest, w) || !is_plain(alloc, forest, w)? {
        return Err(Fail::new("the value is no function of the present state"));
    }
    if !maps_leaves(alloc, forest, &IsAValue, w)? {
        return Err(Fail::new("a leaf is no value"));
    }
    match backup(alloc, thawed, forest, w, action, MEMO_SIZE, steps) {
        Ok(bounds) => Ok(Some(bounds)),
        Err(OpFault::Full) => Ok(None),
        Err(OpFault::Memory) => Err(Fail::new("no memory")),
    }
}
