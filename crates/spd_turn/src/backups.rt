//! The backups of all actions, one after another.

ghost use Rattle.std.specs.Prelude.{◌≡◌, ℕ, List, ℤ, length, OnOk, IfErr, ◌∷◌, [], ◌++◌};
ghost use Rattle.spd_model.specs.Process.{Process};
ghost use Rattle.spd_nodes.specs.declared.forest.StoreFault.TheVariants as Fault;
ghost use Rattle.spd_backup.specs.Keeping.{HoldAll};
ghost use Rattle.spd_turn.specs.Jobs.{CanBackUp, IsBackupReady};
ghost use Rattle.spd_turn.specs.Backups.{BacksUpAll};

use spd_apply::OpFault;
use spd_backup::{Bounds, Tables, Thawed, backup_with};
use spd_nodes::{Forest, Ref, Steps};
use std::alloc::Global;
use std::sync::ledger::Ledger;

/// Puts an action's bounds in the last place.
fn push(all: &mut Vec<Bounds>, bounds: Bounds) -> Result<(), OpFault>
    ensures items { OnOk result (all.new.items ≡ all.old.items ++ bounds ∷ []) }
    ensures memory { IfErr result (λ e. e ≡ Fault.Memory) }
{
    match all.push(bounds) {
        Ok(()) => Ok(()),
        Err(_) => Err(OpFault::Memory),
    }
}

/// The bounds of all actions, in file order, where the value `w` follows, in units of 10^-9: each action is backed up after the one
/// before, with the same tables, so that what actions have in common is made once (SPUDD, UAI 1999). The tables hold answers of a
/// backup's operations alone, for this many variables and this discount: before, and afterwards too, also where the call fails.
///
/// `w` has numbers of at most (10^18 + 1) * 10^6 in magnitude and tests no primed level. After Ok the forest also knows a whole Ref for
/// each expectation of each action, both ways. It makes only nodes of the backups' functions. Full comes only where a call of the forest
/// answered Full in this call, and Memory where the heap gave none.
pub fn backup_all<F: Forest, L: Ledger>(
    alloc: Global,
    thawed: &Thawed,
    forest: &mut F,
    w: Ref,
    tables: &mut Tables,
    steps: &mut Steps<L>,
) -> Result<Vec<Bounds>, OpFault>
    requires ready { IsBackupReady (F.shows forest.old) thawed.now w }
    requires tables { HoldAll (length thawed.now.sizes.items) thawed.now.g (F.shows forest.old) tables.old }

    ensures made { (m : Process) (value : List ℕ → ℤ) → CanBackUp m value (F.shows forest.old) thawed.now w → BacksUpAll m value (F.shows forest.old) (F.shows forest.new) result }
    ensures keeps { F.kept forest.new ≡ F.kept forest.old }
    ensures tables { HoldAll (length thawed.now.sizes.items) thawed.now.g (F.shows forest.new) tables.new }
{
    let _ = forest.layout();
    let mut all = Vec::new(alloc);
    for action in 0..thawed.rewards.len() {
        let bounds = backup_with(alloc, thawed, forest, w, action as u32, tables, steps)?;
        push(&mut all, bounds)?;
    }
    Ok(all)
}
