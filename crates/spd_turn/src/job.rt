//! The backup of one action as a job.

ghost use Rattle.std.specs.Prelude.{◌≡◌, ℕ, ◌<◌, List, ℤ, length, slice_get, true, Some};
ghost use Rattle.spd_model.specs.Process.{Process};
ghost use Rattle.spd_model.specs.declared.process.Action.{Action};
ghost use Rattle.spd_nodes.specs.Shown.{Shown, IsWhole, meaning};
ghost use Rattle.spd_restrict.specs.Primed.{TestsNoPrimed};
ghost use Rattle.spd_weigh.specs.Leaves.{HasValues};
ghost use Rattle.spd_backup.specs.Expected.{BacksUp};
ghost use Rattle.spd_backup.specs.Thawing.{IsThawed, HasAction, HasNumbers};
ghost use Rattle.spd_backup.specs.Keeping.{HoldAll};

use spd_apply::OpFault;
use spd_backup::{Bounds, Tables, Thawed, backup_with};
use spd_nodes::{Forest, Grove, Ref, Steps};
use spd_tasks::Job;
use std::alloc::Global;
use std::marker::{Brand, Model};
use std::sync::ledger::{Blank, Ledger};

/// The backup of one action, in a forest of its own over a table that all jobs share. What it must have to be run, it holds.
#[derive(Drop)]
pub struct BackupJob<'a> {
    /// For the buffers of its operations.
    pub alloc: Global,
    /// Its own forest.
    pub grove: Grove<'a>,
    /// The process's parts.
    pub thawed: &'a Thawed,
    /// The value that follows, in units of 10^-9.
    pub w: Ref,
    /// The action's number in file order.
    pub action: u32,
    /// The answers of a backup's operations.
    pub tables: Tables,
    /// The action's bounds, or why there are none. Before its run it is Memory.
    pub outcome: Result<Bounds, OpFault>,
}

impl<'a> Model for BackupJob<'a> {
    ghost use Rattle.spd_turn.specs.Jobs.{JobValue, IsReadyJob};

    ghost Value = { JobValue };

    ghost view = { λ j. record { grove = j.grove; thawed = j.thawed.now; w = j.w; action = j.action; tables = j.tables; outcome = j.outcome } };

    ghost invariant = { λ j. IsReadyJob (record { grove = j.grove; thawed = j.thawed.now; w = j.w; action = j.action; tables = j.tables; outcome = j.outcome }) };
}

/// The same as `backup_with`, where no step is counted.
fn back_up<F: Forest, L: Ledger>(
    alloc: Global,
    thawed: &Thawed,
    forest: &mut F,
    w: Ref,
    action: u32,
    tables: &mut Tables,
    blank: Blank,
) -> Result<Bounds, OpFault>
    requires name { blank.name ≡ L.name }
    requires parts { blank.parts ≡ L.parts }
    requires one { 0 < blank.parts }
    requires thawed { IsThawed (F.shows forest.old) thawed.now action }
    requires known { (F.shows forest.old).knows w ≡ true }
    requires whole { IsWhole (F.shows forest.old) w }
    requires plain { TestsNoPrimed (F.shows forest.old).sizes ((F.shows forest.old).tree w) }
    requires values { HasValues (F.shows forest.old).sizes (meaning (F.shows forest.old) w) }
    requires tables { HoldAll (length thawed.now.sizes.items) thawed.now.g (F.shows forest.old) tables.old }
    ensures made { (m : Process) (a : Action) (value : List ℕ → ℤ) → HasAction m a (F.shows forest.old) thawed.now action → HasNumbers (F.shows forest.old) w value → BacksUp m a value (F.shows forest.old) (F.shows forest.new) result }
    ensures keeps { F.kept forest.new ≡ F.kept forest.old }
    ensures tables { HoldAll (length thawed.now.sizes.items) thawed.now.g (F.shows forest.new) tables.new }
{
    let mut steps = Steps::<L>::new(blank);
    backup_with(alloc, thawed, forest, w, action, tables, &mut steps)
}

impl Job for BackupJob<'_> {
    ghost use Rattle.spd_turn.specs.Jobs.{RunsBackup, made_by};

    ghost runs = { RunsBackup };

    ghost count = { made_by };

    fn run(&mut self) {
        self.outcome = back_up::<_, Brand>(
            self.alloc,
            self.thawed,
            &mut self.grove,
            self.w,
            self.action,
            &mut self.tables,
            Blank::new(1),
        );
    }

    fn made(&self) -> usize {
        self.grove.published()
    }
}
