//! All actions of a turn, one wave of jobs after another.

ghost use Rattle.std.specs.Prelude.{◌≡◌, ℕ, ◌+◌, ◌-◌, ◌<◌, ◌≤◌, List, ℤ, [], All, IfOk, OnOk, OnErr, IfErr, None, length, true};
ghost use Rattle.spd_cons_core.specs.Invariants.{shares};
ghost use Rattle.spd_model.specs.Process.{Process};
ghost use Rattle.spd_nodes.specs.Grove.{shown_of, standing_of, Joins};
ghost use Rattle.spd_nodes.specs.declared.forest.StoreFault.TheVariants as F;
ghost use Rattle.spd_nodes.specs.Made.{HasMade};
ghost use Rattle.spd_nodes.specs.Shown.{Shown, IsSound, Grows};
ghost use Rattle.spd_backup.specs.Keeping.{HoldAll};
ghost use Rattle.spd_turn.specs.Jobs.{CanBackUp, IsBackupReady, HoldFor};
ghost use Rattle.spd_turn.specs.Waves.{all_backups, AreBackedUp, EachFrom, IsDealt, IsJobOf, HaveRun, Gathered, first_fault, fault_in, fault_of, with_bounds};

use crate::job::BackupJob;
use spd_apply::OpFault;
use spd_backup::{Bounds, Tables, Thawed};
use spd_nodes::{Forest, Grove, Ref};
use spd_tasks::{Gate, run_jobs};
use std::alloc::{AllocError, Global};
use std::thread::Threads;

/// The gate of a wave, whose first job is the action `first`.
#[derive(Drop)]
struct Shifted<'a, G> {
    gate: &'a G,
    first: usize,
}

impl<'a, G: Gate> Gate for Shifted<'a, G> {
    fn start(&self, action: usize) {
        self.gate.start(self.first.saturating_add(action));
    }

    fn end(&self, action: usize, made: usize) {
        self.gate.end(self.first.saturating_add(action), made);
    }
}

/// Takes a job's seat over, and gives back its tables and its outcome.
fn join_job<'a>(grove: &mut Grove<'a>, job: BackupJob<'a>) -> (Tables, Result<Bounds, OpFault>)
    requires table { job.grove.seat.table ≡ grove.old.seat.table }
    requires sizes { job.grove.sizes ≡ grove.old.sizes }
    ensures joins { Joins grove.old job.entry.grove grove.new }
    ensures sound { IsSound (shown_of grove.new) }
    ensures sizes { grove.new.sizes ≡ grove.old.sizes }
    ensures tables { result.0 ≡ job.entry.tables }
    ensures outcome { result.1 ≡ job.entry.outcome }
    ensures hold { HoldFor job.entry.thawed (shown_of job.entry.grove) job.entry.tables }
{
    let BackupJob {
        alloc: _,
        grove: own,
        thawed: _,
        w: _,
        action: _,
        tables,
        outcome,
    } = job;
    grove.join(own);
    (tables, outcome)
}

/// The first fault, and one more outcome's bounds.
fn noted(
    fault: Option<OpFault>,
    outcome: Result<Bounds, OpFault>,
    bounds: &mut Vec<Bounds>,
) -> Option<OpFault>
    requires room { length bounds.old.items < bounds.old.cap }
    ensures fault { result ≡ first_fault fault outcome }
    ensures bounds { bounds.new.items ≡ with_bounds bounds.old.items outcome }
    ensures room { bounds.new.cap ≡ bounds.old.cap }
{
    let next = match outcome {
        Ok(b) => {
            bounds.push_reserved(b);
            None
        }
        Err(e) => Some(e),
    };
    fault.or(next)
}

/// Tables with no answer yet, for so many lanes.
fn make_lanes(
    alloc: Global,
    sizes: &[u8],
    count: usize,
    memo_size: usize,
) -> Result<Vec<Tables>, AllocError>
    requires { 0 < memo_size }
    ensures count { IfOk result (λ v. length v.items ≡ count) }
    ensures hold { IfOk result (λ v. (discount : ℕ) (s : Shown) → All (HoldAll (length sizes.now) discount s) v.items) }
{
    let mut lanes = Vec::with_capacity(alloc, count)?;
    for _ in 0..count {
        lanes.push(Tables::new(alloc, sizes, memo_size)?)?;
    }
    Ok(lanes)
}

/// The job of an action, with a seat that is split off.
fn job_of<'a>(
    alloc: Global,
    grove: &mut Grove<'a>,
    thawed: &'a Thawed,
    w: Ref,
    action: usize,
    tables: Tables,
) -> BackupJob<'a>
    requires ready { IsBackupReady (shown_of grove.old) thawed.now w }
    requires action { action < length thawed.now.rewards.items }
    requires splits { 0 < grove.old.seat.mind.splits }
    requires tables { HoldFor thawed.now (shown_of grove.old) tables }
    ensures shows { shown_of grove.new ≡ shown_of grove.old }
    ensures sizes { grove.new.sizes ≡ grove.old.sizes }
    ensures standing { standing_of grove.new ≡ record (standing_of grove.old) { splits = grove.old.seat.mind.splits - 1 } }
    ensures dealt { IsDealt grove.old.seat.table (shown_of grove.old) thawed.now w action result }
{
    let own = grove.split();
    BackupJob {
        alloc,
        grove: own,
        thawed,
        w,
        action: action as u32,
        tables,
        outcome: Err(OpFault::Memory),
    }
}

/// A job for each lane, of the actions from `first` on, each with a seat of its own.
fn deal<'a>(
    alloc: Global,
    grove: &mut Grove<'a>,
    thawed: &'a Thawed,
    w: Ref,
    first: usize,
    lanes: Vec<Tables>,
) -> Result<Vec<BackupJob<'a>>, AllocError>
    requires ready { IsBackupReady (shown_of grove.old) thawed.now w }
    requires actions { first + length lanes.items ≤ length thawed.now.rewards.items }
    requires splits { length lanes.items ≤ grove.old.seat.mind.splits }
    requires tables { All (HoldFor thawed.now (shown_of grove.old)) lanes.items }
    ensures shows { shown_of grove.new ≡ shown_of grove.old }
    ensures sizes { grove.new.sizes ≡ grove.old.sizes }
    ensures ok { OnOk result (standing_of grove.new ≡ record (standing_of grove.old) { splits = grove.old.seat.mind.splits - length lanes.items }) }
    ensures err { OnErr result (standing_of grove.new ≡ standing_of grove.old) }
    ensures count { IfOk result (λ v. length v.items ≡ length lanes.items) }
    ensures dealt { IfOk result (λ v. EachFrom (IsDealt grove.old.seat.table (shown_of grove.old) thawed.now w) first v.items) }
{
    let mut jobs = Vec::with_capacity(alloc, lanes.len())?;
    let mut action = first;
    for tables in lanes {
        jobs.push_reserved(job_of(alloc, grove, thawed, w, action, tables));
        action += 1;
    }
    Ok(jobs)
}

/// Joins the seats of a wave in file order, also after a fault. It adds the bounds, and gives the tables back for the next wave. It
/// tells the fault of the first action that has one.
fn gather<'a>(
    grove: &mut Grove<'a>,
    jobs: Vec<BackupJob<'a>>,
    lanes: &mut Vec<Tables>,
    bounds: &mut Vec<Bounds>,
) -> Result<(), OpFault>
    requires jobs { All (IsJobOf grove.old.seat.table grove.old.sizes) jobs.items }
    requires lanes_room { length lanes.old.items + length jobs.items ≤ lanes.old.cap }
    requires bounds_room { length bounds.old.items + length jobs.items ≤ bounds.old.cap }
    ensures gathered { Gathered grove.old lanes.old.items bounds.old.items jobs.entry.items grove.new lanes.new.items bounds.new.items (fault_in result) }
    ensures room { bounds.new.cap ≡ bounds.old.cap }
{
    let mut fault = None;
    for job in jobs {
        let (tables, outcome) = join_job(grove, job);
        lanes.push_reserved(tables);
        fault = noted(fault, outcome, bounds);
    }
    match fault {
        None => Ok(()),
        Some(e) => Err(e),
    }
}

/// Backs up the actions from `first` on, one for each lane, beside each other. It adds their bounds and gives the tables back.
fn back_up_wave<'a, G: Gate, R: Threads + Sync>(
    rt: &R,
    alloc: Global,
    gate: &G,
    grove: &mut Grove<'a>,
    thawed: &'a Thawed,
    w: Ref,
    first: usize,
    lanes: Vec<Tables>,
    bounds: &mut Vec<Bounds>,
) -> Result<Vec<Tables>, OpFault>
    requires ready { IsBackupReady (shown_of grove.old) thawed.now w }
    requires some { 0 < length lanes.items }
    requires actions { first + length lanes.items ≤ length thawed.now.rewards.items }
    requires splits { length lanes.items ≤ grove.old.seat.mind.splits }
    requires tables { All (HoldFor thawed.now (shown_of grove.old)) lanes.items }
    requires room { length bounds.old.items + length lanes.items ≤ bounds.old.cap }
    ensures sizes { grove.new.sizes ≡ grove.old.sizes }
    ensures table { grove.new.seat.table ≡ grove.old.seat.table }
    ensures shares { shares grove.new.seat.mind ≡ shares grove.old.seat.mind }
    ensures splits { OnOk result (grove.new.seat.mind.splits + length lanes.items ≡ grove.old.seat.mind.splits) }
    ensures grows { Grows (shown_of grove.old) (shown_of grove.new) }
    ensures count { IfOk result (λ v. length v.items ≡ length lanes.items) }
    ensures tables { IfOk result (λ v. All (HoldFor thawed.now (shown_of grove.new)) v.items) }
    ensures bounds { length bounds.new.items ≤ length bounds.old.items + length lanes.items }
    ensures room { bounds.new.cap ≡ bounds.old.cap }
    ensures have { (m : Process) (value : List ℕ → ℤ) (start : Shown) → CanBackUp m value (shown_of grove.old) thawed.now w → HaveRun m value start first (shown_of grove.old) bounds.old.items None → HaveRun m value start (first + length lanes.items) (shown_of grove.new) bounds.new.items (fault_in result) }
{
    let count = lanes.len();
    let mut next = match Vec::with_capacity(alloc, count) {
        Ok(next) => next,
        Err(_) => return Err(OpFault::Memory),
    };
    let mut jobs = match deal(alloc, grove, thawed, w, first, lanes) {
        Ok(jobs) => jobs,
        Err(_) => return Err(OpFault::Memory),
    };
    run_jobs(rt, jobs.as_mut_slice(), count, &Shifted { gate, first });
    gather(grove, jobs, &mut next, bounds)?;
    Ok(next)
}

/// The bounds of all actions where the value `w` follows, in file order. Actions go in waves of as many jobs as there are workers, each
/// with a seat of its own, which are joined in file order after their wave, also after a fault. A lane's tables of answers, each of at
/// most `memo_size`, go on to the next wave. The gate is told of each action by its number, and of how many entries the action's own
/// seat has published. With one worker all runs in the caller.
///
/// The seat can be split once for each action. Afterwards, whatever is answered, it is joined with all that were split off: it stands for
/// as many seats, together with those that it may still be split into. After a wave with a fault none follows, so the fault of the first
/// action in file order is told. Full comes only where the joined seat is full, and Memory may come at any time.
pub fn backup_actions<'a, G: Gate, R: Threads + Sync>(
    rt: &R,
    alloc: Global,
    gate: &G,
    grove: &mut Grove<'a>,
    thawed: &'a Thawed,
    w: Ref,
    workers: usize,
    memo_size: usize,
) -> Result<Vec<Bounds>, OpFault>
    requires ready { IsBackupReady (shown_of grove.old) thawed.now w }
    requires workers { 0 < workers }
    requires memo_size { 0 < memo_size }
    requires splits { length thawed.now.rewards.items ≤ grove.old.seat.mind.splits }
    ensures sizes { grove.new.sizes ≡ grove.old.sizes }
    ensures table { grove.new.seat.table ≡ grove.old.seat.table }
    ensures shares { shares grove.new.seat.mind ≡ shares grove.old.seat.mind }
    ensures splits { OnOk result (grove.new.seat.mind.splits + length thawed.now.rewards.items ≡ grove.old.seat.mind.splits) }
    // Whatever is answered, the forest is sound, shows all that it showed, and published nodes of the backups' functions alone.
    ensures made { (m : Process) (value : List ℕ → ℤ) → CanBackUp m value (shown_of grove.old) thawed.now w → HasMade (shown_of grove.old) (shown_of grove.new) (all_backups m value) }
    ensures ok { IfOk result (λ v. (m : Process) (value : List ℕ → ℤ) → CanBackUp m value (shown_of grove.old) thawed.now w → AreBackedUp m value (shown_of grove.new) v.items m.actions) }
    ensures full { IfErr result (λ e. e ≡ F.Full → (shown_of grove.new).full ≡ true) }
{
    let _ = grove.layout();
    let actions = thawed.rewards.len();
    let mut bounds = match Vec::with_capacity(alloc, actions) {
        Ok(bounds) => bounds,
        Err(_) => return Err(OpFault::Memory),
    };
    let mut lanes = match make_lanes(alloc, &thawed.sizes, workers.min(actions), memo_size) {
        Ok(lanes) => lanes,
        Err(_) => return Err(OpFault::Memory),
    };
    let mut first = 0;
    while first < actions {
        lanes.truncate(actions - first);
        let count = lanes.len();
        lanes = back_up_wave(rt, alloc, gate, grove, thawed, w, first, lanes, &mut bounds)?;
        first += count;
    }
    Ok(bounds)
}
