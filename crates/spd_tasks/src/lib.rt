//! Jobs that run beside each other on threads, and the gate that is told of them.
//!
//! `spd_tasks` runs jobs beside each other in std's threads (`run_jobs`): each job is afterwards as after one run. A `Gate` is
//! told when a job begins and ends.
#![tactic(auto)]

ghost use Rattle.std.specs.Prelude.{◌≡◌, ℕ, ◌<◌, length, slice_index_or};

use std::thread;
use std::thread::Threads;

/// A piece of work. What it must have to be run, it holds.
pub trait Job: Send {
    // What a run may make of a job.
    ghost runs: { Self → Self → Type 0 };
    // The number that a job shows as made.
    ghost count: { Self → ℕ };

    /// Does the work.
    fn run(&mut self)
        ensures { runs self.old self.new };

    /// How much it has made: for a job that fills a table of nodes, how many it has published there.
    fn made(&self) -> usize
        ensures { result ≡ count self.now };
}

/// What is told of the jobs, each by its place. It has no part in what they make, and both calls return.
pub trait Gate: Sync {
    /// A job is about to run.
    fn start(&self, action: usize);

    /// A job was run, and has made so many.
    fn end(&self, _action: usize, _made: usize) {}
}

/// A gate that does nothing.
pub struct Open;

impl Gate for Open {
    fn start(&self, _action: usize) {}
}

/// Runs one job, and tells the gate.
fn run_one<J: Job, G: Gate>(gate: &G, place: usize, job: &mut J)
    ensures { J.runs job.old job.new }
{
    gate.start(place);
    job.run();
    gate.end(place, job.made());
}

/// Runs each job once, by at most so many threads: where there are as many workers as jobs, each has a
/// thread of its own, as far as threads can be made.
pub fn run_jobs<J: Job, G: Gate, R: Threads + Sync>(
    rt: &R,
    jobs: &mut [J],
    workers: usize,
    gate: &G,
)
    requires { 0 < workers }
    ensures length { length jobs.new ≡ length jobs.old }
    ensures ran { (i : ℕ) (d : J) → i < length jobs.old → J.runs (slice_index_or jobs.old i d) (slice_index_or jobs.new i d) }
{
    thread::for_each_mut(rt, jobs, workers, &|i, job| run_one(gate, i, job));
}
