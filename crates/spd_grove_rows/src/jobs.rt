//! Jobs that run beside each other, and the gate that is told of them.
ghost use Rattle.std.specs.Prelude.{◌≡◌, ◌+◌, ◌<◌};

use spd_tasks::{Gate, Job, Open, run_jobs};
use std::sync::atomic::{AtomicBool, AtomicU64, Ordering};
use std::test::Fail;
use std::thread;

/// A job that counts how often it was run.
#[derive(Drop)]
struct Counter {
    runs: u8,
}

impl Job for Counter {
    ghost runs = { λ a b. a.runs < 255 → b.runs ≡ a.runs + 1 };

    ghost count = { λ a. a.runs };

    fn run(&mut self) {
        self.runs = self.runs.saturating_add(1);
    }

    fn made(&self) -> usize {
        self.runs as usize
    }
}

/// A gate at which each of two jobs waits, for a while, until the other one has come, and which adds up what they say
/// that they made.
#[derive(Drop)]
struct Meeting {
    came: [AtomicBool; 2],
    missed: AtomicBool,
    made: AtomicU64,
}

impl Gate for Meeting {
    fn start(&self, action: usize) {
        let mine = action % 2;
        self.came[mine].store(true, Ordering::SeqCst);
        for _ in 0..100_000_000u64 {
            if self.came[1 - mine].load(Ordering::SeqCst) {
                return;
            }
            thread::yield_now();
        }
        self.missed.store(true, Ordering::SeqCst);
    }

    fn end(&self, _action: usize, made: usize) {
        self.made.fetch_add(made as u64, Ordering::SeqCst);
    }
}

#[test]
fn two_jobs_meet(rt: HostRuntime) -> Result<(), Fail> {
    let gate = Meeting {
        came: [AtomicBool::new(false), AtomicBool::new(false)],
        missed: AtomicBool::new(false),
        made: AtomicU64::new(0),
    };
    let mut jobs = [Counter { runs: 4 }, Counter { runs: 5 }];
    run_jobs(&rt, &mut jobs, 2, &gate);
    assert!(rt; !gate.missed.load(Ordering::SeqCst));
    assert_eq!(rt; gate.made.load(Ordering::SeqCst), 11);
    Ok(())
}

#[test]
fn each_of_many_jobs_is_run_once(rt: HostRuntime) -> Result<(), Fail> {
    let mut jobs = [0, 1, 2, 3, 4, 5, 6].map(|runs| Counter { runs });
    run_jobs(&rt, &mut jobs, 3, &Open);
    for (place, job) in jobs.iter().enumerate() {
        assert_eq!(rt; job.made(), place + 1);
    }
    Ok(())
}
