//! Two actions that are backed up beside each other.
use crate::command::{Outside, run_with};
use crate::files::KEEP_OR_HOLD;
use crate::texts::KEEP_OR_HOLD_RESULT;
use spd_frozen::Iterate;
use spd_model::Model;
use spd_solver::Watch;
use spd_tasks::Gate;
use std::sync::atomic::{AtomicBool, AtomicU64, Ordering};
use std::test::Fail;
use std::thread;

/// A gate at which each of two actions waits, for a while, until the other one has come. It adds up what the first two of them that end have
/// made: those of turn 0.
#[derive(Drop)]
struct Meeting {
    came: [AtomicBool; 2],
    missed: AtomicBool,
    ended: AtomicU64,
    made: AtomicU64,
}

impl Gate for Meeting {
    fn start(&self, action: usize) {
        let mine = action % 2;
        self.came[mine].store(true, Ordering::SeqCst);
        for _ in 0..100_000_000u64 {
            if self.came[1 - mine].load(Ordering::SeqCst) {
                return;
            }
            thread::yield_now();
        }
        self.missed.store(true, Ordering::SeqCst);
    }

    fn end(&self, _action: usize, made: usize) {
        if self.ended.fetch_add(1, Ordering::SeqCst) < 2 {
            self.made.fetch_add(made as u64, Ordering::SeqCst);
        }
    }
}

impl Watch for Meeting {
    fn turned(&self, _model: &Model, _iterate: &Iterate, _nodes: usize) {}
}

/// Both actions of turn 0 are there at once, and fill one table. The value is there before; the value at the next state is one test more, and the
/// discount and the bound have a leaf and a test each.
#[test]
fn two_actions_meet(rt: HostRuntime) -> Result<(), Fail> {
    let gate = Meeting {
        came: [AtomicBool::new(false), AtomicBool::new(false)],
        missed: AtomicBool::new(false),
        ended: AtomicU64::new(0),
        made: AtomicU64::new(0),
    };
    let words = ["solve", "m", "--workers", "2"];
    let answer = run_with(
        &rt,
        &gate,
        &words,
        Outside::calm(KEEP_OR_HOLD.as_bytes(), 4096),
    )?;
    assert_eq!(rt; answer.number, 0);
    assert_eq!(rt; answer.output.as_slice(), KEEP_OR_HOLD_RESULT.as_bytes());
    assert!(rt; !gate.missed.load(Ordering::SeqCst));
    assert_eq!(rt; gate.made.load(Ordering::SeqCst), 5);
    Ok(())
}
