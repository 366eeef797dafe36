//! Two jobs that fill one table, of which each waits until the other one has begun.
ghost use Rattle.std.specs.Prelude.{◌≡◌, ◌<◌, length, slice_index_or, true};
ghost use Rattle.spd_nodes.specs.Shown.{Shown, Grows};
ghost use Rattle.spd_nodes.specs.Grove.{shown_of, standing_of};

use spd_cons::Cons;
use spd_nodes::{Forest, Grove, Layout, Leaf, Steps};
use spd_tasks::{Gate, Job, run_jobs};
use std::marker::Brand;
use std::sync::atomic::{AtomicBool, AtomicU64, Ordering};
use std::sync::ledger::{Blank, Ledger};
use std::test::Fail;
use std::thread;

/// A job that makes a thousand leaves, the same as any other one, and counts those that came.
#[derive(Drop)]
struct Leaves<'a> {
    grove: Grove<'a>,
    came: u16,
}

/// How many of a thousand leaves come.
pub fn make_leaves<F: Forest, L: Ledger>(forest: &mut F, blank: Blank) -> u16
    requires name { blank.name ≡ L.name }
    requires parts { blank.parts ≡ L.parts }
    requires one { 0 < blank.parts }
    ensures grows { Grows (F.shows forest.old) (F.shows forest.new) }
    ensures keeps { F.kept forest.new ≡ F.kept forest.old }
{
    let mut steps = Steps::<L>::new(blank);
    let mut came = 0u16;
    for number in 0..1000u16 {
        let leaf = Leaf::Num(i128::from(number));
        came = came.saturating_add(u16::from(forest.leaf(leaf, &mut steps).is_ok()));
    }
    came
}

impl Job for Leaves<'_> {
    ghost runs = { λ a b. (standing_of b.grove ≡ standing_of a.grove) × Grows (shown_of a.grove) (shown_of b.grove) };

    ghost count = { λ a. length a.grove.seat.mind.published };

    fn run(&mut self) {
        self.came = make_leaves::<_, Brand>(&mut self.grove, Blank::new(1));
    }

    fn made(&self) -> usize {
        self.grove.published()
    }
}

/// A gate at which each of two jobs waits, for a while, until the other one has come, and which adds up what they say
/// that they made.
#[derive(Drop)]
struct Meeting {
    came: [AtomicBool; 2],
    missed: AtomicBool,
    made: AtomicU64,
}

impl Gate for Meeting {
    fn start(&self, action: usize) {
        let mine = action % 2;
        self.came[mine].store(true, Ordering::SeqCst);
        for _ in 0..100_000_000u64 {
            if self.came[1 - mine].load(Ordering::SeqCst) {
                return;
            }
            thread::yield_now();
        }
        self.missed.store(true, Ordering::SeqCst);
    }

    fn end(&self, _action: usize, made: usize) {
        self.made.fetch_add(made as u64, Ordering::SeqCst);
    }
}

#[test]
fn two_jobs_fill_one_table_at_once(rt: HostRuntime) -> Result<(), Fail> {
    let layout = Layout::new(rt.alloc(), &[2])?;
    let (cons, seat) = Cons::new(rt.alloc(), 1000, 3)?;
    let mut forest = Grove::new(&cons, seat, &layout);
    let gate = Meeting {
        came: [AtomicBool::new(false), AtomicBool::new(false)],
        missed: AtomicBool::new(false),
        made: AtomicU64::new(0),
    };
    let first = Leaves {
        grove: forest.split(),
        came: 0,
    };
    let second = Leaves {
        grove: forest.split(),
        came: 0,
    };
    let mut jobs = [first, second];
    run_jobs(&rt, &mut jobs, 2, &gate);
    assert_eq!(rt; jobs[0].came, 1000);
    assert_eq!(rt; jobs[1].came, 1000);
    assert!(rt; !gate.missed.load(Ordering::SeqCst));
    assert_eq!(rt; gate.made.load(Ordering::SeqCst), 1000);
    Ok(())
}
