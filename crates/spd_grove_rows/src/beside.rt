//! Eight threads that fill one table: with nodes of which half are common, and with the same nodes.
ghost use Rattle.std.specs.Prelude.{◌≡◌, ◌<◌, ◌≤◌};
ghost use Rattle.std.specs.Thread.{IsSync};
ghost use Rattle.spd_nodes.specs.Levels.{levels_of, slots};
ghost use Rattle.spd_nodes.specs.KnownTrees.{AllFitIn};

use crate::filling::fill;
use crate::meeting::make_leaves;
use spd_cons::{Cons, Seat};
use spd_nodes::{Grove, Layout};
use std::marker::Brand;
use std::sync::ledger::Blank;
use std::test::Fail;
use std::thread;
use std::thread::Threads;

/// How many nodes all threads make, and how many each makes beside.
#[derive(Clone, Copy, Debug)]
pub struct Work {
    pub common: u32,
    pub own: u32,
}

/// A seat with the sum of the common nodes' entries, where all its nodes came.
#[derive(Drop)]
pub struct FilledSeat {
    pub seat: Seat,
    pub sum: Option<u64>,
}

/// Makes the common nodes and the nodes of one thread, of eight.
fn fill_own(cons: &Cons, layout: &Layout, seat: Seat, work: Work, thread: u8) -> FilledSeat
    requires own { seat.table ≡ cons.now }
    requires fit { AllFitIn (slots layout.now) seat.mind.knows }
    requires level { 0 < levels_of (slots layout.now) }
    requires thread { thread < 8 }
    requires common { work.common ≤ 1000000 }
    requires beside { work.own ≤ 1000000 }
    ensures table { result.seat.table ≡ cons.now }
    ensures fit { AllFitIn (slots layout.now) result.seat.mind.knows }
{
    let mut grove = Grove::new(cons, seat, layout);
    let sum = fill::<_, Brand>(&mut grove, 0, work.common, Blank::new(1));
    let from = work.common + work.own * u32::from(thread);
    let own = fill::<_, Brand>(&mut grove, from, from + work.own, Blank::new(1));
    FilledSeat {
        seat: grove.seat(),
        sum: sum.filter(|_| own.is_some()),
    }
}

/// Fills a table by this thread and so many more, each through a seat that is split off this one and joined again. All came
/// where all threads' common nodes had the same entries.
fn fill_beside<R: Threads + Sync>(
    rt: &R,
    cons: &Cons,
    layout: &Layout,
    seat: Seat,
    work: Work,
    helpers: u8,
) -> FilledSeat
    requires own { seat.table ≡ cons.now }
    requires fit { AllFitIn (slots layout.now) seat.mind.knows }
    requires level { 0 < levels_of (slots layout.now) }
    requires few { helpers < 8 }
    requires splits { helpers ≤ seat.mind.splits }
    requires common { work.common ≤ 1000000 }
    requires beside { work.own ≤ 1000000 }
    ensures table { result.seat.table ≡ cons.now }
    ensures fit { AllFitIn (slots layout.now) result.seat.mind.knows }
{
    let mut seat = seat;
    if helpers == 0 {
        return fill_own(cons, layout, seat, work, 0);
    }
    let other = cons.split(&mut seat);
    let fewer = helpers - 1;
    let (mine, theirs) = thread::join(
        rt,
        || -> FilledSeat
            requires { IsSync R.row × (seat.table ≡ cons.now) × AllFitIn (slots layout.now) seat.mind.knows × (0 < levels_of (slots layout.now)) × (fewer ≤ seat.mind.splits) × (fewer < 8) × (work.common ≤ 1000000) × (work.own ≤ 1000000) }
            ensures { (result.seat.table ≡ cons.entry.now) × AllFitIn (slots layout.entry.now) result.seat.mind.knows }
        { fill_beside(rt, cons, layout, seat, work, fewer) },
        || fill_own(cons, layout, other, work, helpers),
    );
    let mut grove = Grove::new(cons, mine.seat, layout);
    grove.join(Grove::new(cons, theirs.seat, layout));
    let sum = theirs.sum;
    FilledSeat {
        seat: grove.seat(),
        sum: mine.sum.filter(|mine| sum == Some(*mine)),
    }
}

#[test]
fn eight_threads_make_a_million_nodes(rt: HostRuntime) -> Result<(), Fail> {
    let layout = Layout::new(rt.alloc(), &[2])?;
    let (cons, seat) = Cons::new(rt.alloc(), 1_000_000, 8)?;
    let work = Work {
        common: 500_000,
        own: 62_500,
    };
    let FilledSeat { seat, sum } = fill_beside(&rt, &cons, &layout, seat, work, 7);
    assert!(rt; sum.is_some());
    assert_eq!(rt; seat.published(), 1_000_000);
    let mut grove = Grove::new(&cons, seat, &layout);
    let again = fill::<_, Brand>(&mut grove, 0, work.common, Blank::new(1));
    assert_eq!(rt; again, sum);
    let seat = grove.seat();
    assert_eq!(rt; seat.published(), 1_000_000);
    assert!(rt; cons.is_whole(&seat));
    assert_eq!(rt; cons.made(seat), 1_000_000);
    Ok(())
}

/// Makes the same thousand leaves in this thread and in so many more, each through a seat that is split off this one and joined
/// again, where all came in each.
fn make_beside<R: Threads + Sync>(
    rt: &R,
    cons: &Cons,
    layout: &Layout,
    seat: Seat,
    helpers: u8,
) -> FilledSeat
    requires own { seat.table ≡ cons.now }
    requires fit { AllFitIn (slots layout.now) seat.mind.knows }
    requires few { helpers < 8 }
    requires splits { helpers ≤ seat.mind.splits }
    ensures table { result.seat.table ≡ cons.now }
    ensures fit { AllFitIn (slots layout.now) result.seat.mind.knows }
{
    let mut seat = seat;
    if helpers == 0 {
        return make_own(cons, layout, seat);
    }
    let other = cons.split(&mut seat);
    let fewer = helpers - 1;
    let (mine, theirs) = thread::join(
        rt,
        || -> FilledSeat
            requires { IsSync R.row × (seat.table ≡ cons.now) × AllFitIn (slots layout.now) seat.mind.knows × (fewer ≤ seat.mind.splits) × (fewer < 8) }
            ensures { (result.seat.table ≡ cons.entry.now) × AllFitIn (slots layout.entry.now) result.seat.mind.knows }
        { make_beside(rt, cons, layout, seat, fewer) },
        || make_own(cons, layout, other),
    );
    let mut grove = Grove::new(cons, mine.seat, layout);
    grove.join(Grove::new(cons, theirs.seat, layout));
    let sum = theirs.sum;
    FilledSeat {
        seat: grove.seat(),
        sum: mine.sum.filter(|mine| sum == Some(*mine)),
    }
}

/// Makes a thousand leaves in one thread, with the number of those that came.
fn make_own(cons: &Cons, layout: &Layout, seat: Seat) -> FilledSeat
    requires own { seat.table ≡ cons.now }
    requires fit { AllFitIn (slots layout.now) seat.mind.knows }
    ensures table { result.seat.table ≡ cons.now }
    ensures fit { AllFitIn (slots layout.now) result.seat.mind.knows }
{
    let mut grove = Grove::new(cons, seat, layout);
    let came = make_leaves::<_, Brand>(&mut grove, Blank::new(1));
    FilledSeat {
        seat: grove.seat(),
        sum: Some(u64::from(came)),
    }
}

#[test]
fn eight_threads_make_the_same_keys(rt: HostRuntime) -> Result<(), Fail> {
    let layout = Layout::new(rt.alloc(), &[2])?;
    let (cons, seat) = Cons::new(rt.alloc(), 1000, 8)?;
    let FilledSeat { seat, sum } = make_beside(&rt, &cons, &layout, seat, 7);
    assert_eq!(rt; sum, Some(1000));
    assert!(rt; cons.is_whole(&seat));
    assert_eq!(rt; cons.made(seat), 1000);
    Ok(())
}
