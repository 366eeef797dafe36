//! One table filled by several seats and threads: what is made once, and what is refused.
ghost use Rattle.std.specs.Prelude.{◌≡◌, ◌<◌, IsTrue};
ghost use Rattle.spd_cons_core.specs.Seats.{parts_known};
ghost use Rattle.spd_cons.specs.Values.{Keeps};

use spd_cons::{Cons, Full, Seat};
use spd_cons_core::{Entry, Key, Steps};
use std::alloc::Global;
use std::marker::Brand;
use std::sync::ledger::{Blank, Ledger};
use std::test::Fail;
use std::thread;
use std::thread::Threads;

/// The number of entries after a key was made by one seat and looked for by a second one, which is then joined into the
/// first, and whether both got the same entry.
fn made_by_two<L: Ledger>(alloc: Global, blank: Blank) -> Result<(bool, usize), Fail>
    requires name { blank.name ≡ L.name }
    requires parts { blank.parts ≡ L.parts }
    requires one { 0 < blank.parts }
{
    let mut steps = Steps::<L>::new(blank);
    let (cons, mut first) = Cons::new(alloc, 16, 2)?;
    let once = cons.find_or_make(&mut first, Key::Num(7), &mut steps);
    let twice = cons.find_or_make(&mut first, Key::Num(7), &mut steps);
    let mut second = cons.split(&mut first);
    let beside = cons.find_or_make(&mut second, Key::Num(7), &mut steps);
    cons.join(&mut first, second);
    let same = once.is_ok() && once == twice && once == beside;
    Ok((same, cons.made(first)))
}

#[test]
fn a_key_has_one_entry(rt: HostRuntime) -> Result<(), Fail> {
    let (same, made) = made_by_two::<Brand>(rt.alloc(), Blank::new(1))?;
    assert!(rt; same);
    assert_eq!(rt; made, 1);
    Ok(())
}

/// How many of twenty keys come in a table for 16 nodes and two seats, whether the last one was refused, whether an
/// earlier one is found then, and how many the seat has published.
fn made_until_full<L: Ledger>(
    alloc: Global,
    blank: Blank,
) -> Result<(usize, bool, bool, usize), Fail>
    requires name { blank.name ≡ L.name }
    requires parts { blank.parts ≡ L.parts }
    requires one { 0 < blank.parts }
{
    let mut steps = Steps::<L>::new(blank);
    let (cons, mut seat) = Cons::new(alloc, 16, 2)?;
    let mut came = 0;
    for n in 0..18u8 {
        let key = Key::Num(i128::from(n));
        if cons.find_or_make(&mut seat, key, &mut steps).is_ok() {
            came += 1;
        }
    }
    let refused = cons.find_or_make(&mut seat, Key::Num(18), &mut steps) == Err(Full);
    let found = cons
        .find_or_make(&mut seat, Key::Num(3), &mut steps)
        .is_ok();
    Ok((came, refused && seat.has_ended(), found, seat.published()))
}

#[test]
fn the_nineteenth_key_is_refused(rt: HostRuntime) -> Result<(), Fail> {
    let seen = made_until_full::<Brand>(rt.alloc(), Blank::new(1))?;
    assert_eq!(rt; seen, (18, true, true, 18));
    Ok(())
}

/// The key that a seat reads of the entry that it gets for a key.
fn read_back<L: Ledger>(cons: &Cons, seat: &mut Seat, key: Key, steps: &mut Steps<L>) -> Option<Key>
    requires own { seat.old.table ≡ cons.now }
    requires parts { IsTrue (parts_known seat.old.mind.knows key) }
    ensures { Keeps seat.old seat.new }
{
    match cons.find_or_make(seat, key, steps) {
        Ok(entry) => Some(cons.read(seat, entry)),
        Err(Full) => None,
    }
}

/// The keys that are read back of a key of each kind.
fn four_read_back<L: Ledger>(alloc: Global, blank: Blank) -> Result<[Option<Key>; 4], Fail>
    requires name { blank.name ≡ L.name }
    requires parts { blank.parts ≡ L.parts }
    requires one { 0 < blank.parts }
{
    let mut steps = Steps::<L>::new(blank);
    let (cons, mut seat) = Cons::new(alloc, 16, 1)?;
    let number = read_back(&cons, &mut seat, Key::Num(-7), &mut steps);
    let pair = read_back(
        &cons,
        &mut seat,
        Key::Pair(i128::MIN, i128::MAX),
        &mut steps,
    );
    let act = read_back(&cons, &mut seat, Key::Act(u32::MAX), &mut steps);
    let leaf = cons.find_or_make(&mut seat, Key::Num(-7), &mut steps);
    let test = match leaf {
        Ok(leaf) => read_back(&cons, &mut seat, test_of(leaf), &mut steps),
        Err(Full) => None,
    };
    Ok([number, pair, act, test])
}

/// A test of the last level, both of whose branches are this entry.
fn test_of(branch: Entry) -> Key
    ensures { result ≡ Key.Test 65535 branch branch }
{
    Key::Test {
        level: u16::MAX,
        yes: branch,
        no: branch,
    }
}

#[test]
fn keys_are_read_back(rt: HostRuntime) -> Result<(), Fail> {
    let seen = four_read_back::<Brand>(rt.alloc(), Blank::new(1))?;
    assert_eq!(rt; seen[0], Some(Key::Num(-7)));
    assert_eq!(rt; seen[1], Some(Key::Pair(i128::MIN, i128::MAX)));
    assert_eq!(rt; seen[2], Some(Key::Act(u32::MAX)));
    assert_eq!(rt; seen[3], Some(test_of(Entry(0))));
    Ok(())
}

/// Makes the leaves 0 to 999, beginning with this one.
fn make_thousand<L: Ledger>(cons: &Cons, mut seat: Seat, from: u16, blank: Blank) -> Seat
    requires own { seat.table ≡ cons.now }
    requires name { blank.name ≡ L.name }
    requires parts { blank.parts ≡ L.parts }
    requires one { 0 < blank.parts }
    ensures { Keeps seat result }
{
    let mut steps = Steps::<L>::new(blank);
    for n in 0..1000u16 {
        let key = Key::Num((i128::from(from) + i128::from(n)) % 1000);
        let _ = cons.find_or_make(&mut seat, key, &mut steps);
    }
    seat
}

fn make_in_thread(cons: &Cons, seat: Seat, from: u16) -> Seat
    requires { seat.table ≡ cons.now }
    ensures { Keeps seat result }
{
    make_thousand::<Brand>(cons, seat, from, Blank::new(1))
}

#[test]
fn two_threads_make_the_same_keys(rt: HostRuntime) -> Result<(), Fail> {
    let (cons, mut first) = Cons::new(rt.alloc(), 2000, 2)?;
    let second = cons.split(&mut first);
    let (mut first, second) = thread::join(
        &rt,
        || make_in_thread(&cons, first, 0),
        || make_in_thread(&cons, second, 500),
    );
    cons.join(&mut first, second);
    assert!(rt; cons.is_whole(&first));
    assert_eq!(rt; cons.made(first), 1000);
    Ok(())
}
