//! The board under threads.

ghost use Rattle.std.specs.Prelude.{◌≡◌, ◌≤◌, ◌^◌, ◌<◌, length, false, OnOk};

use spd_board::{Numbered, Reader, Writer, open_board};
use std::alloc::{AllocError, Global};
use std::sync::atomic::{AtomicBool, AtomicU64, Ordering};
use std::sync::{Arc, Wait};
use std::test::Fail;
use std::thread::{Threads, for_each_mut, join, yield_now};

/// So many items are published.
const ITEMS: u32 = 10_000;

/// An item that is its number.
#[derive(Drop)]
struct Item {
    number: u32,
}

impl Numbered for Item {
    ghost nr = { λ item. item.number };

    fn number(&self) -> u32 {
        self.number
    }
}

/// What the threads tell each other.
#[derive(Drop)]
struct Told {
    /// The writer is done.
    done: AtomicBool,
    /// How often a reader's number fell.
    falls: AtomicU64,
    /// How many readers ended at the last item.
    at_last: AtomicU64,
}

impl Told {
    fn new() -> Told {
        Told {
            done: AtomicBool::new(false),
            falls: AtomicU64::new(0),
            at_last: AtomicU64::new(0),
        }
    }
}

/// Publishes the items behind the first one.
fn publish_all<R: Wait>(rt: &R, alloc: Global, writer: &mut Writer<Item>) -> Result<(), AllocError>
    requires one { length writer.old.published ≡ 1 }
    requires open { writer.old.refused ≡ false }
    ensures { OnOk result (length writer.new.published ≡ 10000) }
{
    for number in 1..ITEMS {
        let item = Arc::new(alloc, Item { number })?;
        writer.publish(rt, item)?;
    }
    Ok(())
}

/// Publishes all items, and tells when it is done.
fn write<R: Wait>(
    rt: &R,
    alloc: Global,
    writer: &mut Writer<Item>,
    told: &Told,
) -> Result<(), AllocError>
    requires one { length writer.old.published ≡ 1 }
    requires open { writer.old.refused ≡ false }
{
    let result = publish_all(rt, alloc, writer);
    told.done.store(true, Ordering::SeqCst);
    result
}

/// Takes items until the writer is done, and then once more.
fn follow(reader: &mut Reader<Item>, told: &Told) {
    let mut seen = 0;
    for _ in 0..u64::MAX {
        let done = told.done.load(Ordering::SeqCst);
        let number = reader.latest().number();
        if number < seen {
            told.falls.fetch_add(1, Ordering::SeqCst);
        }
        seen = number;
        if done {
            break;
        }
        yield_now();
    }
    if seen == ITEMS - 1 {
        told.at_last.fetch_add(1, Ordering::SeqCst);
    }
}

/// A writer and its readers beside each other.
fn run<R: Threads + Wait + Sync>(
    rt: &R,
    alloc: Global,
    writer: &mut Writer<Item>,
    readers: &mut [Reader<Item>],
    told: &Told,
) -> Result<(), AllocError>
    requires one { length writer.old.published ≡ 1 }
    requires open { writer.old.refused ≡ false }
{
    let (published, _) = join(
        rt,
        || write(rt, alloc, writer, told),
        || for_each_mut(rt, readers, 8, &|_, reader| follow(reader, told)),
    );
    published
}

/// Ten thousand items and eight readers: no reader's numbers fall, and each one ends at the last item.
#[test]
fn eight_readers_follow(rt: HostRuntime) -> Result<(), Fail> {
    let alloc = rt.alloc();
    let first = Arc::new(alloc, Item { number: 0 })?;
    let (writer, readers) = open_board(alloc, first, 8)?;
    let mut writer = writer;
    let mut readers = readers;
    let told = Told::new();
    let published = run(&rt, alloc, &mut writer, readers.as_mut_slice(), &told);
    let newest = writer.newest().number();
    writer.close(&rt);
    published?;
    assert_eq!(rt; newest, ITEMS - 1);
    assert_eq!(rt; told.falls.load(Ordering::SeqCst), 0);
    assert_eq!(rt; told.at_last.load(Ordering::SeqCst), 8);
    Ok(())
}

/// The number that a reader answers.
fn number_of(reader: Option<&mut Reader<Item>>) -> Option<u32> {
    reader.map(|reader| reader.latest().number())
}

/// A reader answers the first item, then each item that is published, and its last one when the writer is gone.
#[test]
fn a_share_outlives_the_writer(rt: HostRuntime) -> Result<(), Fail> {
    let alloc = rt.alloc();
    let first = Arc::new(alloc, Item { number: 0 })?;
    let second = Arc::new(alloc, Item { number: 1 })?;
    let (writer, readers) = open_board(alloc, first, 2)?;
    let mut writer = writer;
    let mut readers = readers;
    let start = number_of(readers.get_mut(0));
    let one = writer.publish(&rt, second);
    let seen = number_of(readers.get_mut(0));
    let refused = writer.is_refused();
    writer.close(&rt);
    one?;
    assert!(rt; !refused);
    assert_eq!(rt; start, Some(0));
    assert_eq!(rt; seen, Some(1));
    assert_eq!(rt; number_of(readers.get_mut(0)), Some(1));
    assert_eq!(rt; number_of(readers.get_mut(1)), Some(0));
    Ok(())
}
