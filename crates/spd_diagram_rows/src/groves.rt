//! Each operation over the table of cases, in forests over a table that threads share: in one grove, and in one that two
//! threads filled beside each other, each through a seat of its own, before the seats were joined.
ghost use Rattle.std.specs.Prelude.{◌≡◌, ◌<◌};
ghost use Rattle.spd_nodes.specs.Levels.{levels_of, slots};
ghost use Rattle.spd_nodes.specs.Shown.{Grows};
ghost use Rattle.spd_nodes.specs.KnownTrees.{AllFitIn};

use crate::cases::all;
use crate::tables::SIZES;
use spd_cons::{Cons, Seat};
use spd_nodes::{Forest, Grove, Layout, Leaf, Level, Steps, StoreFault};
use std::alloc::Global;
use std::marker::Brand;
use std::sync::ledger::{Blank, Ledger};
use std::test::Fail;
use std::thread;

/// All operations in one forest.
fn all_in<F: Forest, L: Ledger>(alloc: Global, forest: &mut F, blank: Blank) -> Result<(), Fail>
    requires name { blank.name ≡ L.name }
    requires parts { blank.parts ≡ L.parts }
    requires one { 0 < blank.parts }
{
    let mut steps = Steps::<L>::new(blank);
    all(alloc, forest, &mut steps)
}

#[test]
fn a_grove_gives_the_same_tables(rt: HostRuntime) -> Result<(), Fail> {
    let layout = Layout::new(rt.alloc(), &SIZES)?;
    let (cons, seat) = Cons::new(rt.alloc(), 10_000, 1)?;
    let mut grove = Grove::new(&cons, seat, &layout);
    all_in::<_, Brand>(rt.alloc(), &mut grove, Blank::new(1))?;
    Ok(())
}

/// The test of the first level over two of seven leaves, some of which the operations' tables have.
fn node<F: Forest, L: Ledger>(
    forest: &mut F,
    yes: u8,
    no: u8,
    steps: &mut Steps<L>,
) -> Result<(), StoreFault>
    requires { 0 < levels_of (slots (F.shows forest.old).sizes) }
    ensures grows { Grows (F.shows forest.old) (F.shows forest.new) }
    ensures keeps { F.kept forest.new ≡ F.kept forest.old }
{
    let yes = forest.leaf(Leaf::Num(i128::from(yes) - 3), steps)?;
    let no = forest.leaf(Leaf::Num(i128::from(no) - 3), steps)?;
    forest.test(Level(0), yes, no, steps)?;
    Ok(())
}

/// Such tests over all pairs of leaves.
fn nodes<F: Forest, L: Ledger>(forest: &mut F, blank: Blank) -> Result<(), StoreFault>
    requires level { 0 < levels_of (slots (F.shows forest.old).sizes) }
    requires name { blank.name ≡ L.name }
    requires parts { blank.parts ≡ L.parts }
    requires one { 0 < blank.parts }
    ensures grows { Grows (F.shows forest.old) (F.shows forest.new) }
    ensures keeps { F.kept forest.new ≡ F.kept forest.old }
{
    let mut steps = Steps::<L>::new(blank);
    for pair in 0..49u8 {
        node(forest, pair / 7, pair % 7, &mut steps)?;
    }
    Ok(())
}

/// A seat through which such tests were made.
fn filled(cons: &Cons, layout: &Layout, seat: Seat) -> Seat
    requires own { seat.table ≡ cons.now }
    requires fit { AllFitIn (slots layout.now) seat.mind.knows }
    requires level { 0 < levels_of (slots layout.now) }
    ensures table { result.table ≡ cons.now }
    ensures fit { AllFitIn (slots layout.now) result.mind.knows }
{
    let mut grove = Grove::new(cons, seat, layout);
    let _ = nodes::<_, Brand>(&mut grove, Blank::new(1));
    grove.seat()
}

#[test]
fn a_joined_grove_gives_the_same_tables(rt: HostRuntime) -> Result<(), Fail> {
    let layout = Layout::new(rt.alloc(), &SIZES)?;
    let (cons, mut seat) = Cons::new(rt.alloc(), 10_000, 2)?;
    let other = cons.split(&mut seat);
    let (seat, other) = thread::join(
        &rt,
        || filled(&cons, &layout, seat),
        || filled(&cons, &layout, other),
    );
    let mut grove = Grove::new(&cons, seat, &layout);
    grove.join(Grove::new(&cons, other, &layout));
    // Seven leaves, and a test for each ordered pair of two different ones.
    assert_eq!(rt; grove.published(), 49);
    all_in::<_, Brand>(rt.alloc(), &mut grove, Blank::new(1))?;
    Ok(())
}
