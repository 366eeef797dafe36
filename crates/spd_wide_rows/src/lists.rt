//! Lists of nodes of the chain of all tests, and of the widest model's reward.
ghost use Rattle.std.specs.Prelude.{◌≡◌, ◌<◌, IfOk, IfSome, true};
ghost use Rattle.spd_frozen.specs.Fits.{FitsSizes};
ghost use Rattle.spd_nodes.specs.Levels.{slots};
ghost use Rattle.spd_nodes.specs.Limits.{IsLayout};
ghost use Rattle.spd_nodes.specs.Shown.{Shown};

use crate::chain::{CHAIN_NODES, chain, check_chain};
use crate::room::{check_room, mark};
use crate::shape::sizes;
use spd_frozen::{Mixed, freeze_mixed, thaw_mixed};
use spd_nodes::{Alone, Forest, Layout, Ref, Steps, StoreFault, is_whole};
use std::alloc::Global;
use std::marker::Brand;
use std::sync::ledger::{Blank, Ledger};
use std::test::Fail;

/// How many nodes the chain's list has: a branch for the next and for the present value of each of 100 variables, and 513 leaves.
const LISTED: usize = 200 + 513;

/// The list of a diagram's nodes.
fn list_of<F: Forest>(alloc: Global, forest: &mut F, r: Ref) -> Result<Mixed, Fail>
    requires { (F.shows forest.old).knows r ≡ true }
    ensures same { F.shows forest.new ≡ F.shows forest.old }
    ensures fits { IfOk result (λ list. FitsSizes (slots (F.shows forest.old).sizes) list) }
{
    if !is_whole(forest, r) {
        return Err(Fail::new("the diagram isn't whole"));
    }
    Ok(freeze_mixed(alloc, forest, r)?)
}

/// The list of the chain of all tests, in a forest that has room.
fn chain_list<F: Forest, L: Ledger>(
    alloc: Global,
    forest: &mut F,
    steps: &mut Steps<L>,
) -> Result<Mixed, Fail>
    ensures { IfOk result (λ list. FitsSizes (slots (F.shows forest.old).sizes) list) }
{
    let f = chain(forest, steps)?;
    list_of(alloc, forest, f)
}

/// The diagram of a list, and None where the forest was full.
fn thawed<F: Forest, L: Ledger>(
    alloc: Global,
    forest: &mut F,
    list: &Mixed,
    steps: &mut Steps<L>,
) -> Result<Option<Ref>, Fail>
    requires { FitsSizes (slots (F.shows forest.old).sizes) list.now }
    ensures { IfOk result (λ o. IfSome o (λ r. (F.shows forest.new).knows r ≡ true)) }
{
    match thaw_mixed(alloc, forest, list, steps) {
        Ok(r) => Ok(Some(r)),
        Err(StoreFault::Full) => Ok(None),
        Err(StoreFault::Memory) => Err(Fail::new("no memory")),
    }
}

/// Fails where the diagram of the chain's list is another one than the chain, or is written as another list.
fn check_thawed<F: Forest>(alloc: Global, forest: &mut F, r: Ref, list: &Mixed) -> Result<(), Fail>
    requires { (F.shows forest.old).knows r ≡ true }
{
    check_chain(forest, r, 1)?;
    let again = list_of(alloc, forest, r)?;
    if again.nodes() != list.nodes() {
        return Err(Fail::new("another list"));
    }
    Ok(())
}

/// Whether the chain's list is made into a diagram where the forest has the room.
fn thaws_in<F: Forest, L: Ledger>(
    alloc: Global,
    forest: &mut F,
    list: &Mixed,
    steps: &mut Steps<L>,
) -> Result<bool, Fail>
    requires { FitsSizes (slots (F.shows forest.old).sizes) list.now }
{
    let mark = mark(forest, steps)?;
    let made = thawed(alloc, forest, list, steps)?;
    if let Some(r) = made {
        check_thawed(alloc, forest, r, list)?;
    }
    check_room(forest, mark, made.is_some(), steps)?;
    Ok(made.is_some())
}

/// The list of the chain of all tests, where the variables have these numbers of values.
fn widest_list<L: Ledger>(alloc: Global, sizes: &[u8], blank: Blank) -> Result<Mixed, Fail>
    requires layout { IsLayout sizes.now }
    requires name { blank.name ≡ L.name }
    requires parts { blank.parts ≡ L.parts }
    requires one { 0 < blank.parts }
    ensures { IfOk result (λ list. FitsSizes (slots sizes.now) list) }
{
    let mut steps = Steps::<L>::new(blank);
    let mut forest = Alone::new(alloc, Layout::new(alloc, sizes)?, CHAIN_NODES)?;
    chain_list(alloc, &mut forest, &mut steps)
}

/// Whether the chain's list is made into a diagram in a forest with room for so many nodes beside a known leaf.
fn thaws_with<L: Ledger>(
    alloc: Global,
    sizes: &[u8],
    list: &Mixed,
    room: u32,
    blank: Blank,
) -> Result<bool, Fail>
    requires layout { IsLayout sizes.now }
    requires list { FitsSizes (slots sizes.now) list.now }
    requires name { blank.name ≡ L.name }
    requires parts { blank.parts ≡ L.parts }
    requires one { 0 < blank.parts }
{
    let mut steps = Steps::<L>::new(blank);
    let limit = room.saturating_add(1);
    let mut forest = Alone::new(alloc, Layout::new(alloc, sizes)?, limit)?;
    thaws_in(alloc, &mut forest, list, &mut steps)
}

/// Fails where the chain's list is made into a diagram in less room than its nodes take, or not in that.
fn check_rooms(alloc: Global, sizes: &[u8], list: &Mixed) -> Result<(), Fail>
    requires layout { IsLayout sizes.now }
    requires list { FitsSizes (slots sizes.now) list.now }
{
    for room in 0..CHAIN_NODES + 1 {
        let made = thaws_with::<Brand>(alloc, sizes, list, room, Blank::new(1))?;
        if made != (room == CHAIN_NODES) {
            return Err(Fail::new(format_args!("made in {room}: {made}")));
        }
    }
    Ok(())
}

#[test]
fn each_step_of_thawing_may_be_refused(rt: HostRuntime) -> Result<(), Fail> {
    let sizes = sizes();
    if !Layout::fits(&sizes) {
        return Err(Fail::new("no layout"));
    }
    let list = widest_list::<Brand>(rt.alloc(), &sizes, Blank::new(1))?;
    assert_eq!(rt; list.nodes().len(), LISTED);
    check_rooms(rt.alloc(), &sizes, &list)
}
