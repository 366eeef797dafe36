//! The operations, called where a test of their conditions passes.
ghost use Rattle.std.specs.Prelude.{◌≡◌, ℕ, ◌<◌, ◌≤◌, IfOk, IsTrue, true, length, slice_index, All};
ghost use Rattle.spd_nodes.specs.Levels.{levels_of, slots};
ghost use Rattle.spd_nodes.specs.Shown.{Shown, Grows, IsWhole};

use spd_apply::{LeafMap, LeafOp, apply, fits_leaves, map_leaves, maps_leaves};
use spd_memo::Memo;
use spd_nodes::{Forest, Layout, Level, Ref, Steps, can_test, is_whole};
use spd_restrict::{choose, cofactor, is_plain, prime};
use std::alloc::Global;
use std::sync::ledger::Ledger;
use std::test::Fail;

/// The number of levels: where the last variable's tests end.
pub fn levels(layout: &Layout) -> u16
    ensures { result ≤ levels_of (slots layout.now) }
{
    let last = layout.sizes().len() - 1;
    let (_, end) = layout.tests(last as u32, false);
    end
}

/// The test of a level above two known diagrams.
pub fn test<F: Forest, L: Ledger>(
    forest: &mut F,
    level: Level,
    yes: Ref,
    no: Ref,
    steps: &mut Steps<L>,
) -> Result<Ref, Fail>
    requires yes { (F.shows forest.old).knows yes ≡ true }
    requires no { (F.shows forest.old).knows no ≡ true }
    ensures grows { Grows (F.shows forest.old) (F.shows forest.new) }
    ensures ok { IfOk result (λ r. (F.shows forest.new).knows r ≡ true) }
{
    if level.0 >= levels(forest.layout()) {
        return Err(Fail::new("no such level"));
    }
    if !can_test(forest, level, yes, no) {
        return Err(Fail::new("these can't be a test's children"));
    }
    Ok(forest.test(level, yes, no, steps)?)
}

/// An operation's answers for two known diagrams, with a memo of 16 pairs.
pub fn applied<F: Forest, O: LeafOp, L: Ledger>(
    alloc: Global,
    forest: &mut F,
    op: &O,
    f: Ref,
    g: Ref,
    steps: &mut Steps<L>,
) -> Result<Ref, Fail>
    requires left { (F.shows forest.old).knows f ≡ true }
    requires right { (F.shows forest.old).knows g ≡ true }
    ensures grows { Grows (F.shows forest.old) (F.shows forest.new) }
    ensures ok { IfOk result (λ r. (F.shows forest.new).knows r ≡ true) }
    ensures whole { IfOk result (λ r. IsWhole (F.shows forest.new) r) }
{
    if !is_whole(forest, f) {
        return Err(Fail::new("the left diagram isn't whole"));
    }
    if !is_whole(forest, g) {
        return Err(Fail::new("the right diagram isn't whole"));
    }
    if !fits_leaves(alloc, forest, op, f, g)? {
        return Err(Fail::new("two leaves don't fit"));
    }
    let mut memo = Memo::new(alloc, 16)?;
    Ok(apply(forest, op, f, g, &mut memo, steps)?)
}

/// A map's answers for a known diagram.
pub fn mapped<F: Forest, M: LeafMap, L: Ledger>(
    alloc: Global,
    forest: &mut F,
    map: &M,
    f: Ref,
    steps: &mut Steps<L>,
) -> Result<Ref, Fail>
    requires { (F.shows forest.old).knows f ≡ true }
    ensures grows { Grows (F.shows forest.old) (F.shows forest.new) }
    ensures ok { IfOk result (λ r. (F.shows forest.new).knows r ≡ true) }
{
    if !is_whole(forest, f) {
        return Err(Fail::new("the diagram isn't whole"));
    }
    if !maps_leaves(alloc, forest, map, f)? {
        return Err(Fail::new("a leaf doesn't fit"));
    }
    Ok(map_leaves(alloc, forest, map, f, steps)?)
}

/// Whether a variable has a value.
fn has_value(layout: &Layout, var: u32, value: u8) -> bool
    ensures var { IsTrue result → var < length layout.now }
    ensures value { IsTrue result → value < slice_index layout.now var }
{
    let sizes = layout.sizes();
    let var = var as usize;
    var < sizes.len() && value < sizes[var]
}

/// A known diagram with a variable, primed or plain, at a value.
pub fn fixed<F: Forest, L: Ledger>(
    alloc: Global,
    forest: &mut F,
    f: Ref,
    var: u32,
    primed: bool,
    value: u8,
    steps: &mut Steps<L>,
) -> Result<Ref, Fail>
    requires { (F.shows forest.old).knows f ≡ true }
    ensures grows { Grows (F.shows forest.old) (F.shows forest.new) }
    ensures ok { IfOk result (λ r. (F.shows forest.new).knows r ≡ true) }
{
    if !is_whole(forest, f) {
        return Err(Fail::new("the diagram isn't whole"));
    }
    if !has_value(forest.layout(), var, value) {
        return Err(Fail::new("no such value"));
    }
    Ok(cofactor(alloc, forest, f, var, primed, value, steps)?)
}

/// A known diagram with its plain names primed.
pub fn primed<F: Forest, L: Ledger>(
    alloc: Global,
    forest: &mut F,
    f: Ref,
    steps: &mut Steps<L>,
) -> Result<Ref, Fail>
    requires { (F.shows forest.old).knows f ≡ true }
    ensures grows { Grows (F.shows forest.old) (F.shows forest.new) }
    ensures ok { IfOk result (λ r. (F.shows forest.new).knows r ≡ true) }
{
    if !is_whole(forest, f) {
        return Err(Fail::new("the diagram isn't whole"));
    }
    if !is_plain(alloc, forest, f)? {
        return Err(Fail::new("the diagram tests a primed name"));
    }
    Ok(prime(alloc, forest, f, steps)?)
}

/// Whether each of some known diagrams is whole.
fn are_whole<F: Forest>(forest: &mut F, kids: &[Ref]) -> bool
    requires { All (λ k. (F.shows forest.old).knows k ≡ true) kids.now }
    ensures same { F.shows forest.new ≡ F.shows forest.old }
    ensures whole { IsTrue result → All (λ k. IsWhole (F.shows forest.old) k) kids.now }
{
    for kid in kids {
        if !is_whole(forest, *kid) {
            return false;
        }
    }
    true
}

/// Whether a variable has so many values.
fn has_size(layout: &Layout, var: u32, size: usize) -> bool
    ensures var { IsTrue result → var < length layout.now }
    ensures size { IsTrue result → size ≡ slice_index layout.now var }
{
    let sizes = layout.sizes();
    let var = var as usize;
    var < sizes.len() && size == sizes[var] as usize
}

/// The branch on a variable, primed or plain, with known diagrams as kids.
pub fn chosen<F: Forest, L: Ledger>(
    alloc: Global,
    forest: &mut F,
    var: u32,
    primed: bool,
    kids: &[Ref],
    steps: &mut Steps<L>,
) -> Result<Ref, Fail>
    requires { All (λ k. (F.shows forest.old).knows k ≡ true) kids.now }
    ensures grows { Grows (F.shows forest.old) (F.shows forest.new) }
    ensures ok { IfOk result (λ r. (F.shows forest.new).knows r ≡ true) }
{
    if !are_whole(forest, kids) {
        return Err(Fail::new("a kid isn't whole"));
    }
    if !has_size(forest.layout(), var, kids.len()) {
        return Err(Fail::new("no kid for each value"));
    }
    Ok(choose(alloc, forest, var, primed, kids, steps)?)
}
