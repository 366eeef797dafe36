//! Asking a forest for many leaves and tests.

ghost use Rattle.std.specs.Prelude.{◌≡◌, ℕ, ◌<◌, true, All, IfOk};
ghost use Rattle.spd_nodes.specs.Shown.{Shown, Grows};
ghost use Rattle.spd_bench.specs.Built.{twos, IsKnownLeaf};

use crate::fault::BenchError;
use crate::workload::Measure;
use spd_nodes::{Counting, Forest, Leaf, Level, Ref, Steps, StoreFault};
use std::alloc::Global;
use std::sync::ledger::Ledger;

/// How many leaves the workload `leaves` asks for.
const LEAVES: u32 = 1_000_000;

/// How many leaves are the children of the tests of the workload `tests`.
const CHILDREN: u32 = 1_000;

/// The last level of 20 two-valued variables, which tests the plain value of the last one.
const LAST_LEVEL: u16 = 39;

/// In which order the ordered pairs of some leaves are gone through.
#[derive(Clone, Copy)]
enum Order {
    /// The tests where one leaf is the left child come together.
    Rows,
    /// The tests where one leaf is the right child come together.
    Columns,
}

/// Asks for the leaves 0 to 999,999, and answers the greatest number of their entries.
fn ask_leaves<F: Forest, L: Ledger>(
    forest: &mut F,
    steps: &mut Steps<L>,
) -> Result<u32, StoreFault> {
    let mut greatest = 0;
    for number in 0..LEAVES {
        let leaf = forest.leaf(Leaf::Num(number as i128), steps)?;
        greatest = leaf.0.max(greatest);
    }
    Ok(greatest)
}

/// The leaves 0 to 999.
#[tactic(auto, using(crate::proofs::KnownLaws::known_laws))]
fn children<F: Forest, L: Ledger>(
    alloc: Global,
    forest: &mut F,
    steps: &mut Steps<L>,
) -> Result<Vec<Ref>, BenchError>
    ensures grows { Grows (F.shows forest.old) (F.shows forest.new) }
    ensures ok { IfOk result (λ refs. All (IsKnownLeaf (F.shows forest.new)) refs.items) }
{
    let _ = forest.layout();
    let mut refs = Vec::new(alloc);
    for number in 0..CHILDREN {
        refs.push(forest.leaf(Leaf::Num(number as i128), steps)?)?;
    }
    Ok(refs)
}

/// Asks for the test with two leaves.
fn ask_test<F: Forest, L: Ledger>(
    forest: &mut F,
    one: Ref,
    other: Ref,
    order: Order,
    steps: &mut Steps<L>,
) -> Result<Ref, StoreFault>
    requires sizes { (F.shows forest.old).sizes ≡ twos 20 }
    requires one { IsKnownLeaf (F.shows forest.old) one }
    requires other { IsKnownLeaf (F.shows forest.old) other }
    ensures grows { Grows (F.shows forest.old) (F.shows forest.new) }
{
    match order {
        Order::Rows => forest.test(Level(LAST_LEVEL), one, other, steps),
        Order::Columns => forest.test(Level(LAST_LEVEL), other, one, steps),
    }
}

/// Asks for the tests with one leaf and each other leaf, and answers the greatest number of their entries.
#[tactic(auto, using(crate::proofs::KnownLaws::known_laws))]
fn ask_line<F: Forest, L: Ledger>(
    forest: &mut F,
    leaves: &[Ref],
    one: Ref,
    order: Order,
    steps: &mut Steps<L>,
) -> Result<u32, StoreFault>
    requires sizes { (F.shows forest.old).sizes ≡ twos 20 }
    requires leaves { All (IsKnownLeaf (F.shows forest.old)) leaves.now }
    requires one { IsKnownLeaf (F.shows forest.old) one }
    ensures grows { Grows (F.shows forest.old) (F.shows forest.new) }
{
    let _ = forest.layout();
    let mut greatest = 0;
    for other in leaves {
        if *other != one {
            let test = ask_test(forest, one, *other, order, steps)?;
            greatest = test.0.max(greatest);
        }
    }
    Ok(greatest)
}

/// Asks for the tests with each two different leaves of some, and answers the greatest number of their entries.
#[tactic(auto, using(crate::proofs::KnownLaws::known_laws))]
fn ask_pairs<F: Forest, L: Ledger>(
    forest: &mut F,
    leaves: &[Ref],
    order: Order,
    steps: &mut Steps<L>,
) -> Result<u32, StoreFault>
    requires sizes { (F.shows forest.old).sizes ≡ twos 20 }
    requires leaves { All (IsKnownLeaf (F.shows forest.old)) leaves.now }
    ensures grows { Grows (F.shows forest.old) (F.shows forest.new) }
{
    let _ = forest.layout();
    let mut greatest = 0;
    for one in leaves {
        greatest = ask_line(forest, leaves, *one, order, steps)?.max(greatest);
    }
    Ok(greatest)
}

/// Asks for the leaves 0 to 999 and for the 999,000 tests of the last variable's first value whose children are two
/// different ones of them, each pair of children once, and answers the greatest number of their entries.
#[tactic(auto, using(crate::proofs::KnownLaws::known_laws))]
fn ask_tests<F: Forest, L: Ledger>(
    alloc: Global,
    forest: &mut F,
    order: Order,
    steps: &mut Steps<L>,
) -> Result<u32, BenchError>
    requires { (F.shows forest.old).sizes ≡ twos 20 }
    ensures { Grows (F.shows forest.old) (F.shows forest.new) }
{
    let leaves = children(alloc, forest, steps)?;
    Ok(ask_pairs(forest, &leaves, order, steps)?)
}

/// Asks for the leaves twice, and adds the measure of their entries.
pub fn measure_leaves<F: Forest, L: Ledger>(
    forest: &mut Counting<F>,
    measures: &mut Vec<Measure>,
    steps: &mut Steps<L>,
) -> Result<(), BenchError> {
    let _ = ask_leaves(forest, steps)?;
    let greatest = ask_leaves(forest, steps)?;
    measures.push(Measure::of_entries("leaves", greatest, forest.calls))?;
    Ok(())
}

/// Asks for the tests twice, the second time with the children in the other order, and adds the measure of their entries.
#[tactic(auto, using(crate::proofs::KnownLaws::known_laws))]
pub fn measure_tests<F: Forest, L: Ledger>(
    alloc: Global,
    forest: &mut Counting<F>,
    measures: &mut Vec<Measure>,
    steps: &mut Steps<L>,
) -> Result<(), BenchError>
    requires { (F.shows forest.old.forest).sizes ≡ twos 20 }
{
    let _ = ask_tests(alloc, forest, Order::Rows, steps)?;
    let greatest = ask_tests(alloc, forest, Order::Columns, steps)?;
    measures.push(Measure::of_entries("tests", greatest, forest.calls))?;
    Ok(())
}
