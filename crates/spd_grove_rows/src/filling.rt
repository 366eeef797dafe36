//! Nodes that are made in any forest: tests of the first level over two of a thousand leaves.
ghost use Rattle.std.specs.Prelude.{◌≡◌, ◌<◌, IfOk, true};
ghost use Rattle.spd_nodes.specs.Levels.{levels_of, slots};
ghost use Rattle.spd_nodes.specs.Shown.{Shown, IsSound, Grows};

use spd_nodes::{Forest, Leaf, Level, Ref, Steps, StoreFault};
use std::sync::ledger::{Blank, Ledger};

/// The test of level 0 that goes to one leaf where it holds and to another one where it doesn't: the leaves are the
/// thousands of a number and its rest. Of the numbers below a million, all but each 1,001st make a test of their own.
pub fn node<F: Forest, L: Ledger>(
    forest: &mut F,
    number: u32,
    steps: &mut Steps<L>,
) -> Result<Ref, StoreFault>
    requires { 0 < levels_of (slots (F.shows forest.old).sizes) }
    ensures grows { Grows (F.shows forest.old) (F.shows forest.new) }
    ensures keeps { F.kept forest.new ≡ F.kept forest.old }
    ensures ok { IfOk result (λ r. (F.shows forest.new).knows r ≡ true) }
{
    let yes = forest.leaf(Leaf::Num(i128::from(number / 1000)), steps)?;
    let no = forest.leaf(Leaf::Num(i128::from(number % 1000)), steps)?;
    forest.test(Level(0), yes, no, steps)
}

/// The sum of the entries' numbers, of the nodes from one number up to another one; none where the forest is full.
fn sum_of_nodes<F: Forest, L: Ledger>(
    forest: &mut F,
    from: u32,
    to: u32,
    steps: &mut Steps<L>,
) -> Option<u64>
    requires { 0 < levels_of (slots (F.shows forest.old).sizes) }
    ensures grows { Grows (F.shows forest.old) (F.shows forest.new) }
    ensures keeps { F.kept forest.new ≡ F.kept forest.old }
{
    let mut sum = 0u64;
    for number in from..to {
        let Ok(entry) = node(forest, number, steps) else {
            return None;
        };
        sum = sum.wrapping_add(u64::from(entry.0));
    }
    Some(sum)
}

/// The same, where no step is counted.
pub fn fill<F: Forest, L: Ledger>(forest: &mut F, from: u32, to: u32, blank: Blank) -> Option<u64>
    requires level { 0 < levels_of (slots (F.shows forest.old).sizes) }
    requires name { blank.name ≡ L.name }
    requires parts { blank.parts ≡ L.parts }
    requires one { 0 < blank.parts }
    ensures grows { Grows (F.shows forest.old) (F.shows forest.new) }
    ensures keeps { F.kept forest.new ≡ F.kept forest.old }
{
    let mut steps = Steps::<L>::new(blank);
    sum_of_nodes(forest, from, to, &mut steps)
}
