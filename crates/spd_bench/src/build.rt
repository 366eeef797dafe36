//! Diagrams of known size: a sum of weights, and a parity.

ghost use Rattle.std.specs.Prelude.{◌≡◌, ℕ, ◌+◌, ◌*◌, ◌^◌, ◌<◌, IfOk};
ghost use Rattle.spd_nodes.specs.Shown.{Shown, Grows};
ghost use Rattle.spd_bench.specs.Built.{twos, IsCount, FitsTo, IsApplied};

use crate::fault::BenchError;
use spd_apply::{Add, LeafOp, apply};
use spd_memo::Memo;
use spd_nodes::{Forest, Leaf, Ref, Steps, StoreFault};
use std::alloc::Global;
use std::sync::ledger::Ledger;

/// How many variables there are, of two values each.
pub const VARIABLES: u32 = 20;

/// How many of them, from the first on, the sum has.
const SUMMED: u32 = 16;

/// How many pairs a memo keeps: more than any of the operations here meets, which is at most 655,359.
const MEMO: usize = 1_048_576;

/// The test of a variable's first plain value.
#[tactic(auto, using(crate::proofs::CountLaws::count_laws))]
fn test_first<F: Forest, L: Ledger>(
    forest: &mut F,
    var: u32,
    yes: Ref,
    no: Ref,
    steps: &mut Steps<L>,
) -> Result<Ref, StoreFault>
    requires sizes { (F.shows forest.old).sizes ≡ twos 20 }
    requires var { var < 20 }
    requires yes { IsCount (F.shows forest.old) (2 ^ 16) (var + 1) yes }
    requires no { IsCount (F.shows forest.old) (2 ^ 16) (var + 1) no }
    ensures grows { Grows (F.shows forest.old) (F.shows forest.new) }
    ensures ok { IfOk result (λ r. IsCount (F.shows forest.new) (2 ^ 16) var r) }
{
    let level = forest.layout().level(var, false, 0);
    forest.test(level, yes, no, steps)
}

/// A weight where a variable has its first value, else 0.
#[tactic(auto, using(crate::proofs::CountLaws::count_laws))]
fn weighted<F: Forest, L: Ledger>(
    forest: &mut F,
    var: u32,
    weight: u16,
    steps: &mut Steps<L>,
) -> Result<Ref, StoreFault>
    requires sizes { (F.shows forest.old).sizes ≡ twos 20 }
    requires var { var < 20 }
    ensures grows { Grows (F.shows forest.old) (F.shows forest.new) }
    ensures ok { IfOk result (λ r. IsCount (F.shows forest.new) (2 ^ 16) 0 r) }
{
    let yes = forest.leaf(Leaf::Num(weight as i128), steps)?;
    let no = forest.leaf(Leaf::Num(0), steps)?;
    test_first(forest, var, yes, no, steps)
}

/// What an operation makes of two diagrams, with a memo of its own.
#[tactic(auto, using(crate::proofs::CountLaws::count_laws))]
pub fn combined<F: Forest, O: LeafOp, L: Ledger>(
    alloc: Global,
    forest: &mut F,
    op: &O,
    f: Ref,
    g: Ref,
    steps: &mut Steps<L>,
) -> Result<Ref, BenchError>
    requires left { IsCount (F.shows forest.old) (2 ^ 20) 0 f }
    requires right { IsCount (F.shows forest.old) (2 ^ 20) 0 g }
    requires fits { FitsTo (O.fits op.now) (2 ^ 20) }
    ensures grows { Grows (F.shows forest.old) (F.shows forest.new) }
    ensures ok { IfOk result (λ r. IsApplied (O.of op.now) (F.shows forest.old) (F.shows forest.new) f g r) }
{
    let _ = forest.layout();
    let mut memo = Memo::new(alloc, MEMO)?;
    Ok(apply(forest, op, f, g, &mut memo, steps)?)
}

/// A sum with one more variable, whose weight is 2 to the variable's number.
#[tactic(auto, using(crate::proofs::CountLaws::count_laws))]
fn with_variable<F: Forest, L: Ledger>(
    alloc: Global,
    forest: &mut F,
    sum: Ref,
    var: u32,
    steps: &mut Steps<L>,
) -> Result<Ref, BenchError>
    requires sizes { (F.shows forest.old).sizes ≡ twos 20 }
    requires var { var < 16 }
    requires sum { IsCount (F.shows forest.old) (var * 2 ^ 16) 0 sum }
    ensures grows { Grows (F.shows forest.old) (F.shows forest.new) }
    ensures ok { IfOk result (λ r. IsCount (F.shows forest.new) ((var + 1) * 2 ^ 16) 0 r) }
{
    let more = weighted(forest, var, 1 << var, steps)?;
    combined(alloc, forest, &Add, sum, more, steps)
}

/// The sum over the first 16 variables of distinct weights: 2 to the variable's number where it has its first value, else 0.
#[tactic(auto, using(crate::proofs::CountLaws::count_laws))]
pub fn sum<F: Forest, L: Ledger>(
    alloc: Global,
    forest: &mut F,
    steps: &mut Steps<L>,
) -> Result<Ref, BenchError>
    requires { (F.shows forest.old).sizes ≡ twos 20 }
    ensures grows { Grows (F.shows forest.old) (F.shows forest.new) }
    ensures ok { IfOk result (λ r. IsCount (F.shows forest.new) (2 ^ 20) 0 r) }
{
    let _ = forest.layout();
    let mut sum = forest.leaf(Leaf::Num(0), steps)?;
    for var in 0..SUMMED {
        sum = with_variable(alloc, forest, sum, var, steps)?;
    }
    Ok(sum)
}

/// The parity of the numbers of all variables' values: 0 where their sum is even, 1 where it is odd. It is built from the
/// last variable up, together with its opposite.
#[tactic(auto, using(crate::proofs::CountLaws::count_laws))]
pub fn parity<F: Forest, L: Ledger>(forest: &mut F, steps: &mut Steps<L>) -> Result<Ref, StoreFault>
    requires { (F.shows forest.old).sizes ≡ twos 20 }
    ensures grows { Grows (F.shows forest.old) (F.shows forest.new) }
    ensures ok { IfOk result (λ r. IsCount (F.shows forest.new) (2 ^ 16) 0 r) }
{
    let _ = forest.layout();
    let mut parity = forest.leaf(Leaf::Num(0), steps)?;
    let mut opposite = forest.leaf(Leaf::Num(1), steps)?;
    for var in (1..VARIABLES).rev() {
        let longer = test_first(forest, var, parity, opposite, steps)?;
        opposite = test_first(forest, var, opposite, parity, steps)?;
        parity = longer;
    }
    test_first(forest, 0, parity, opposite, steps)
}
