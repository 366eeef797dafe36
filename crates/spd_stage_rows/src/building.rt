//! Building: the lists of nodes of some models' parts, and the fault of some others.
ghost use Rattle.std.specs.Prelude.{◌≡◌, ◌<◌};

use crate::parts::{ARC, COFFEE, MIX};
use crate::prepared::{MEMO_SIZE, model_of};
use crate::values::table_of;
use crate::wanted::{Parts, Want};
use spd_build::{BuildFault, Built, build, layout_of};
use spd_frozen::{Frozen, Mixed, MixedNode, Node};
use spd_model::Model;
use spd_nodes::{Alone, Leaf, Steps};
use std::alloc::Global;
use std::marker::Brand;
use std::sync::ledger::{Blank, Ledger};
use std::test::Fail;

/// The first probabilities that don't sum to one are those of the only variable.
const THIRDS: &str = "(variables (die one two three))
action mix
die (die' (one (0.3333)) (two (0.3333)) (three (0.3333)))
endaction
reward (die (one (1)) (two (0)) (three (0)))
discount 0.5
tolerance 0.1";

/// A sum that depends on a later variable's next value, and isn't one at its second value.
const HALF: &str = "(variables (x yes no) (y yes no))
action go
x (y' (yes (x' (yes (1)) (no (0)))) (no (x' (yes (0)) (no (0.5)))))
y (y (yes (y' (yes (1)) (no (0)))) (no (y' (yes (0)) (no (1)))))
endaction
reward (x (yes (1)) (no (0)))
discount 0.5
tolerance 0.1";

/// The second action's second variable at the last state, and a reward past its limit at the first one.
const LATE: &str = "(variables (x yes no) (y yes no))
action go
x (x' (yes (1)) (no (0)))
y (y' (yes (1)) (no (0)))
endaction
action stop
x (x' (yes (1)) (no (0)))
y (x (yes (y' (yes (1)) (no (0)))) (no (y (yes (y' (yes (1)) (no (0)))) (no (y' (yes (0.25)) (no (0.25)))))))
endaction
reward (1000000001)
discount 0.5
tolerance 0.1";

/// A reward just above its limit.
const RICH: &str = "(variables (x yes no))
action stay
x (x (yes (x' (yes (1)) (no (0)))) (no (x' (yes (0)) (no (1)))))
endaction
reward [+ (1000000000) (0.000000001)]
discount 0.5
tolerance 0.1";

/// A reward below its limit by the second action's cost, at the second state; the first action's is at its limit there.
const POOR: &str = "(variables (x yes no))
action stay
x (x' (yes (1)) (no (0)))
endaction
action pay
x (x' (yes (1)) (no (0)))
cost (x (yes (0)) (no (0.000000001)))
endaction
reward (x (yes (1000000000)) (no (-1000000000)))
discount 0.5
tolerance 0.1";

/// What the model's file is built into, over a forest of so many entries.
fn built_alone<L: Ledger>(
    alloc: Global,
    model: &Model,
    limit: u32,
    blank: Blank,
) -> Result<Built, BuildFault>
    requires name { blank.name ≡ L.name }
    requires parts { blank.parts ≡ L.parts }
    requires one { 0 < blank.parts }
{
    let mut steps = Steps::<L>::new(blank);
    let mut forest = Alone::new(alloc, layout_of(alloc, model)?, limit)?;
    build(alloc, model, &mut forest, MEMO_SIZE, &mut steps)
}

/// Whether a node is what is wanted.
fn is_node(node: &Node, want: &Want) -> bool {
    match (node, want) {
        (Node::Leaf(Leaf::Num(x)), Want::Leaf(y)) => x == y,
        (Node::Branch { var, kids }, Want::Now(v, k)) => var == v && kids.as_slice() == *k,
        _ => false,
    }
}

/// The same over present and next values.
fn is_mixed_node(node: &MixedNode, want: &Want) -> bool {
    match (node, want) {
        (MixedNode::Leaf(Leaf::Num(x)), Want::Leaf(y)) => x == y,
        (MixedNode::Branch { var, primed, kids }, Want::Now(v, k)) => {
            !*primed && var == v && kids.as_slice() == *k
        }
        (MixedNode::Branch { var, primed, kids }, Want::Next(v, k)) => {
            *primed && var == v && kids.as_slice() == *k
        }
        _ => false,
    }
}

/// Whether a list has exactly the nodes that are wanted, in order.
fn is_list(nodes: &[Node], want: &[Want]) -> bool {
    nodes.len() == want.len() && nodes.iter().zip(want).all(|(n, w)| is_node(n, w))
}

/// The same over present and next values.
fn is_mixed_list(list: &Mixed, want: &[Want]) -> bool {
    let nodes = list.nodes();
    nodes.len() == want.len() && nodes.iter().zip(want).all(|(n, w)| is_mixed_node(n, w))
}

/// Fails where the weights are not the lists that are wanted, in order.
fn check_weights(lists: &[Mixed], wants: &[&[Want]]) -> Result<(), Fail> {
    if lists.len() != wants.len() {
        return Err(Fail::new(format_args!("{} weights", lists.len())));
    }
    for (at, (list, want)) in lists.iter().zip(wants).enumerate() {
        if !is_mixed_list(list, want) {
            return Err(Fail::new(format_args!("weight {at}: {list:?}")));
        }
    }
    Ok(())
}

/// The same of the rewards.
fn check_rewards(lists: &[Frozen], wants: &[&[Want]]) -> Result<(), Fail> {
    if lists.len() != wants.len() {
        return Err(Fail::new(format_args!("{} rewards", lists.len())));
    }
    for (at, (list, want)) in lists.iter().zip(wants).enumerate() {
        if !is_list(list.nodes(), want) {
            return Err(Fail::new(format_args!("reward {at}: {list:?}")));
        }
    }
    Ok(())
}

/// Fails where the value at the start, the sizes or the discount are others than are wanted, or where the value is not the reduced diagram
/// of its table.
fn check_start(alloc: Global, model: &Model, built: &Built, parts: &Parts) -> Result<(), Fail> {
    if !is_list(built.start.nodes(), parts.start) {
        return Err(Fail::new(format_args!("start: {:?}", built.start)));
    }
    if built.sizes.as_slice() != parts.sizes || built.g != parts.discount {
        return Err(Fail::new("sizes or discount"));
    }
    let table = table_of(alloc, model, parts.start)?;
    if built.start.nodes() != table.nodes() {
        return Err(Fail::new("start is not its table's diagram"));
    }
    Ok(())
}

/// Fails where a model is built into other parts than are wanted.
fn check_parts<L: Ledger>(alloc: Global, parts: &Parts, blank: Blank) -> Result<(), Fail>
    requires name { blank.name ≡ L.name }
    requires parts { blank.parts ≡ L.parts }
    requires one { 0 < blank.parts }
{
    let model = model_of(alloc, parts.file)?;
    let Ok(built) = built_alone::<L>(alloc, &model, 10_000, blank) else {
        return Err(Fail::new("not built"));
    };
    check_weights(&built.weights, parts.weights)?;
    check_rewards(&built.rewards, parts.rewards)?;
    check_start(alloc, &model, &built, parts)
}

#[test]
fn parts_are_those_of_the_definitions(rt: HostRuntime) -> Result<(), Fail> {
    for parts in [MIX, ARC, COFFEE] {
        check_parts::<Brand>(rt.alloc(), &parts, Blank::new(1))?;
    }
    Ok(())
}

/// A fault that is told.
#[derive(Clone, Copy, PartialEq, Eq, Debug)]
enum Told {
    Sum(u32, u32, [u8; 2], i128),
    Range(u32, [u8; 2], i128),
    Full,
    Memory,
}

/// The first two values of a state, and 9 where there is none.
fn two_of(values: &[u8]) -> [u8; 2] {
    [
        values.first().copied().unwrap_or(9),
        values.get(1).copied().unwrap_or(9),
    ]
}

/// What a fault tells.
fn seen_in(fault: &BuildFault) -> Told {
    match fault {
        BuildFault::Sum {
            action,
            var,
            state,
            sum,
        } => Told::Sum(*action, *var, two_of(state.values()), *sum),
        BuildFault::Range {
            action,
            state,
            value,
        } => Told::Range(*action, two_of(state.values()), *value),
        BuildFault::Full => Told::Full,
        BuildFault::Memory => Told::Memory,
    }
}

#[test]
fn the_first_fault_is_told(rt: HostRuntime) -> Result<(), Fail> {
    for (file, want) in [
        (THIRDS, Told::Sum(0, 0, [0, 9], 999_900_000_000)),
        (HALF, Told::Sum(0, 0, [0, 0], 500_000_000_000)),
        (LATE, Told::Sum(1, 1, [1, 1], 500_000_000_000)),
        (RICH, Told::Range(0, [0, 9], 1_000_000_000_000_000_001)),
        (POOR, Told::Range(1, [1, 9], -1_000_000_000_000_000_001)),
    ] {
        let alloc = rt.alloc();
        let model = model_of(alloc, file)?;
        match built_alone::<Brand>(alloc, &model, 10_000, Blank::new(1)) {
            Ok(_) => return Err(Fail::new(format_args!("built: {want:?}"))),
            Err(fault) => assert_eq!(rt; seen_in(&fault), want),
        }
    }
    Ok(())
}
