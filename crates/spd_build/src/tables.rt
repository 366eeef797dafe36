//! The weights of all actions and variables, with the test that their sums are one.

ghost use Rattle.std.specs.Prelude.{◌≡◌, ℕ, ◌<◌, ◌≤◌, [], ◌∷◌, ◌++◌, length, flat_map, slice_index, sum, true, None, IfOk, IfErr};
ghost use Rattle.std.specs.List.{AllZip};
ghost use Rattle.spd_model.specs.Lawful.{IsAction};
ghost use Rattle.spd_model.specs.Chances.{first_wrong_sum, sums_of};
ghost use Rattle.spd_model.specs.States.{sizes};
ghost use Rattle.spd_nodes.specs.Made.{HasMade};
ghost use Rattle.spd_nodes.specs.Shown.{Shown, IsWhole, StandsFor, MakesAmong, MakesDiagram, meaning};
ghost use Rattle.spd_restrict.specs.Restricted.{restricted};
ghost use Rattle.spd_build.specs.Building.{HoldAdds};
ghost use Rattle.spd_build.specs.Fitting.{StandForTrees};
ghost use Rattle.spd_build.specs.Functions.{all_weights, table_functions, weight_sum, weights_of};
ghost use Rattle.spd_build.specs.Tables.{MakesWeights, StandAfter, TableCause, action_functions, action_sums, action_weights, all_table_functions, is_wrong, variable_sums};

use crate::built::BuildFault;
use crate::lists::{push, with_room};
use crate::rewards::number_of;
use crate::trees::tree_of;
use spd_apply::{Add, OpFault, apply};
use spd_memo::Memo;
use spd_model::{Action, Model};
use spd_nodes::{Forest, Leaf, Ref, Steps};
use spd_restrict::cofactor;
use spd_search::{Wanted, first_found};
use std::alloc::Global;
use std::sync::ledger::Ledger;

/// One, as a probability, in units of 10^-12.
const ONE: i128 = 1_000_000_000_000;

/// Leaves that aren't one, as a sum of probabilities.
#[derive(Clone, Copy, Debug)]
struct WrongSum;

impl Wanted for WrongSum {
    ghost wants = { λ _ leaf. is_wrong leaf };

    fn is_wanted(&self, leaf: Leaf) -> bool {
        match leaf {
            Leaf::Num(sum) => sum != ONE,
            _ => true,
        }
    }
}

/// The sum of variables' numbers of values.
fn value_count(sizes: &[u8]) -> usize
    requires { length sizes.now ≤ 100 }
    ensures sum { result ≡ sum sizes.now }
    ensures few { result ≤ 25500 }
{
    let mut count = 0;
    for size in sizes {
        count += *size as usize;
    }
    count
}

/// The weight of a variable's value: its table with the variable's next value held at this one. It is put in the last place.
fn weigh_value<F: Forest, L: Ledger>(
    alloc: Global,
    forest: &mut F,
    table: Ref,
    var: usize,
    value: u8,
    weights: &mut Vec<Ref>,
    steps: &mut Steps<L>,
) -> Result<Ref, OpFault>
    requires known { (F.shows forest.old).knows table ≡ true }
    requires whole { IsWhole (F.shows forest.old) table }
    requires few { length (F.shows forest.old).sizes ≤ 100 }
    requires var { var < length (F.shows forest.old).sizes }
    requires value { value < slice_index (F.shows forest.old).sizes var }
    ensures made { MakesDiagram (F.shows forest.old) (F.shows forest.new) (restricted var true value (meaning (F.shows forest.old) table)) result }
    ensures pushed { IfOk result (λ r. weights.new.items ≡ weights.old.items ++ r ∷ []) }
    ensures keeps { F.kept forest.new ≡ F.kept forest.old }
{
    let weight = cofactor(alloc, forest, table, var as u32, true, value, steps)?;
    push(weights, weight)?;
    Ok(weight)
}

/// The weights of a variable's values after an action, which are put in the last places, and the sum of them. The weights up to each
/// value are added one after another.
fn weigh_values<F: Forest, L: Ledger>(
    alloc: Global,
    model: &Model,
    forest: &mut F,
    action: &Action,
    var: usize,
    dds: &[Ref],
    weights: &mut Vec<Ref>,
    adds: &mut Memo,
    steps: &mut Steps<L>,
) -> Result<Ref, OpFault>
    requires layout { (F.shows forest.old).sizes ≡ sizes model.now }
    requires action { IsAction model.now action.now }
    requires var { var < length model.now.vars }
    requires dds { StandForTrees (F.shows forest.old) model.now model.now.dds dds.now }
    requires adds { HoldAdds (F.shows forest.old) adds.old }
    ensures made { MakesAmong (F.shows forest.old) (F.shows forest.new) (weight_sum model.now action.now var (slice_index (sizes model.now) var)) (table_functions model.now action.now var) result }
    ensures stand { IfOk result (λ _. StandAfter (F.shows forest.old) (F.shows forest.new) weights.old.items weights.new.items (weights_of model.now action.now var)) }
    ensures adds { HoldAdds (F.shows forest.new) adds.new }
    ensures keeps { F.kept forest.new ≡ F.kept forest.old }
{
    // Reading a field tells the proof what every model keeps.
    let _vars = &model.vars;
    let size = forest.layout().sizes()[var];
    let tree = &action.tables.as_slice()[var];
    let table = tree_of(alloc, model, forest, tree, dds, steps)?;
    let mut sum = weigh_value(alloc, forest, table, var, 0, weights, steps)?;
    for value in 1..size {
        let weight = weigh_value(alloc, forest, table, var, value, weights, steps)?;
        sum = apply(forest, &Add, sum, weight, adds, steps)?;
    }
    Ok(sum)
}

/// The weights of a variable's values after an action, which are put in the last places, and the test that they sum to one at each
/// state, whatever the next values of later variables are.
fn weigh_variable<F: Forest, L: Ledger>(
    alloc: Global,
    model: &Model,
    forest: &mut F,
    number: usize,
    action: &Action,
    var: usize,
    dds: &[Ref],
    weights: &mut Vec<Ref>,
    adds: &mut Memo,
    steps: &mut Steps<L>,
) -> Result<(), BuildFault>
    requires layout { (F.shows forest.old).sizes ≡ sizes model.now }
    requires number { number < 64 }
    requires action { IsAction model.now action.now }
    requires var { var < length model.now.vars }
    requires dds { StandForTrees (F.shows forest.old) model.now model.now.dds dds.now }
    requires adds { HoldAdds (F.shows forest.old) adds.old }
    ensures made { MakesWeights (variable_sums model.now (number, action.now) var) (table_functions model.now action.now var) (weights_of model.now action.now var) (F.shows forest.old) (F.shows forest.new) weights.old.items weights.new.items result }
    ensures adds { HoldAdds (F.shows forest.new) adds.new }
    ensures keeps { F.kept forest.new ≡ F.kept forest.old }
{
    // Reading a field tells the proof what every model keeps.
    let _vars = &model.vars;
    let sum = weigh_values(alloc, model, forest, action, var, dds, weights, adds, steps)?;
    match first_found(alloc, forest, sum, &WrongSum)? {
        None => Ok(()),
        Some(found) => Err(BuildFault::Sum {
            action: number as u32,
            var: var as u32,
            sum: number_of(found.leaf),
            state: found.state,
        }),
    }
}

/// The weights of all variables' values after an action, which are put in the last places, and the test that those of each variable
/// sum to one.
fn weigh_action<F: Forest, L: Ledger>(
    alloc: Global,
    model: &Model,
    forest: &mut F,
    number: usize,
    action: &Action,
    dds: &[Ref],
    weights: &mut Vec<Ref>,
    adds: &mut Memo,
    steps: &mut Steps<L>,
) -> Result<(), BuildFault>
    requires layout { (F.shows forest.old).sizes ≡ sizes model.now }
    requires number { number < 64 }
    requires action { IsAction model.now action.now }
    requires dds { StandForTrees (F.shows forest.old) model.now model.now.dds dds.now }
    requires adds { HoldAdds (F.shows forest.old) adds.old }
    ensures made { MakesWeights (action_sums model.now (number, action.now)) (action_functions model.now action.now) (action_weights model.now action.now) (F.shows forest.old) (F.shows forest.new) weights.old.items weights.new.items result }
    ensures adds { HoldAdds (F.shows forest.new) adds.new }
    ensures keeps { F.kept forest.new ≡ F.kept forest.old }
{
    let _ = forest.layout();
    let count = model.vars.as_slice().len();
    for var in 0..count {
        weigh_variable(
            alloc, model, forest, number, action, var, dds, weights, adds, steps,
        )?;
    }
    Ok(())
}

/// The weights of all actions' variables, which are put in the last places, and the test that those of each variable sum to one.
fn weigh_actions<F: Forest, L: Ledger>(
    alloc: Global,
    model: &Model,
    forest: &mut F,
    dds: &[Ref],
    weights: &mut Vec<Ref>,
    adds: &mut Memo,
    steps: &mut Steps<L>,
) -> Result<(), BuildFault>
    requires layout { (F.shows forest.old).sizes ≡ sizes model.now }
    requires dds { StandForTrees (F.shows forest.old) model.now model.now.dds dds.now }
    requires adds { HoldAdds (F.shows forest.old) adds.old }
    ensures made { MakesWeights (sums_of model.now) (all_table_functions model.now) (all_weights model.now) (F.shows forest.old) (F.shows forest.new) weights.old.items weights.new.items result }
    ensures adds { HoldAdds (F.shows forest.new) adds.new }
    ensures keeps { F.kept forest.new ≡ F.kept forest.old }
{
    let _ = forest.layout();
    let actions = model.actions.as_slice();
    for number in 0..actions.len() {
        let action = &actions[number];
        weigh_action(
            alloc, model, forest, number, action, dds, weights, adds, steps,
        )?;
    }
    Ok(())
}

/// The weights of all actions' variables, in units of 10^-12: by action, then variable, then the variable's next value. `dds` has the
/// diagrams of all of the model's decision diagrams, and the memo holds sums.
///
/// Sum comes exactly where some probabilities don't sum to one, and tells the first sum that isn't one. It makes only nodes of the
/// functions of the actions' tables. Full comes only where a call of the forest answered Full in this call, and Memory for want of
/// memory. Calls nest at most as deep as those of `tree_of`.
pub(crate) fn all_weights<F: Forest, L: Ledger>(
    alloc: Global,
    model: &Model,
    forest: &mut F,
    dds: &[Ref],
    adds: &mut Memo,
    steps: &mut Steps<L>,
) -> Result<Vec<Ref>, BuildFault>
    requires layout { (F.shows forest.old).sizes ≡ sizes model.now }
    requires dds { StandForTrees (F.shows forest.old) model.now model.now.dds dds.now }
    requires adds { HoldAdds (F.shows forest.old) adds.old }
    ensures made { HasMade (F.shows forest.old) (F.shows forest.new) (all_table_functions model.now) }
    ensures stand { IfOk result (λ refs. AllZip (StandsFor (F.shows forest.new)) refs.items (all_weights model.now)) }
    ensures sums { IfOk result (λ _. first_wrong_sum model.now ≡ None) }
    ensures fault { IfErr result (TableCause model.now (F.shows forest.new)) }
    ensures adds { HoldAdds (F.shows forest.new) adds.new }
    ensures keeps { F.kept forest.new ≡ F.kept forest.old }
{
    let actions = model.actions.as_slice().len();
    let mut weights = with_room(alloc, actions * value_count(forest.layout().sizes()))?;
    weigh_actions(alloc, model, forest, dds, &mut weights, adds, steps)?;
    Ok(weights)
}
