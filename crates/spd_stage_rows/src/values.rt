//! Values of models, as tables and as diagrams.
ghost use Rattle.std.specs.Prelude.{◌≡◌, ◌<◌, IfOk, IfSome, true, length};
ghost use Rattle.spd_model.specs.States.{sizes, state_count};
ghost use Rattle.spd_frozen.specs.Fits.{FitsSizes};
ghost use Rattle.spd_nodes.specs.Shown.{Shown};

use crate::wanted::{Want, number_at};
use spd_frozen::{Frozen, of_table};
use spd_model::Model;
use spd_nodes::{Forest, Leaf, Ref, View};
use std::alloc::Global;
use std::test::Fail;

/// The greatest number of states that tables are made of.
const STATE_LIMIT: usize = 4096;

/// The number of a model's states, if there are at most so many.
pub fn count_states(model: &Model) -> Option<usize>
    ensures { IfSome result (λ count. count ≡ state_count (sizes model.now)) }
{
    let mut count = 1;
    for var in model.vars.as_slice() {
        count *= var.values.len();
        if count > STATE_LIMIT {
            return None;
        }
    }
    Some(count)
}

/// The values of the state of this number, in the order of the states, and 0 behind them.
pub fn state_of(model: &Model, number: usize) -> [u8; 100] {
    let mut state = [0; 100];
    let mut rest = number;
    for (place, var) in model.vars.as_slice().iter().enumerate().rev() {
        let size = var.values.len();
        if let Some(value) = state.get_mut(place) {
            *value = rest.checked_rem(size).unwrap_or(0) as u8;
        }
        rest = rest.checked_div(size).unwrap_or(0);
    }
    state
}

/// The leaves of a list of nodes at a model's first states in order.
fn leaves_of(alloc: Global, model: &Model, count: usize, list: &[Want]) -> Result<Vec<Leaf>, Fail> {
    let mut leaves = Vec::new(alloc);
    for number in 0..count {
        let state = state_of(model, number);
        match number_at(list, &state, &state) {
            Some(x) => leaves.push(Leaf::Num(x))?,
            None => return Err(Fail::new("a list ends at no leaf")),
        }
    }
    Ok(leaves)
}

/// The reduced diagram of a list's table.
pub fn table_of(alloc: Global, model: &Model, list: &[Want]) -> Result<Frozen, Fail>
    ensures { IfOk result (λ frozen. FitsSizes (sizes model.now) frozen) }
{
    let Some(count) = count_states(model) else {
        return Err(Fail::new("too many states"));
    };
    let leaves = leaves_of(alloc, model, count, list)?;
    if leaves.len() != count {
        return Err(Fail::new("not one leaf for each state"));
    }
    Ok(of_table(alloc, model, &leaves)?)
}

/// The number of a diagram at a present and a next state, if at most `most` nodes lead to it.
pub fn number_in<F: Forest>(
    forest: &mut F,
    r: Ref,
    present: &[u8],
    next: &[u8],
    most: usize,
) -> Option<i128>
    requires { (F.shows forest.old).knows r ≡ true }
    ensures { F.shows forest.new ≡ F.shows forest.old }
{
    let mut at = r;
    for _ in 0..most {
        match forest.view(at) {
            View::Leaf(Leaf::Num(x)) => return Some(x),
            View::Leaf(_) => return None,
            View::Test { level, yes, no } => {
                let (var, primed, value) = forest.layout().what(level);
                let state = if primed { next } else { present };
                at = if state.get(var as usize) == Some(&value) {
                    yes
                } else {
                    no
                };
            }
        }
    }
    None
}

/// Fails where a diagram has another number than a list at a present state, whatever the next one is, with what the diagram is.
pub fn check<F: Forest>(
    forest: &mut F,
    model: &Model,
    r: Ref,
    list: &[Want],
    what: &str,
) -> Result<(), Fail>
    requires { (F.shows forest.old).knows r ≡ true }
    ensures { F.shows forest.new ≡ F.shows forest.old }
{
    let Some(count) = count_states(model) else {
        return Err(Fail::new("too many states"));
    };
    for number in 0..count {
        let state = state_of(model, number);
        let want = number_at(list, &state, &state);
        let first = number_in(forest, r, &state, &[0; 100], 600);
        let last = number_in(forest, r, &state, &[255; 100], 600);
        if first != want || last != want {
            return Err(Fail::new(format_args!(
                "{what}: {first:?} and {last:?} in place of {want:?} at state {number}"
            )));
        }
    }
    Ok(())
}
