//! Which variables' next values a table of probabilities follows.

ghost use Rattle.std.specs.Prelude.{◌≡◌, ◌<◌, [], Contains, IfOk};
ghost use Rattle.spd_model.specs.Trees.{read_tree, read_diagrams};
ghost use Rattle.spd_plain.specs.inner.Reach.{latest, reaches_after as reaches_after_of, reaches_of};

use spd_model::{Action, Model, Tree};
use sqlite_items::Items;
use std::alloc::{AllocError, Global};

/// Whether a variable's table of probabilities follows next values of later variables.
#[derive(Clone, Copy)]
pub enum Reach {
    /// It follows the next value of its own variable alone.
    Own,
    /// It may follow next values of variables after its own.
    Later,
}

/// One more than the number of the last variable whose next value a tree follows, or 0, where `diagrams` has these numbers of the
/// decision diagrams that it may name.
fn latest_in(tree: &Tree, diagrams: &[usize]) -> usize
    ensures { result ≡ read_tree latest diagrams.now tree.now }
{
    match tree {
        Tree::Leaf(_) => 0,
        Tree::Named(diagram) => diagrams.get(*diagram as usize).copied().unwrap_or(0),
        Tree::Branch { var, primed, kids } => {
            let mut most = if *primed { *var as usize + 1 } else { 0 };
            for kid in kids.as_slice() {
                most = most.max(latest_in(kid, diagrams));
            }
            most
        }
    }
}

/// The same number of each decision diagram in order.
fn latest_of_diagrams(alloc: Global, model: &Model) -> Result<Vec<usize>, AllocError>
    ensures { IfOk result (λ numbers. numbers.items ≡ read_diagrams latest [] model.now.dds) }
{
    let dds = model.dds.as_slice();
    let mut numbers = Vec::with_capacity(alloc, dds.len())?;
    for dd in dds {
        numbers.push(latest_in(dd, &numbers))?;
    }
    Ok(numbers)
}

/// The reach of each of an action's tables in order.
fn reaches_after(
    alloc: Global,
    model: &Model,
    action: &Action,
    diagrams: &[usize],
) -> Result<Items<Reach>, AllocError>
    requires action { Contains model.now.actions action.now }
    requires diagrams { diagrams.now ≡ read_diagrams latest [] model.now.dds }
    ensures { IfOk result (λ reaches. reaches ≡ reaches_after_of model.now action.now) }
{
    let tables = action.tables.as_slice();
    let mut reaches = Vec::with_capacity(alloc, tables.len())?;
    for var in 0..model.vars.as_slice().len() {
        let reach = if latest_in(&tables[var], diagrams) <= var + 1 {
            Reach::Own
        } else {
            Reach::Later
        };
        reaches.push(reach)?;
    }
    Ok(Items::from_vec(reaches))
}

/// The reach of each table of each action in order.
pub(crate) fn reaches(alloc: Global, model: &Model) -> Result<Vec<Items<Reach>>, AllocError>
    ensures { IfOk result (λ rows. rows.items ≡ reaches_of model.now) }
{
    let diagrams = latest_of_diagrams(alloc, model)?;
    let actions = model.actions.as_slice();
    let mut rows = Vec::with_capacity(alloc, actions.len())?;
    for action in actions {
        rows.push(reaches_after(alloc, model, action, &diagrams)?)?;
    }
    Ok(rows)
}
