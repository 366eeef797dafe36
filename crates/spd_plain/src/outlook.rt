//! What the actions of a model come to at its states, tabulated once for all turns.

ghost use Rattle.std.specs.Prelude.{◌≡◌, ◌<◌, length, map, IfOk, Contains};
ghost use Rattle.spd_model.specs.Numbers.{numbers_below};
ghost use Rattle.spd_model.specs.States.{sizes, IsState};
ghost use Rattle.spd_plain.specs.inner.Chances.{values_of};
ghost use Rattle.spd_plain.specs.inner.Axes.{IsSpace};
ghost use Rattle.spd_plain.specs.inner.Reach.{reaches_after, reaches_of};
ghost use Rattle.spd_plain.specs.inner.Outlooks.{keeps, kept_of, outlook_of, outlooks_at as outlooks_at_of, outlooks_of};

use crate::chances::kept_chances;
use crate::reach::Reach;
use crate::space::Space;
use crate::validity::reward;
use spd_model::{Action, Model, State};
use sqlite_items::Items;
use std::alloc::{AllocError, Global};

/// What an action comes to at a state.
#[derive(Drop)]
pub struct Outlook {
    /// The reward, in units of 10^-9.
    pub reward: i128,
    /// The reach of each variable's table, in the order of the variables.
    pub reaches: Items<Reach>,
    /// The probabilities of each variable's values, in the order of the variables, where those after it have their first values;
    /// in units of 10^-12. None where the model has too many to keep.
    pub kept: Items<Items<i128>>,
}

/// The greatest number of pairs of an action and a state whose probabilities are kept: so what is kept has at most four entries for each
/// value of each variable of 4,096 states.
const KEPT_LIMIT: usize = 16_384;

/// Whether the probabilities that can be kept are kept for all turns. Those of a model with more pairs of an action and a state are
/// read anew in each turn.
fn are_kept(model: &Model, space: &Space) -> bool
    requires { IsSpace model.now space.now }
    ensures { result ≡ keeps model.now }
{
    let actions = model.actions.as_slice();
    let states = space.states.as_slice();
    actions.len() * states.len() <= KEPT_LIMIT
}

/// The probabilities of each variable's values after `action` at `s`, where the variables after it have their first values.
fn all_chances(
    alloc: Global,
    model: &Model,
    action: &Action,
    s: &State,
    space: &Space,
) -> Result<Items<Items<i128>>, AllocError>
    requires action { Contains model.now.actions action.now }
    requires state { IsState (sizes model.now) s.now }
    requires space { IsSpace model.now space.now }
    ensures { IfOk result (λ chances. chances ≡ map (values_of model.now action.now s.now) (numbers_below (length model.now.vars))) }
{
    let axes = space.axes.as_slice();
    let mut chances = Vec::with_capacity(alloc, axes.len())?;
    for var in 0..axes.len() {
        let own = kept_chances(alloc, model, action, s, &axes[var], space)?;
        chances.push(own)?;
    }
    Ok(Items::from_vec(chances))
}

/// What is kept of the probabilities after `action` at `s`.
fn kept_after(
    alloc: Global,
    model: &Model,
    action: &Action,
    s: &State,
    space: &Space,
) -> Result<Items<Items<i128>>, AllocError>
    requires action { Contains model.now.actions action.now }
    requires state { IsState (sizes model.now) s.now }
    requires space { IsSpace model.now space.now }
    ensures { IfOk result (λ kept. kept ≡ kept_of model.now s.now action.now) }
{
    if are_kept(model, space) {
        all_chances(alloc, model, action, s, space)
    } else {
        Ok(Items::new(alloc))
    }
}

/// What `action` comes to at `s`.
fn outlook_after(
    alloc: Global,
    model: &Model,
    action: &Action,
    reaches: &[Reach],
    s: &State,
    space: &Space,
) -> Result<Outlook, AllocError>
    requires action { Contains model.now.actions action.now }
    requires reaches { reaches.now ≡ reaches_after model.now action.now }
    requires state { IsState (sizes model.now) s.now }
    requires space { IsSpace model.now space.now }
    ensures { IfOk result (λ outlook. outlook ≡ outlook_of model.now s.now action.now) }
{
    Ok(Outlook {
        reward: reward(model, action, s),
        reaches: Items::from_slice(alloc, reaches)?,
        kept: kept_after(alloc, model, action, s, space)?,
    })
}

/// What each action comes to at `s`, one entry per action in order.
fn outlooks_at(
    alloc: Global,
    model: &Model,
    reaches: &[Items<Reach>],
    s: &State,
    space: &Space,
) -> Result<Items<Outlook>, AllocError>
    requires reaches { reaches.now ≡ reaches_of model.now }
    requires state { IsState (sizes model.now) s.now }
    requires space { IsSpace model.now space.now }
    ensures { IfOk result (λ outlooks. outlooks ≡ outlooks_at_of model.now s.now) }
{
    let actions = model.actions.as_slice();
    let mut outlooks = Vec::with_capacity(alloc, actions.len())?;
    for (number, action) in actions.iter().enumerate() {
        outlooks.push(outlook_after(alloc, model, action, reaches[number].as_slice(), s, space)?)?;
    }
    Ok(Items::from_vec(outlooks))
}

/// What each action comes to at each state, one row per state in order.
pub(crate) fn tabulate(
    alloc: Global,
    model: &Model,
    reaches: &[Items<Reach>],
    space: &Space,
) -> Result<Vec<Items<Outlook>>, AllocError>
    requires reaches { reaches.now ≡ reaches_of model.now }
    requires space { IsSpace model.now space.now }
    ensures { IfOk result (λ rows. rows.items ≡ outlooks_of model.now) }
{
    let states = space.states.as_slice();
    let mut rows = Vec::with_capacity(alloc, states.len())?;
    for s in states {
        rows.push(outlooks_at(alloc, model, reaches, s, space)?)?;
    }
    Ok(rows)
}
