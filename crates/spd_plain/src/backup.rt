//! The Bellman backup at one state.

ghost use Rattle.std.specs.Prelude.{◌≡◌, ◌<◌, ◌≤◌, ◌+ℤ◌, ◌*ℤ◌, length, map, pos, Contains, IfOk};
ghost use Rattle.spd_scaled.specs.Scaled.{IsWithin};
ghost use Rattle.spd_model.specs.Numbers.{greatest};
ghost use Rattle.spd_model.specs.States.{sizes, at, IsState};
ghost use Rattle.spd_model.specs.Chances.{discount_one, reward_limit};
ghost use Rattle.spd_model.specs.Backup.{low_of, high_of, best_low, best_high};
ghost use Rattle.spd_model.specs.Turns.{value_limit};
ghost use Rattle.spd_plain.specs.inner.Expectations.{rounding_of};
ghost use Rattle.spd_plain.specs.inner.Outlooks.{outlook_of, outlooks_at};
ghost use Rattle.spd_plain.specs.inner.Sweeps.{CanSweep, bound_on, action_on, AreLimited};

use crate::expectation::{Work, expect};
use crate::outlook::Outlook;
use crate::ranges::Bounds;
use crate::scales::DISCOUNT_ONE;
use crate::space::Space;
use spd_model::{Action, Model, Side, State};
use spd_scaled::{ceil_div, floor_div};
use std::alloc::AllocError;

/// A quotient by one, as a discount, rounded up above and down below.
fn rounded(side: Side, product: i128) -> i128
    ensures { result ≡ rounding_of side product (pos discount_one) }
{
    match side {
        Side::Above => ceil_div(product, DISCOUNT_ONE),
        Side::Below => floor_div(product, DISCOUNT_ONE),
    }
}

/// A reward plus a discounted expectation, rounded up above and down below.
fn discounted_return(reward: i128, discount: u32, expectation: i128, side: Side) -> i128
    requires reward { IsWithin (pos reward_limit) reward }
    requires discount { discount ≤ 999999 }
    requires expectation { IsWithin (pos value_limit) expectation }
    ensures value { result ≡ reward +ℤ rounding_of side (pos discount *ℤ expectation) (pos discount_one) }
    ensures within { IsWithin (pos value_limit) result }
{
    let product = discount as i128 * expectation;
    reward + rounded(side, product)
}

/// The lower and the upper bound of the return of `action` at `s`, where `values` follows.
fn bounds_of(
    model: &Model,
    action: &Action,
    outlook: &Outlook,
    s: &State,
    space: &Space,
    values: &[i128],
    work: &mut Work,
) -> Result<Bounds, AllocError>
    requires values { CanSweep model.now space.now values.now }
    requires action { Contains model.now.actions action.now }
    requires outlook { outlook.now ≡ outlook_of model.now s.now action.now }
    requires state { IsState (sizes model.now) s.now }
    ensures low { IfOk result (λ bounds. bounds.low ≡ low_of model.now (at (sizes model.now) values.now) action.now s.now) }
    ensures high { IfOk result (λ bounds. bounds.high ≡ high_of model.now (at (sizes model.now) values.now) action.now s.now) }
    ensures limited { IfOk result AreLimited }
{
    expect(model, action, outlook, s, space, values, work)?;
    Ok(Bounds {
        low: discounted_return(outlook.reward, model.discount, work.low[0], Side::Below),
        high: discounted_return(outlook.reward, model.discount, work.high[0], Side::Above),
    })
}

/// The greatest lower and the greatest upper bound over all actions.
pub(crate) fn best_bounds(
    model: &Model,
    outlooks: &[Outlook],
    s: &State,
    space: &Space,
    values: &[i128],
    work: &mut Work,
) -> Result<Bounds, AllocError>
    requires values { CanSweep model.now space.now values.now }
    requires outlooks { outlooks.now ≡ outlooks_at model.now s.now }
    requires state { IsState (sizes model.now) s.now }
    ensures low { IfOk result (λ bounds. bounds.low ≡ best_low model.now (at (sizes model.now) values.now) s.now) }
    ensures high { IfOk result (λ bounds. bounds.high ≡ best_high model.now (at (sizes model.now) values.now) s.now) }
    ensures limited { IfOk result AreLimited }
{
    let actions = model.actions.as_slice();
    let mut best = bounds_of(model, &actions[0], &outlooks[0], s, space, values, work)?;
    for number in 1..actions.len() {
        let bounds = bounds_of(
            model,
            &actions[number],
            &outlooks[number],
            s,
            space,
            values,
            work,
        )?;
        best.low = best.low.max(bounds.low);
        best.high = best.high.max(bounds.high);
    }
    Ok(best)
}

/// The bound of the return of `action` at `s` on a side, where `values` follows.
fn bound_of(
    model: &Model,
    action: &Action,
    outlook: &Outlook,
    s: &State,
    space: &Space,
    values: &[i128],
    side: Side,
    work: &mut Work,
) -> Result<i128, AllocError>
    requires values { CanSweep model.now space.now values.now }
    requires action { Contains model.now.actions action.now }
    requires outlook { outlook.now ≡ outlook_of model.now s.now action.now }
    requires state { IsState (sizes model.now) s.now }
    ensures { IfOk result (λ bound. bound ≡ bound_on side model.now (at (sizes model.now) values.now) action.now s.now) }
{
    let bounds = bounds_of(model, action, outlook, s, space, values, work)?;
    Ok(match side {
        Side::Above => bounds.high,
        Side::Below => bounds.low,
    })
}

/// The number of the first action that has the greatest bound on a side.
pub(crate) fn best_action(
    model: &Model,
    outlooks: &[Outlook],
    s: &State,
    space: &Space,
    values: &[i128],
    side: Side,
    work: &mut Work,
) -> Result<u32, AllocError>
    requires values { CanSweep model.now space.now values.now }
    requires outlooks { outlooks.now ≡ outlooks_at model.now s.now }
    requires state { IsState (sizes model.now) s.now }
    ensures { IfOk result (λ action. action ≡ action_on side model.now (at (sizes model.now) values.now) s.now) }
{
    let actions = model.actions.as_slice();
    let mut best = bound_of(
        model,
        &actions[0],
        &outlooks[0],
        s,
        space,
        values,
        side,
        work,
    )?;
    let mut first = 0;
    for number in 1..actions.len() {
        let bound = bound_of(
            model,
            &actions[number],
            &outlooks[number],
            s,
            space,
            values,
            side,
            work,
        )?;
        if best < bound {
            best = bound;
            first = number as u32;
        }
    }
    Ok(first)
}

/// The greatest reward over all actions.
pub(crate) fn best_reward(outlooks: &[Outlook]) -> i128
    requires { 0 < length outlooks.now }
    ensures { result ≡ greatest (map (λ outlook. outlook.reward) outlooks.now) }
{
    let mut best = outlooks[0].reward;
    for outlook in &outlooks[1..] {
        best = best.max(outlook.reward);
    }
    best
}
