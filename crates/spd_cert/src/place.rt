//! The line of the residual's place.

ghost use Rattle.std.specs.Prelude.{◌≡◌, ◌≤◌, [], length, take};
ghost use Rattle.spd_model.specs.Lawful.{IsLawful};
ghost use Rattle.spd_cert.specs.Reading.{Gives, pair_at, state_at, place_at};
ghost use Rattle.spd_cert.specs.inner.Seen.{place_seen};

use crate::ending::{Ending, Kind, stop_at};
use crate::names::{action_number, is_pair, pair_value, side_of};
use crate::word::{keyword, word_at};
use spd_model::{Model, Side, Var};

/// Where a residual lies: a value of each variable in order, the side, and the action.
#[derive(Drop)]
pub(crate) struct Place {
    pub values: [u8; 100],
    pub side: Side,
    pub action: u32,
}

/// The word `variable=value` of this variable.
#[tactic(auto, unfolding(crate::specs::Reading::pair_at))]
fn pair_at<'f>(var: &Var, bytes: &'f [u8]) -> Result<(u8, &'f [u8]), Ending>
    requires { length var.now.values ≤ 64 }
    ensures { Gives (λ x. (x.0, x.1.now)) result (pair_at var.now bytes.now) }
{
    let word = word_at(bytes)?;
    if !is_pair(word.text) {
        return Err(stop_at(Kind::Expected, word.left));
    }
    let value = word.wanted(pair_value(var, word.text), Kind::Unknown)?;
    Ok((value, word.goes_on()?))
}

/// The words `variable=value` of all variables in order.
fn state_at<'f>(model: &Model, bytes: &'f [u8]) -> Result<([u8; 100], &'f [u8]), Ending>
    ensures { Gives (λ x. (take (length model.now.vars) x.0, x.1.now)) result (state_at model.now.vars [] bytes.now) }
{
    let mut values = [0; 100];
    let mut rest = bytes;
    for (i, var) in model.vars.as_slice().iter().enumerate() {
        let (value, behind) = pair_at(var, rest)?;
        values[i] = value;
        rest = behind;
    }
    Ok((values, rest))
}

/// The line of the residual's place.
#[tactic(auto, unfolding(crate::specs::Reading::place_at))]
pub(crate) fn place_at<'f>(model: &Model, bytes: &'f [u8]) -> Result<(Place, &'f [u8]), Ending>
    ensures { Gives (λ x. (place_seen (length model.now.vars) x.0, x.1.now)) result (place_at model.now bytes.now) }
{
    let rest = keyword(b"at", bytes)?;
    let (values, rest) = state_at(model, rest)?;
    let word = word_at(rest)?;
    let side = word.wanted(side_of(word.text), Kind::Expected)?;
    let word = word_at(word.goes_on()?)?;
    let action = word.wanted(action_number(model, word.text), Kind::Unknown)?;
    Ok((
        Place {
            values,
            side,
            action,
        },
        word.ends()?,
    ))
}
