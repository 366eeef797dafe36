//! The words of a result's text.
ghost use Rattle.std.specs.Prelude.{◌≡◌};
ghost use Rattle.spd_model.specs.ResultText.{why_text, side_text, action_name as action_text, var_name as var_text, value_name as value_text};

use spd_model::{Model, Side, Var, Why};

/// The word for why a run ended.
pub(crate) fn why_word(why: Why) -> &'static [u8]
    ensures { result.now ≡ why_text why }
{
    match why {
        Why::Done => b"done",
        Why::Limit => b"limit",
    }
}

/// The word for the side of a residual.
pub(crate) fn side_word(side: Side) -> &'static [u8]
    ensures { result.now ≡ side_text side }
{
    match side {
        Side::Above => b"above",
        Side::Below => b"below",
    }
}

/// The name of the action of this number, empty where there is none.
pub fn action_name(model: &Model, action: u32) -> &[u8]
    ensures { result.now ≡ action_text model.now action }
{
    match model.actions.get(action as usize) {
        Some(action) => action.name.as_slice(),
        None => b"",
    }
}

/// The name of the variable of this number, empty where there is none.
pub fn var_name(model: &Model, var: u32) -> &[u8]
    ensures { result.now ≡ var_text model.now var }
{
    match model.vars.get(var as usize) {
        Some(var) => var.name.as_slice(),
        None => b"",
    }
}

/// The name of a variable's value of this number, empty where there is none.
pub fn value_name(var: &Var, value: u8) -> &[u8]
    ensures { result.now ≡ value_text var.now value }
{
    match var.values.get(value as usize) {
        Some(name) => name.as_slice(),
        None => b"",
    }
}
