//! A state in words.
ghost use Rattle.std.specs.Prelude.{◌≡◌, ◌++◌, length, IfOk, OnOk};
ghost use Rattle.spd_solver.specs.Solve.{state_text as state_text_of};
ghost use Rattle.spd_solver.specs.inner.Stages.{gap_before, state_word};

use spd_model::{Model, State, Text, Var};
use spd_text::value_name;
use sqlite_items::Items;
use std::alloc::{AllocError, Global};

/// What parts the word of this number from the one before it.
fn gap_before(number: usize) -> &'static [u8]
    ensures { result.now ≡ gap_before number }
{
    match number {
        0 => b"",
        _ => b" ",
    }
}

/// Appends `variable=value`, the word of this number.
fn put_word(text: &mut Vec<u8>, number: usize, var: &Var, value: u8) -> Result<(), AllocError>
    ensures { OnOk result (text.new.items ≡ text.old.items ++ gap_before number ++ state_word var.now value) }
{
    text.extend_from_slice(gap_before(number))?;
    text.extend_from_slice(var.name.as_slice())?;
    text.extend_from_slice(b"=")?;
    text.extend_from_slice(value_name(var, value))
}

/// A state in words: `variable=value` for each variable, parted by spaces.
pub(crate) fn state_text(alloc: Global, model: &Model, state: &State) -> Result<Text, AllocError>
    requires { length state.now ≡ length model.now.vars }
    ensures { IfOk result (λ text. text ≡ state_text_of model.now state.now) }
{
    let mut text = Vec::new(alloc);
    for (i, var) in model.vars.as_slice().iter().enumerate() {
        put_word(&mut text, i, var, state.get(i))?;
    }
    Ok(Items::from_vec(text))
}
