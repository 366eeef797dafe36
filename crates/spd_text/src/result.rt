//! The text of a result.
ghost use Rattle.std.specs.Prelude.{◌≡◌, length, decimal};
ghost use Rattle.hex.specs.Hex.{encode_lower};
ghost use Rattle.spd_model.specs.ResultText.{text_of, units, why_text, state_words};
ghost use Rattle.spd_frozen.specs.Fits.{FitsModel};
ghost use Rattle.spd_frozen.specs.Told.{told};
ghost use Rattle.spd_text.specs.Writing.{Wrote, Counted};
ghost use Rattle.spd_text.specs.inner.Pieces.{shown, spaced, Writes};
ghost use Rattle.spd_text.specs.inner.Parts.{title_text, head_text, end_words, end_text, top_text};

use crate::names::{action_name, side_word, value_name, why_word};
use crate::nodes::put_nodes;
use crate::waiting::{Waiting, put, put_all};
use hex::encode_to_slice;
use itoa::Buffer;
use spd_edge::{Failed, Sink};
use spd_frozen::{Iterate, Residual};
use spd_model::{Model, State, Why};
use spd_scaled::put_units;

/// Writes the text of a result: the lines from `spd result 2` to `end`, each ended by LF. `digest` is the SHA-256 of the
/// model's file. It takes no memory.
///
/// # Errors
///
/// `Failed` where a write failed: the sink then took a front of the text.
pub fn write_result<K: Sink>(
    k: &mut K,
    model: &Model,
    digest: &[u8; 32],
    iterate: &Iterate,
    why: Why,
) -> Result<(), Failed>
    requires { FitsModel model.now iterate.now }
    ensures text { Wrote (K.taken k.old) (text_of digest.now model.now why (told iterate.now)) result (K.taken k.new) }
    ensures count { Counted (K.faults k.old) result (K.faults k.new) }
    ensures named { K.name k.new ≡ K.name k.old }
{
    let mut waiting = Waiting::new();
    put_result(k, &mut waiting, model, digest, iterate, why)?;
    waiting.flush(k)
}

/// Writes the text of a result, or lets its end wait.
fn put_result<K: Sink>(
    k: &mut K,
    waiting: &mut Waiting,
    model: &Model,
    digest: &[u8; 32],
    iterate: &Iterate,
    why: Why,
) -> Result<(), Failed>
    requires { FitsModel model.now iterate.now }
    ensures { Writes (shown K.taken K.faults K.name k.old) waiting.old (text_of digest.now model.now why (told iterate.now)) result (shown K.taken K.faults K.name k.new) waiting.new }
{
    put_title(k, waiting, digest)?;
    put_top(k, waiting, model, iterate, why)?;
    put_nodes(k, waiting, model, b"value", &iterate.value)?;
    put_nodes(k, waiting, model, b"policy", &iterate.policy)?;
    put(k, waiting, b"end\n")
}

/// Writes the lines that say what the text is, and of which file.
fn put_title<K: Sink>(k: &mut K, waiting: &mut Waiting, digest: &[u8; 32]) -> Result<(), Failed>
    ensures { Writes (shown K.taken K.faults K.name k.old) waiting.old (title_text (encode_lower digest.now)) result (shown K.taken K.faults K.name k.new) waiting.new }
{
    let digest = hexadecimal(digest);
    put_all(k, waiting, &[b"spd result 2\nmodel ", &digest, b"\n"])
}

/// Writes the lines of a turn: from its status to its error.
pub(crate) fn put_top<K: Sink>(
    k: &mut K,
    waiting: &mut Waiting,
    model: &Model,
    iterate: &Iterate,
    why: Why,
) -> Result<(), Failed>
    requires { length iterate.now.residual.at ≡ length model.now.vars }
    ensures { Writes (shown K.taken K.faults K.name k.old) waiting.old
        (top_text model.now why iterate.now)
        result (shown K.taken K.faults K.name k.new) waiting.new }
{
    put_head(k, waiting, iterate, why)?;
    put_state(k, waiting, model, &iterate.residual.at)?;
    put_end(k, waiting, model, &iterate.residual, iterate.error)
}

/// Writes the lines before the place of the residual, and the first word of that line.
fn put_head<K: Sink>(
    k: &mut K,
    waiting: &mut Waiting,
    iterate: &Iterate,
    why: Why,
) -> Result<(), Failed>
    ensures { Writes (shown K.taken K.faults K.name k.old) waiting.old
        (head_text (why_text why) (decimal iterate.now.turn) (units iterate.now.residual.r))
        result (shown K.taken K.faults K.name k.new) waiting.new }
{
    let mut digits = Buffer::new();
    let mut residual = [0; 64];
    let len = put_units(iterate.residual.r, 9, &mut residual);
    let pieces: [&[u8]; 7] = [
        b"status ",
        why_word(why),
        b"\nturn ",
        digits.format(iterate.turn).as_bytes(),
        b"\nresidual ",
        &residual[..len],
        b"\nat",
    ];
    put_all(k, waiting, &pieces)
}

/// Writes `variable=value` for each variable in order, each behind a space.
pub(crate) fn put_state<K: Sink>(
    k: &mut K,
    waiting: &mut Waiting,
    model: &Model,
    state: &State,
) -> Result<(), Failed>
    requires { length state.now ≡ length model.now.vars }
    ensures { Writes (shown K.taken K.faults K.name k.old) waiting.old (spaced (state_words model.now state.now)) result (shown K.taken K.faults K.name k.new) waiting.new }
{
    for (i, var) in model.vars.as_slice().iter().enumerate() {
        let value = value_name(var, state.get(i));
        put_all(k, waiting, &[b" ", var.name.as_slice(), b"=", value])?;
    }
    Ok(())
}

/// Writes the side and the action of a residual, and the line of the error.
fn put_end<K: Sink>(
    k: &mut K,
    waiting: &mut Waiting,
    model: &Model,
    residual: &Residual,
    error: i128,
) -> Result<(), Failed>
    ensures { Writes (shown K.taken K.faults K.name k.old) waiting.old
        (end_text model.now residual.now error)
        result (shown K.taken K.faults K.name k.new) waiting.new }
{
    let side = side_word(residual.side);
    let action = action_name(model, residual.action);
    let mut units = [0; 64];
    let len = put_units(error, 9, &mut units);
    put_words(k, waiting, side, action, &units[..len])
}

/// Writes these words for the side, the action and the error.
fn put_words<K: Sink>(
    k: &mut K,
    waiting: &mut Waiting,
    side: &[u8],
    action: &[u8],
    error: &[u8],
) -> Result<(), Failed>
    ensures { Writes (shown K.taken K.faults K.name k.old) waiting.old
        (end_words side.now action.now error.now)
        result (shown K.taken K.faults K.name k.new) waiting.new }
{
    put_all(
        k,
        waiting,
        &[b" ", side, b" ", action, b"\nerror ", error, b"\n"],
    )
}

/// The 64 hexadecimal digits of a digest, in lower case.
fn hexadecimal(digest: &[u8; 32]) -> [u8; 64]
    ensures { result ≡ encode_lower digest.now }
{
    let mut text = [0; 64];
    let _ = encode_to_slice(digest.as_slice(), &mut text);
    text
}
