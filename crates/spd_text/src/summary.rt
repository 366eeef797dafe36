//! The summary of a ring's result.
ghost use Rattle.std.specs.Prelude.{◌≡◌, ◌++◌, ◌∷◌, [], length, codes, decimal};
ghost use Rattle.spd_model.specs.ResultText.{line};
ghost use Rattle.spd_frozen.specs.Fits.{FitsModel};
ghost use Rattle.spd_frozen.specs.Told.{told};
ghost use Rattle.spd_text.specs.Summary.{summary_text};
ghost use Rattle.spd_text.specs.Writing.{Wrote, Counted};
ghost use Rattle.spd_text.specs.inner.Pieces.{shown, Writes};
ghost use Rattle.spd_text.specs.inner.Parts.{counts_text};

use crate::result::put_top;
use crate::waiting::{Waiting, put_all};
use itoa::Buffer;
use spd_edge::{Failed, Sink};
use spd_frozen::{Frozen, Iterate};
use spd_model::{Model, Why};

/// Writes the summary of the result of a ring of so many machines: which ring it is, the lines `status` to `error` of the
/// result, the numbers of nodes of its value and of its policy, and `end`, each line ended by LF. It takes no memory.
///
/// # Errors
///
/// `Failed` where a write failed: the sink then took a front of the text.
pub fn write_summary<K: Sink>(
    k: &mut K,
    model: &Model,
    ring: u32,
    iterate: &Iterate,
    why: Why,
) -> Result<(), Failed>
    requires { FitsModel model.now iterate.now }
    ensures text { Wrote (K.taken k.old) (summary_text ring model.now why (told iterate.now)) result (K.taken k.new) }
    ensures count { Counted (K.faults k.old) result (K.faults k.new) }
    ensures named { K.name k.new ≡ K.name k.old }
{
    let mut waiting = Waiting::new();
    put_summary(k, &mut waiting, model, ring, iterate, why)?;
    waiting.flush(k)
}

/// Writes the summary, or lets its end wait.
fn put_summary<K: Sink>(
    k: &mut K,
    waiting: &mut Waiting,
    model: &Model,
    ring: u32,
    iterate: &Iterate,
    why: Why,
) -> Result<(), Failed>
    requires { FitsModel model.now iterate.now }
    ensures { Writes (shown K.taken K.faults K.name k.old) waiting.old (summary_text ring model.now why (told iterate.now)) result (shown K.taken K.faults K.name k.new) waiting.new }
{
    put_ring(k, waiting, ring)?;
    put_top(k, waiting, model, iterate, why)?;
    put_counts(k, waiting, &iterate.value, &iterate.policy)
}

/// Writes the line that says which ring it is.
fn put_ring<K: Sink>(k: &mut K, waiting: &mut Waiting, ring: u32) -> Result<(), Failed>
    ensures { Writes (shown K.taken K.faults K.name k.old) waiting.old (line (codes "spd" ∷ codes "ring" ∷ decimal ring ∷ [])) result (shown K.taken K.faults K.name k.new) waiting.new }
{
    let mut digits = Buffer::new();
    let machines = digits.format(ring).as_bytes();
    put_all(k, waiting, &[b"spd ring ", machines, b"\n"])
}

/// Writes how many nodes a value and a policy have, and the last line.
fn put_counts<K: Sink>(
    k: &mut K,
    waiting: &mut Waiting,
    value: &Frozen,
    policy: &Frozen,
) -> Result<(), Failed>
    ensures { Writes (shown K.taken K.faults K.name k.old) waiting.old (counts_text (decimal (length value.now)) (decimal (length policy.now))) result (shown K.taken K.faults K.name k.new) waiting.new }
{
    let value_nodes = value.nodes();
    let policy_nodes = policy.nodes();
    let mut value_digits = Buffer::new();
    let mut policy_digits = Buffer::new();
    let value_count = value_digits.format(value_nodes.len()).as_bytes();
    let policy_count = policy_digits.format(policy_nodes.len()).as_bytes();
    put_counts_of(k, waiting, value_count, policy_count)
}

/// Writes these numbers of nodes, and the last line.
fn put_counts_of<K: Sink>(
    k: &mut K,
    waiting: &mut Waiting,
    value: &[u8],
    policy: &[u8],
) -> Result<(), Failed>
    ensures { Writes (shown K.taken K.faults K.name k.old) waiting.old (counts_text value.now policy.now) result (shown K.taken K.faults K.name k.new) waiting.new }
{
    put_all(
        k,
        waiting,
        &[b"value ", value, b"\npolicy ", policy, b"\nend\n"],
    )
}
