//! The file of a ring.
ghost use Rattle.std.specs.Prelude.{◌≡◌, ◌≤◌, ◌++◌, flat_map, OnOk, OnErr};
ghost use Rattle.spd_edge.specs.Counts.{Rose};
ghost use Rattle.spd_edge.specs.Told.{Took, TookFront};
ghost use Rattle.spd_model.specs.Numbers.{numbers_below};
ghost use Rattle.spd_gen.specs.Ring.{ring_text, variable_text, part_text};
ghost use Rattle.spd_gen.specs.inner.Pieces.{shown, Writes};
ghost use Rattle.spd_gen.specs.inner.Lines.{variables_text, reward_text, whole_text};

use crate::actions::{put_noop, put_reboots};
use crate::machine::{put_part, put_variable};
use crate::pieces::put;
use spd_edge::{Failed, Sink};

/// Writes the file of a ring of `n` machines. It takes no memory.
///
/// # Errors
///
/// `Failed` where a write failed: the sink then took a front of the text.
pub fn put_ring<K: Sink>(n: u32, k: &mut K) -> Result<(), Failed>
    ensures all { OnOk result (Took (K.taken k.old) (ring_text n) (K.taken k.new)) }
    ensures ok { OnOk result (K.faults k.new ≡ K.faults k.old) }
    ensures front { OnErr result (TookFront (K.taken k.old) (ring_text n) (K.taken k.new)) }
    ensures failed { OnErr result (Rose (K.faults k.old) (K.faults k.new)) }
    ensures never_falls { K.faults k.old ≤ K.faults k.new }
    ensures named { K.name k.new ≡ K.name k.old }
{
    put_file(k, n)
}

/// Writes the file of a ring, section by section.
fn put_file<K: Sink>(k: &mut K, n: u32) -> Result<(), Failed>
    ensures { Writes (shown K.taken K.faults K.name k.old) (whole_text n) result (shown K.taken K.faults K.name k.new) }
{
    put_variables(k, n)?;
    put_noop(k, n)?;
    put_reboots(k, n)?;
    put_reward(k, n)?;
    put(k, b"discount 0.95\ntolerance 0.1\n")
}

/// Writes the variables, one for each machine.
fn put_variables<K: Sink>(k: &mut K, n: u32) -> Result<(), Failed>
    ensures { Writes (shown K.taken K.faults K.name k.old) (variables_text n) result (shown K.taken K.faults K.name k.new) }
{
    put(k, b"(variables")?;
    put_each_variable(k, n)?;
    put(k, b")\n")
}

fn put_each_variable<K: Sink>(k: &mut K, n: u32) -> Result<(), Failed>
    ensures { Writes (shown K.taken K.faults K.name k.old) (flat_map variable_text (numbers_below n)) result (shown K.taken K.faults K.name k.new) }
{
    for i in 0..n {
        put_variable(k, n, i)?;
    }
    Ok(())
}

/// Writes the reward: one for each machine that is up.
fn put_reward<K: Sink>(k: &mut K, n: u32) -> Result<(), Failed>
    ensures { Writes (shown K.taken K.faults K.name k.old) (reward_text n) result (shown K.taken K.faults K.name k.new) }
{
    put(k, b"reward [+")?;
    put_each_part(k, n)?;
    put(k, b"]\n")
}

fn put_each_part<K: Sink>(k: &mut K, n: u32) -> Result<(), Failed>
    ensures { Writes (shown K.taken K.faults K.name k.old) (flat_map part_text (numbers_below n)) result (shown K.taken K.faults K.name k.new) }
{
    for i in 0..n {
        put_part(k, n, i)?;
    }
    Ok(())
}
