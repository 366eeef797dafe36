//! The actions of a ring.
ghost use Rattle.std.specs.Prelude.{◌<◌, flat_map, Some, None};
ghost use Rattle.spd_model.specs.Numbers.{numbers_below};
ghost use Rattle.spd_gen.specs.Ring.{table_line, tables_text, noop_text, reboot_text};
ghost use Rattle.spd_gen.specs.inner.Pieces.{shown, Writes};

use crate::machine::{put_fix, put_keep};
use crate::pieces::{put, put_all};
use itoa::Buffer;
use spd_edge::{Failed, Sink};

/// Writes the tables of all machines in order, where one machine may be rebooted.
fn put_tables<K: Sink>(k: &mut K, n: u32, rebooted: Option<u32>) -> Result<(), Failed>
    ensures { Writes (shown K.taken K.faults K.name k.old) (tables_text n rebooted) result (shown K.taken K.faults K.name k.new) }
{
    for i in 0..n {
        put_table(k, n, rebooted, i)?;
    }
    Ok(())
}

/// Writes the table of machine i.
fn put_table<K: Sink>(k: &mut K, n: u32, rebooted: Option<u32>, i: u32) -> Result<(), Failed>
    requires { i < n }
    ensures { Writes (shown K.taken K.faults K.name k.old) (table_line n rebooted i) result (shown K.taken K.faults K.name k.new) }
{
    match rebooted {
        Some(machine) => {
            if machine == i {
                put_fix(k, n, i)
            } else {
                put_keep(k, n, i)
            }
        }
        None => put_keep(k, n, i),
    }
}

/// Writes the action that lets all machines go on by themselves.
pub(crate) fn put_noop<K: Sink>(k: &mut K, n: u32) -> Result<(), Failed>
    ensures { Writes (shown K.taken K.faults K.name k.old) (noop_text n) result (shown K.taken K.faults K.name k.new) }
{
    put(k, b"action noop\n")?;
    put_tables(k, n, None)?;
    put(k, b"endaction\n")
}

/// Writes the actions that each reboot one machine, in order.
pub(crate) fn put_reboots<K: Sink>(k: &mut K, n: u32) -> Result<(), Failed>
    ensures { Writes (shown K.taken K.faults K.name k.old) (flat_map (reboot_text n) (numbers_below n)) result (shown K.taken K.faults K.name k.new) }
{
    for i in 0..n {
        put_reboot(k, n, i)?;
    }
    Ok(())
}

/// Writes the action that reboots machine i.
fn put_reboot<K: Sink>(k: &mut K, n: u32, i: u32) -> Result<(), Failed>
    requires { i < n }
    ensures { Writes (shown K.taken K.faults K.name k.old) (reboot_text n i) result (shown K.taken K.faults K.name k.new) }
{
    let mut digits = Buffer::new();
    let machine = digits.format(i + 1).as_bytes();
    put_all(k, &[b"action reboot", machine, b"\n"])?;
    put_tables(k, n, Some(i))?;
    put(k, b"cost (0.75)\nendaction\n")
}
