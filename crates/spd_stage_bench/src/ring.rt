//! The model: a ring of machines.

ghost use Rattle.std.specs.Prelude.{◌<◌, ◌≤◌};

use crate::fault::BenchError;
use spd_model::Model;
use spd_reader::read_model;
use std::alloc::{AllocError, Global};
use std::fmt::Write;

/// How many machines there are.
const MACHINES: u32 = 16;

/// The table of a machine that takes over another one's state.
fn put_table(text: &mut String, machine: u32, other: u32) -> Result<(), AllocError> {
    writeln!(
        text,
        "m{machine} (m{other} (up (m{machine}' (up (1)) (down (0)))) (down (m{machine}' (up (0)) (down (1)))))"
    )
}

/// The tables of all machines: each takes over the state of the one before, and the first that of the last.
fn put_tables(text: &mut String) -> Result<(), AllocError> {
    put_table(text, 0, MACHINES - 1)?;
    for machine in 1..MACHINES {
        put_table(text, machine, machine - 1)?;
    }
    Ok(())
}

/// The reward: machine i is worth 2^i units of 10^-9 while it is up.
fn put_reward(text: &mut String) -> Result<(), AllocError> {
    write!(text, "reward [+")?;
    for machine in 0..MACHINES {
        let worth: u64 = 1 << machine;
        write!(text, " (m{machine} (up ({worth}e-9)) (down (0)))")?;
    }
    writeln!(text, "]")
}

/// The ring's file.
fn put_file(text: &mut String) -> Result<(), AllocError> {
    write!(text, "(variables")?;
    for machine in 0..MACHINES {
        write!(text, " (m{machine} up down)")?;
    }
    writeln!(text, ")\naction turn")?;
    put_tables(text)?;
    writeln!(text, "endaction")?;
    put_reward(text)?;
    writeln!(text, "discount 0.5\ntolerance 1")
}

/// The ring.
pub fn ring(alloc: Global) -> Result<Model, BenchError> {
    let mut text = String::new(alloc);
    put_file(&mut text)?;
    let bytes = text.as_str().as_bytes();
    if bytes.len() > 4_000_000 {
        return Err(BenchError::Unread);
    }
    match read_model(alloc, bytes) {
        Ok(model) => Ok(model),
        Err(_) => Err(BenchError::Unread),
    }
}
