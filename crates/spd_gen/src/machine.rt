//! What is written of one machine. A machine's number counts from 0, and its name from 1.
ghost use Rattle.std.specs.Prelude.{◌≡◌, ◌<◌};
ghost use Rattle.spd_gen.specs.Ring.{left_of, variable_text, part_text, keep_line, fix_line};
ghost use Rattle.spd_gen.specs.inner.Pieces.{shown, Writes};
ghost use Rattle.spd_gen.specs.inner.Lines.{keep_of, fix_of};

use crate::pieces::put_all;
use itoa::Buffer;
use spd_edge::{Failed, Sink};

/// The machine on the left of machine i in a ring of n. On the left of the first one is the last one.
pub(crate) fn left_of(n: u32, i: u32) -> u32
    requires { i < n }
    ensures neighbour { result ≡ left_of n i }
    ensures within { result < n }
{
    if i == 0 { n - 1 } else { i - 1 }
}

/// Writes the variable of machine i, behind a space.
pub(crate) fn put_variable<K: Sink>(k: &mut K, n: u32, i: u32) -> Result<(), Failed>
    requires { i < n }
    ensures { Writes (shown K.taken K.faults K.name k.old) (variable_text i) result (shown K.taken K.faults K.name k.new) }
{
    let mut digits = Buffer::new();
    let machine = digits.format(i + 1).as_bytes();
    put_all(k, &[b" (m", machine, b" up down)"])
}

/// Writes the part of the reward for machine i, behind a space.
pub(crate) fn put_part<K: Sink>(k: &mut K, n: u32, i: u32) -> Result<(), Failed>
    requires { i < n }
    ensures { Writes (shown K.taken K.faults K.name k.old) (part_text i) result (shown K.taken K.faults K.name k.new) }
{
    let mut digits = Buffer::new();
    let machine = digits.format(i + 1).as_bytes();
    put_all(k, &[b" (m", machine, b" (up (1)) (down (0)))"])
}

/// Writes the line of machine i of n where it goes on by itself.
pub(crate) fn put_keep<K: Sink>(k: &mut K, n: u32, i: u32) -> Result<(), Failed>
    requires { i < n }
    ensures { Writes (shown K.taken K.faults K.name k.old) (keep_line n i) result (shown K.taken K.faults K.name k.new) }
{
    let mut digits = Buffer::new();
    let machine = digits.format(i + 1).as_bytes();
    let mut left_digits = Buffer::new();
    let left = left_digits.format(left_of(n, i) + 1).as_bytes();
    put_keep_of(k, machine, left)
}

/// Writes the line of the machine of this number where it goes on by itself beside the one on its left.
fn put_keep_of<K: Sink>(k: &mut K, machine: &[u8], left: &[u8]) -> Result<(), Failed>
    ensures { Writes (shown K.taken K.faults K.name k.old) (keep_of machine.now left.now) result (shown K.taken K.faults K.name k.new) }
{
    let pieces: [&[u8]; 13] = [
        b"m",
        machine,
        b" (m",
        machine,
        b" (up (m",
        left,
        b" (up (m",
        machine,
        b"' (up (0.9)) (down (0.1)))) (down (m",
        machine,
        b"' (up (0.6)) (down (0.4)))))) (down (m",
        machine,
        b"' (up (0.1)) (down (0.9)))))\n",
    ];
    put_all(k, &pieces)
}

/// Writes the line of machine i where it is rebooted.
pub(crate) fn put_fix<K: Sink>(k: &mut K, n: u32, i: u32) -> Result<(), Failed>
    requires { i < n }
    ensures { Writes (shown K.taken K.faults K.name k.old) (fix_line i) result (shown K.taken K.faults K.name k.new) }
{
    let mut digits = Buffer::new();
    let machine = digits.format(i + 1).as_bytes();
    put_fix_of(k, machine)
}

/// Writes the line of the machine of this number where it is rebooted.
fn put_fix_of<K: Sink>(k: &mut K, machine: &[u8]) -> Result<(), Failed>
    ensures { Writes (shown K.taken K.faults K.name k.old) (fix_of machine.now) result (shown K.taken K.faults K.name k.new) }
{
    put_all(
        k,
        &[b"m", machine, b" (m", machine, b"' (up (1)) (down (0)))\n"],
    )
}
