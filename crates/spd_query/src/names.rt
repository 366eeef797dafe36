//! The numbers of variables and values by their names.

ghost use Rattle.std.specs.Prelude.{◌≡◌, ◌<◌, ◌≤◌, length, IfSome};
ghost use Rattle.spd_query.specs.Lines.{var_number, value_number, numbers_of};
ghost use Rattle.spd_query.specs.inner.Places.{AreVars, BeginsWithPair};

use crate::pair::pair_at;
use spd_model::{Name, Var};

/// A table of names has so many slots: more than twice the variables of a model.
const SLOTS: usize = 256;

/// Which variable a word may name. What it says is only tried, and never taken for true.
#[derive(Drop)]
pub(crate) struct Hints {
    /// The variable after the one that was found last: most clients name the variables in order.
    next: usize,
    /// For each slot one more than a variable's number, or 0.
    slots: [u8; SLOTS],
    filled: bool,
}

/// In each of eight bytes the lowest bit.
const LOWEST_BITS: u64 = 0x0101_0101_0101_0101;

/// Of eight bytes, of which the first one is the lowest, those before the first `=`, and 0 in place of the others.
fn before_equals(bytes: u64) -> u64 {
    // A byte is 0 here where an `=` stands, and of the bytes that are 0 the first one is marked by its highest bit.
    let other = bytes ^ LOWEST_BITS.wrapping_mul(u64::from(b'='));
    let marks = other.wrapping_sub(LOWEST_BITS) & !other & LOWEST_BITS.wrapping_mul(0x80);
    let first = marks & marks.wrapping_neg();
    bytes & (first >> 7).wrapping_sub(1)
}

/// A text's bytes, of which the first one is the lowest: of more than eight bytes only the first eight count.
fn low_bytes(text: &[u8]) -> u64 {
    let mut bytes = 0u64;
    for byte in text.iter().rev() {
        bytes = bytes.wrapping_mul(256) | u64::from(*byte);
    }
    bytes
}

/// A hash with eight more bytes: their product with 2^64 over the golden ratio (Knuth, The Art of Computer Programming, 6.4).
fn with_bytes(hash: u64, bytes: u64) -> u64 {
    (hash ^ bytes).wrapping_mul(0x9e37_79b9_7f4a_7c15)
}

/// The slot of a hash: its high byte.
fn slot_of(hash: u64) -> usize
    ensures { result < 256 }
{
    ((hash >> 56) % 256) as usize
}

/// The slot at which a name is looked for. Its hash takes eight bytes at a time. A name ends at an `=`.
fn first_slot(name: &[u8]) -> usize
    ensures { result < 256 }
{
    let mut hash = 0u64;
    let mut rest = name;
    while let Some((eight, behind)) = rest.split_first_chunk::<8>() {
        let bytes = u64::from_le_bytes(*eight);
        let before = before_equals(bytes);
        if before != bytes {
            return slot_of(with_bytes(hash, before));
        }
        hash = with_bytes(hash, bytes);
        rest = behind;
    }
    slot_of(with_bytes(hash, before_equals(low_bytes(rest))))
}

impl Hints {
    pub(crate) fn new() -> Hints {
        Hints {
            next: 0,
            slots: [0; SLOTS],
            filled: false,
        }
    }

    /// Puts a variable into the first free slot from the one of its name on.
    fn add(&mut self, name: &[u8], number: u8) {
        let first = first_slot(name);
        for step in 0..SLOTS {
            let slot = (first + step) % SLOTS;
            if self.slots[slot] == 0 {
                self.slots[slot] = number;
                return;
            }
        }
    }

    /// Puts all variables into the table, once.
    fn fill(&mut self, vars: &[Var])
        requires { length vars.now ≤ 100 }
    {
        if self.filled {
            return;
        }
        for (number, var) in vars.iter().enumerate() {
            self.add(var.name.as_slice(), number as u8 + 1);
        }
        self.filled = true;
    }

    /// The pair that the table finds.
    fn listed<'a>(&mut self, vars: &[Var], line: &'a [u8]) -> Option<(usize, u8, &'a [u8])>
        requires { AreVars vars.now }
        ensures { IfSome result (λ r. BeginsWithPair vars.now line.now (r.0, r.1) r.2.now) }
    {
        self.fill(vars);
        let first = first_slot(line);
        for step in 0..SLOTS {
            let number = self.slots[(first + step) % SLOTS] as usize;
            if number == 0 {
                return None;
            }
            if let Some((value, behind)) = pair_at(vars, number - 1, line) {
                return Some((number - 1, value, behind));
            }
        }
        None
    }

    /// The variable and the value that the first word of a line names, and what stands behind the word, where the hints lead to them.
    pub(crate) fn pair<'a>(&mut self, vars: &[Var], line: &'a [u8]) -> Option<(usize, u8, &'a [u8])>
        requires { AreVars vars.now }
        ensures { IfSome result (λ r. BeginsWithPair vars.now line.now (r.0, r.1) r.2.now) }
    {
        let next = self.next;
        if let Some((value, behind)) = pair_at(vars, next, line) {
            self.next = next.saturating_add(1);
            return Some((next, value, behind));
        }
        let (number, value, behind) = self.listed(vars, line)?;
        self.next = number.saturating_add(1);
        Some((number, value, behind))
    }
}

/// The number of the value of this name.
fn value_number(values: &[Name], name: &[u8]) -> Option<usize>
    ensures { result ≡ value_number values.now name.now }
{
    values.iter().position(|value| value.as_slice() == name)
}

/// The number of the variable of this name.
fn var_number(vars: &[Var], name: &[u8]) -> Option<usize>
    ensures { result ≡ var_number vars.now name.now }
{
    vars.iter().position(|var| var.name.as_slice() == name)
}

/// The numbers of the variable and of its value that these names name.
pub(crate) fn numbers(vars: &[Var], name: &[u8], value: &[u8]) -> Option<(usize, u8)>
    requires { AreVars vars.now }
    ensures { result ≡ numbers_of vars.now (name.now, value.now) }
{
    let var = var_number(vars, name)?;
    let value = value_number(vars[var].values.as_slice(), value)?;
    Some((var, value as u8))
}
