//! Variables, and the numbers of their tests.

ghost use Rattle.std.specs.Prelude.{◌≡◌, ℕ, ◌+◌, ◌-◌, ◌*◌, ◌<◌, ◌≤◌, ◌↔◌, length, slice_index, take, IfOk, IsTrue, List, Bool};
ghost use Rattle.spd_nodes.specs.Levels.{levels_of, slots, level_at, after, IsTestOf};
ghost use Rattle.spd_nodes.specs.Limits.{IsLayout};

use std::alloc::{AllocError, Global};
use std::marker::Model;

/// The number of a test.
#[derive(Clone, Copy, Debug, PartialEq, Eq)]
pub struct Level(pub u16);

/// Each variable's number of values, in file order, with the levels of the tests.
///
/// A variable with d values has d - 1 tests, "is it value j?" for j from 0 to d - 2. For each variable in file order come
/// its primed tests in order of j, then its plain ones. Levels are numbered from 0 in this order. A variable with one value
/// has no test. Contracts see the list of the numbers of values.
#[derive(Drop)]
pub struct Layout {
    sizes: Vec<u8>,
}

impl Model for Layout {
    ghost Value = { List ℕ };

    ghost view = { λ l. l.sizes.items };

    ghost invariant = { λ l. IsLayout l.sizes.items };
}

impl Layout {
    /// Whether variables with these numbers of values have a layout: 1 to 100 variables of 1 to 64 values, with at most 256
    /// tests of either kind.
    pub fn fits(sizes: &[u8]) -> bool
        ensures { IsTrue result ↔ IsLayout sizes.now }
    {
        if sizes.is_empty() || sizes.len() > 100 {
            return false;
        }
        let mut tests: u16 = 0;
        for size in sizes {
            if *size == 0 || *size > 64 {
                return false;
            }
            tests += *size as u16 - 1;
        }
        tests <= 256
    }

    /// The layout of variables with these numbers of values, as `fits` tests them. It fails only for want of memory.
    pub fn new(alloc: Global, sizes: &[u8]) -> Result<Layout, AllocError>
        requires { IsLayout sizes.now }
        ensures { IfOk result (λ l. l ≡ sizes.now) }
    {
        Ok(Layout {
            sizes: sizes.to_vec(alloc)?,
        })
    }

    /// Each variable's number of values.
    pub fn sizes(&self) -> &[u8]
        ensures sizes { result.now ≡ self.now }
        ensures layout { IsLayout self.now }
    {
        self.sizes.as_slice()
    }

    /// The level of the test of a variable's value, which isn't its last one. No other test has it.
    pub fn level(&self, var: u32, primed: bool, value: u8) -> Level
        requires var { var < length self.now }
        requires value { value + 1 < slice_index self.now var }
        ensures level { result.0 ≡ level_at self.now var primed value }
        ensures only { (v : ℕ) (p : Bool) (x : ℕ) → IsTestOf self.now result.0 v p x → (v ≡ var) × (p ≡ primed) × (x ≡ value) }
        ensures within { result.0 < levels_of (slots self.now) }
    {
        Level(level_in(self.sizes(), var as usize, primed, value))
    }

    /// The number of the first test of a variable's next value (primed) or present one, and the number after its last test.
    /// They are equal for a variable with one value, which has no test.
    pub fn tests(&self, var: u32, primed: bool) -> (u16, u16)
        requires { var < length self.now }
        ensures first { result.0 ≡ level_at self.now var primed 0 }
        ensures end { result.1 ≡ result.0 + (slice_index self.now var - 1) }
        ensures within { result.1 ≤ levels_of (slots self.now) }
    {
        let sizes = self.sizes();
        let tests = sizes[var as usize] as u16 - 1;
        let first = first_in(sizes, var as usize, primed);
        (first, first + tests)
    }

    /// The first level after all tests of a level's variable and kind.
    pub fn end(&self, level: Level) -> u16
        requires { level.0 < levels_of (slots self.now) }
        ensures end { result ≡ after (slots self.now) level.0 }
        ensures within { result ≤ levels_of (slots self.now) }
    {
        let (var, primed, _) = self.what(level);
        let (_, end) = self.tests(var, primed);
        end
    }

    /// Which variable a level tests, whether it is the variable's next value (primed), and which value it asks for.
    pub fn what(&self, level: Level) -> (u32, bool, u8)
        requires { level.0 < levels_of (slots self.now) }
        ensures { IsTestOf self.now level.0 result.0 result.1 result.2 }
    {
        test_at(self.sizes(), level.0)
    }
}

/// The number of levels of the variables before one.
fn levels_before(sizes: &[u8], var: usize) -> u16
    requires layout { IsLayout sizes.now }
    requires var { var < length sizes.now }
    ensures before { result ≡ 2 * levels_of (take var sizes.now) }
{
    let mut before = 0;
    for i in 0..var {
        before += 2 * (sizes[i] as u16 - 1);
    }
    before
}

/// The number of the first test of a variable's next or present value.
fn first_in(sizes: &[u8], var: usize, primed: bool) -> u16
    requires layout { IsLayout sizes.now }
    requires var { var < length sizes.now }
    ensures first { result ≡ level_at sizes.now var primed 0 }
    ensures room { result + (slice_index sizes.now var - 1) ≤ levels_of (slots sizes.now) }
    ensures levels { levels_of (slots sizes.now) ≤ 512 }
    ensures size { 0 < slice_index sizes.now var }
{
    let before = levels_before(sizes, var);
    if primed {
        before
    } else {
        before + (sizes[var] as u16 - 1)
    }
}

/// The number of the test of a variable's value.
fn level_in(sizes: &[u8], var: usize, primed: bool, value: u8) -> u16
    requires layout { IsLayout sizes.now }
    requires var { var < length sizes.now }
    requires value { value + 1 < slice_index sizes.now var }
    ensures level { result ≡ level_at sizes.now var primed value }
    ensures within { result < levels_of (slots sizes.now) }
{
    first_in(sizes, var, primed) + value as u16
}

/// The test of a level.
fn test_at(sizes: &[u8], level: u16) -> (u32, bool, u8)
    requires layout { IsLayout sizes.now }
    requires level { level < levels_of (slots sizes.now) }
    ensures { IsTestOf sizes.now level result.0 result.1 result.2 }
{
    let mut rest = level;
    for var in 0..sizes.len() {
        let tests = sizes[var] as u16 - 1;
        if rest < tests {
            return (var as u32, true, rest as u8);
        }
        if rest < 2 * tests {
            return (var as u32, false, (rest - tests) as u8);
        }
        rest -= 2 * tests;
    }
    unreachable!()
}
