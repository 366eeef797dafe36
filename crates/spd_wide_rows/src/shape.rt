//! The widest layout: its variables, the states that lead to each of its tests, and which test holds first at a state.
ghost use Rattle.std.specs.Prelude.{◌<◌, ◌≤◌};

use spd_nodes::Layout;
use std::alloc::Global;
use std::test::Fail;

/// How many variables there are: as many as the limits allow.
pub const VARIABLES: usize = 100;

/// How many tests there are of present and of next values together: as many as the limits allow.
pub const LEVELS: u16 = 512;

/// The values of a state.
pub type Values = [u8; VARIABLES];

/// How many tests a variable has of its present value, and of its next one: one less than it has values. The first and the last variable
/// have 64 values, 16 have 4 and 82 have 2, so that there are 63 + 16 * 3 + 82 + 63 = 256 tests of either kind.
pub fn tests_of(var: usize) -> u8
    ensures { result ≤ 63 }
{
    match var {
        0 | 99 => 63,
        1..=16 => 3,
        _ => 1,
    }
}

/// Each variable's number of values.
pub fn sizes() -> Values {
    let mut sizes = [0; VARIABLES];
    for (var, size) in sizes.iter_mut().enumerate() {
        *size = tests_of(var) + 1;
    }
    sizes
}

/// The widest layout.
pub fn layout(alloc: Global) -> Result<Layout, Fail> {
    let sizes = sizes();
    if !Layout::fits(&sizes) {
        return Err(Fail::new("no layout"));
    }
    Ok(Layout::new(alloc, &sizes)?)
}

/// The last state: each variable has its last value, so that no test holds.
pub fn last_state() -> Values {
    let mut state = [0; VARIABLES];
    for (var, value) in state.iter_mut().enumerate() {
        *value = tests_of(var);
    }
    state
}

/// A present and a next state.
#[derive(Clone, Copy, Debug)]
pub struct Point {
    pub present: Values,
    pub next: Values,
}

/// The present and the next state at which of all tests that of a level alone holds, and none where there is no such level.
pub fn point_of(level: u16) -> Point {
    let mut point = Point {
        present: last_state(),
        next: last_state(),
    };
    let mut rest = level;
    for var in 0..VARIABLES {
        let tests = u16::from(tests_of(var));
        if rest < tests {
            point.next[var] = rest as u8;
            return point;
        }
        if rest < 2 * tests {
            point.present[var] = (rest - tests) as u8;
            return point;
        }
        rest -= 2 * tests;
    }
    point
}

/// How many tests there are before the first one that holds at a present and a next state, in the order of levels: all of them where none
/// holds.
pub fn tests_before(point: &Point) -> u16
    ensures { result ≤ 12600 }
{
    let mut before: u16 = 0;
    for var in 0..VARIABLES {
        let tests = tests_of(var);
        if point.next[var] < tests {
            return before + u16::from(point.next[var]);
        }
        if point.present[var] < tests {
            return before + u16::from(tests) + u16::from(point.present[var]);
        }
        before += 2 * u16::from(tests);
    }
    before
}
