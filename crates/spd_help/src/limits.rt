//! What a person is told of a run that a limit ended, and of one that goes on.
ghost use Rattle.std.specs.Prelude.{◌≤◌, ◌^◌, ◌*◌};

use crate::screen::Screen;
use crate::sums::trimmed;
use itoa::Buffer;
use spd_scaled::put_units;
use std::alloc::AllocError;

/// One, in units of 10^-18.
const ONE: u128 = 1_000_000_000_000_000_000;

/// The greatest number of nodes that an option can allow.
const MOST_NODES: u32 = 8_388_608;

/// What a model says of when its runs end.
#[derive(Clone, Copy, PartialEq, Eq, Debug)]
pub struct Goal {
    /// In units of 10^-6, below 10^6.
    pub discount: u32,
    /// In units of 10^-9, from 0 to 10^30.
    pub tolerance: i128,
}

impl Goal {
    /// The greatest residual that meets the stop rule, in units of 10^-9: tolerance * (1 - discount) / 2.
    pub fn residual(self) -> i128 {
        let left = 1_000_000 - self.discount.min(1_000_000);
        self.tolerance.max(0).saturating_mul(left as i128) / 2_000_000
    }
}

/// The discount to the power of 2^squarings, in units of 10^-18. The discount is in units of 10^-6.
fn power(discount: u32, squarings: u32) -> u64
    ensures { result ≤ 10 ^ 18 }
{
    let mut power = discount.min(1_000_000) as u64 * 1_000_000_000_000;
    for _ in 0..squarings {
        power = ((power as u128) * (power as u128) / ONE).min(ONE) as u64;
    }
    power
}

/// After how many turns a residual is expected to be at most another one, where each turn takes it times the discount: `None` past a million.
/// The residuals are in units of 10^-9.
pub fn turns_left(residual: i128, wanted: i128, discount: u32) -> Option<u32> {
    let wanted = wanted.max(0).unsigned_abs();
    // What passes 10^10 rewards counts as so much.
    let mut left = residual.clamp(0, 10_000_000_000_000_000_000) as u64;
    if left as u128 <= wanted {
        return Some(0);
    }
    let mut turns: u32 = 1;
    for exponent in (0..20).rev() {
        let shrunk = (left as u128) * (power(discount, exponent) as u128) / ONE;
        if shrunk > wanted {
            left = shrunk.min(left as u128) as u64;
            turns = turns.saturating_add(1 << exponent);
        }
    }
    if turns <= 1_000_000 {
        Some(turns)
    } else {
        None
    }
}

/// Adds a number of units of 10^-9, without the zeros behind its last place.
fn add_units(screen: &mut Screen, number: i128) -> Result<(), AllocError> {
    let mut digits = [0; 64];
    let len = put_units(number, 9, &mut digits);
    screen.add(trimmed(&digits[..len]))
}

/// Adds a whole number.
fn add_count(screen: &mut Screen, number: usize) -> Result<(), AllocError> {
    let mut digits = Buffer::new();
    screen.add(digits.format(number).as_bytes())
}

/// Adds when a run that its turn limit ended is expected to meet the stop rule. The residual is in units of 10^-9.
pub fn tell_turn_limit(
    screen: &mut Screen,
    goal: Goal,
    turns: u32,
    residual: i128,
) -> Result<(), AllocError> {
    let wanted = goal.residual();
    screen.add(b"  The stop rule asks for a residual of at most ")?;
    add_units(screen, wanted)?;
    screen.add(b".")?;
    screen.end_line()?;
    let expected = match turns_left(residual, wanted, goal.discount) {
        Some(more) => turns.saturating_add(more),
        None => u32::MAX,
    };
    if wanted > 0 && expected <= 1_000_000 {
        screen.add(b"  It is expected to be met with --turns ")?;
        add_count(screen, expected as usize)?;
        screen.add(b" or a few more; a greater tolerance is met sooner.")?;
    } else {
        screen.add(b"  No number of turns is expected to meet it: try a greater tolerance.")?;
    }
    screen.end_line()
}

/// Adds what to try where a stage has more nodes than `limit`: building, or a turn.
pub fn tell_node_limit(
    screen: &mut Screen,
    goal: Option<Goal>,
    is_turn: bool,
    limit: u32,
) -> Result<(), AllocError> {
    if limit < MOST_NODES {
        screen.add(b"  A greater limit may be enough: try --nodes ")?;
        add_count(screen, limit.saturating_mul(4).min(MOST_NODES) as usize)?;
        screen.add(b".")?;
    } else {
        screen.add(b"  This is the greatest limit that --nodes can set.")?;
    }
    screen.end_line()?;
    match goal {
        Some(goal) if is_turn && goal.residual() > 0 => {
            screen.add(
                b"  A span joins values that lie close to each other, which makes diagrams smaller: try --span ",
            )?;
            add_units(screen, goal.residual())?;
            screen.add(b".")?;
            screen.end_line()
        }
        _ => Ok(()),
    }
}

/// Adds how far a run has come: the turn, its residual in units of 10^-9, how many nodes its table has, and the turn at which the stop rule
/// is expected to be met.
pub fn tell_progress(
    screen: &mut Screen,
    goal: Goal,
    turn: u32,
    residual: i128,
    nodes: usize,
) -> Result<(), AllocError> {
    screen.add(b"turn ")?;
    add_count(screen, turn as usize)?;
    screen.add(b", residual ")?;
    let mut digits = [0; 64];
    let len = put_units(residual, 9, &mut digits);
    screen.add(&digits[..len])?;
    screen.add(b", ")?;
    add_count(screen, nodes)?;
    screen.add(b" nodes")?;
    let wanted = goal.residual();
    match turns_left(residual, wanted, goal.discount) {
        Some(more) if wanted > 0 => {
            screen.add(b", done at about turn ")?;
            add_count(screen, turn.saturating_add(more) as usize)
        }
        _ => Ok(()),
    }
}
