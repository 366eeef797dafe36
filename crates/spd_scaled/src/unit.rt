//! Decimals as whole numbers of a unit.

ghost use Rattle.std.specs.Prelude.{◌≡◌, ℕ, ◌*◌, ◌<◌, ◌≤◌, ◌^◌, ◌⊎◌, ℤ, pos, IfOk};
ghost use Rattle.spd_scaled.specs.declared.decimal.Decimal.{Decimal as DecimalValue};
ghost use Rattle.spd_scaled.specs.Scaled.{IsWithin};
ghost use Rattle.spd_scaled.specs.Units.{units_text};
ghost use Rattle.spd_scaled.specs.Decimal.{Writes, IsScaled, AreUnits, with_sign};
ghost use Rattle.spd_scaled.specs.DecimalReading.{limited, divided_by, units_from, signed_step, scaled_of};

use crate::decimal::{Decimal, Scale};

/// The most units: 10^30.
const MOST: u128 = 1_000_000_000_000_000_000_000_000_000_000;

/// So many units, where they are at most 10^30.
fn limited(units: u128) -> Result<u128, Scale>
    ensures { result ≡ limited units }
{
    if units <= MOST {
        Ok(units)
    } else {
        Err(Scale::TooLarge)
    }
}

/// `digits * 10^power` units.
fn multiplied(digits: u128, power: u128) -> Result<u128, Scale>
    requires { 0 < digits }
    ensures { result ≡ limited (digits * 10 ^ power) }
{
    if power > 30 {
        return Err(Scale::TooLarge);
    }
    let factor = 10u128.pow(power as u32);
    if digits > MOST / factor {
        return Err(Scale::TooLarge);
    }
    Ok(digits * factor)
}

/// `digits / 10^power` units, where they are whole.
fn divided(digits: u128, power: u128) -> Result<u128, Scale>
    requires { 0 < digits }
    ensures { result ≡ divided_by digits power }
{
    if power > 38 {
        return Err(Scale::TooFine);
    }
    let divisor = 10u128.pow(power as u32);
    if digits % divisor != 0 {
        return Err(Scale::TooFine);
    }
    limited(digits / divisor)
}

/// `digits * 10^-places` in units of 10^-unit.
fn units(digits: u128, places: i128, unit: u8) -> Result<u128, Scale>
    requires { unit ≤ 12 }
    ensures value { result ≡ units_from unit digits places }
    ensures bound { IfOk result (λ n. n ≤ 10 ^ 30) }
{
    if digits == 0 {
        return Ok(0);
    }
    if places < -30 {
        return Err(Scale::TooLarge);
    }
    let finer = places - unit as i128;
    if finer > 0 {
        divided(digits, finer.unsigned_abs())
    } else {
        multiplied(digits, finer.unsigned_abs())
    }
}

fn signed(negative: bool, units: u128) -> i128
    requires { units ≤ 10 ^ 30 }
    ensures { result ≡ with_sign negative units }
{
    if negative {
        -(units as i128)
    } else {
        units as i128
    }
}

fn scaled(d: &Decimal, places: u8) -> Result<i128, Scale>
    requires { places ≤ 12 }
    ensures { result ≡ signed_step d.now.negative (units_from places d.now.digits d.now.places) }
{
    let units = units(d.digits, d.places, places)?;
    Ok(signed(d.negative, units))
}

/// A decimal in units of 10^-places, of which there are at most 10^30 above or below zero. `TooFine`
/// comes exactly where it is no whole number of units, and `TooLarge` exactly where it is one and its
/// magnitude passes 10^30.
pub fn scale(d: &Decimal, places: u8) -> Result<i128, Scale>
    requires { places ≤ 12 }
    ensures reads { result ≡ scaled_of places d.now }
    ensures told { IsScaled places d.now result }
    ensures whole { (n : ℕ) → AreUnits places n d.now.digits d.now.places → result ≡ signed_step d.now.negative (limited n) }
{
    scaled(d, places)
}

/// What `put_units` writes is read back: `read_decimal` gives a decimal that `scale` turns into the
/// same number, where its magnitude is at most 10^30.
pub fn law_read_back()
    ensures { (places : ℕ) (n : ℤ) → (places ≡ 9) ⊎ (places ≡ 12) → IsWithin (pos (10 ^ 30)) n
        → (d : DecimalValue) × Writes (units_text places n) d × IsScaled places d (Ok n) }
{}
