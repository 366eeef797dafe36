//! Numbers: what a word comes to in its units.

ghost use Rattle.std.specs.Prelude.{◌≡◌, Ok};
ghost use Rattle.spd_scaled.specs.DecimalReading.{scaled_of};
ghost use Rattle.spd_syntax.specs.Numbers.{places_of, step_of, most_of, least_of, may_be_negative, units_judged, number_of};

use crate::file::Quantity;
use crate::refusal::Refusal;
use spd_scaled::{Scale, read_decimal, scale};

fn places_of(quantity: Quantity) -> u8
    ensures { result ≡ places_of quantity }
{
    match quantity {
        Quantity::Diagram | Quantity::Table => 12,
        Quantity::Reward | Quantity::Tolerance => 9,
        Quantity::Discount => 6,
        Quantity::Horizon => 0,
    }
}

fn step_of(quantity: Quantity) -> i128
    ensures { result ≡ step_of quantity }
{
    match quantity {
        Quantity::Reward => 1000,
        _ => 1,
    }
}

fn most_of(quantity: Quantity) -> i128
    ensures { result ≡ most_of quantity }
{
    match quantity {
        Quantity::Diagram | Quantity::Table | Quantity::Tolerance => {
            1_000_000_000_000_000_000_000_000_000_000
        }
        Quantity::Reward => 1_000_000_000_000_000_000_000_000_000,
        Quantity::Discount => 999_999,
        Quantity::Horizon => 1000,
    }
}

fn least_of(quantity: Quantity) -> i128
    ensures { result ≡ least_of quantity }
{
    match quantity {
        Quantity::Reward => -1_000_000_000_000_000_000_000_000_000,
        _ => -1_000_000_000_000_000_000_000_000_000_000,
    }
}

fn may_be_negative(quantity: Quantity) -> bool
    ensures { result ≡ may_be_negative quantity }
{
    matches!(quantity, Quantity::Diagram | Quantity::Reward)
}

/// A number of units of 10^-places of this quantity.
fn judged(quantity: Quantity, at: usize, units: i128) -> Result<i128, Refusal>
    ensures { result ≡ units_judged quantity at (Ok units) }
{
    if units > most_of(quantity) || units < least_of(quantity) {
        return Err(Refusal::TooLarge { at });
    }
    if units < 0 && !may_be_negative(quantity) {
        return Err(Refusal::Negative { at });
    }
    Ok(units * step_of(quantity))
}

/// The number that a word at this place stands for, or its first fault.
#[tactic(auto, unfolding(crate::specs::Numbers::number_of))]
pub(crate) fn number_of(quantity: Quantity, at: usize, text: &[u8]) -> Result<i128, Refusal>
    ensures { result ≡ number_of quantity at text.now }
{
    let Some(decimal) = read_decimal(text) else {
        return Err(Refusal::Number { at });
    };
    match scale(&decimal, places_of(quantity)) {
        Ok(units) => judged(quantity, at, units),
        Err(Scale::TooFine) => Err(Refusal::TooFine { at }),
        Err(Scale::TooLarge) => Err(Refusal::TooLarge { at }),
    }
}
