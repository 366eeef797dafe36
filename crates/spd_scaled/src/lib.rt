//! Arithmetic of scaled numbers: whole numbers of a small unit, such as 10^-9 or 10^-12.
//!
//! `spd_scaled` divides whole numbers rounding down or up, reads decimals into whole numbers of a unit, and prints a number of
//! units. Its contracts give the exact value, and each text that it doesn't take has its cause. It carries the algebra of whole
//! numbers (products, order, magnitudes) that every proof above uses.
#![tactic(auto)]

mod decimal;
mod division;
mod text;
mod unit;

pub use decimal::{Decimal, Scale, read_decimal};
pub use division::{ceil_div, floor_div};
pub use text::put_units;
pub use unit::{law_read_back, scale};
