//! The scales of the rules.

/// One, as a probability: probabilities count in units of 10^-12.
pub(crate) const ONE: i128 = 1_000_000_000_000;

/// One, as a discount: discounts count in units of 10^-6.
pub(crate) const DISCOUNT_ONE: i128 = 1_000_000;

/// The greatest magnitude of a reward, in units of 10^-9.
pub(crate) const REWARD_LIMIT: u128 = 1_000_000_000_000_000_000;
