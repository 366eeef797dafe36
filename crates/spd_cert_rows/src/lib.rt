//! Tests of certificates: which texts are read, as what, and at which byte every other one is refused.
#![tactic(auto)]

#[cfg(test)]
mod changes;
#[cfg(test)]
mod reading;
#[cfg(test)]
mod refused;
#[cfg(test)]
mod texts;
#[cfg(test)]
mod written;
