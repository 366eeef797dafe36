//! Tests of the stages of solving at the widest layout that the limits allow: 100 variables with 256 tests of either kind, and diagrams
//! that test each level. Each answer is compared with a closed formula, and each call is refused at its steps in forests with less room
//! than it wants.
#![tactic(auto)]

#[cfg(test)]
mod chain;
#[cfg(test)]
mod lists;
#[cfg(test)]
mod models;
#[cfg(test)]
mod numbers;
#[cfg(test)]
mod room;
#[cfg(test)]
mod shape;
#[cfg(test)]
mod stages;
#[cfg(test)]
mod summing;
