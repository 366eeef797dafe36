//! Tests of what a person at a terminal is told: the whole text of each call, worked out by hand.
#![tactic(auto)]

#[cfg(test)]
mod certificates;
#[cfg(test)]
mod remembering;
#[cfg(test)]
mod texts;
