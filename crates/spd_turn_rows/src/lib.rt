//! Tests of turns and of runs of turns on a model of two states, whose turns are worked out by hand.
#![tactic(auto)]

#[cfg(test)]
mod runs;
#[cfg(test)]
mod told;
