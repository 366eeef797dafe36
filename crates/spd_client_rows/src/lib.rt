//! Tests of what clients are told: frozen diagrams, the board under threads, and the answers to lines.
#![tactic(auto)]

#[cfg(test)]
mod board;
#[cfg(test)]
mod lines;
#[cfg(test)]
mod models;
#[cfg(test)]
mod summary;
#[cfg(test)]
mod tables;
