//! Tests of the calls that read what the program is given: the outside, numbers, tokens, the syntax and the names of model files, and the
//! words of commands.
#![tactic(auto)]

#[cfg(test)]
mod commands;
#[cfg(test)]
mod decimals;
#[cfg(test)]
mod edges;
#[cfg(test)]
mod models;
#[cfg(test)]
mod numbers;
#[cfg(test)]
mod syntax;
#[cfg(test)]
mod tokens;
