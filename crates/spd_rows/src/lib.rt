//! Tests that cross crates: words and model files in, result texts, statuses and messages out.
#![tactic(auto)]

#[cfg(test)]
mod certificates;
#[cfg(test)]
mod changed_heads;
#[cfg(test)]
mod changed_values;
#[cfg(test)]
mod command;
#[cfg(test)]
mod files;
#[cfg(test)]
mod limits;
#[cfg(test)]
mod meeting;
#[cfg(test)]
mod outside;
#[cfg(test)]
mod refused;
#[cfg(test)]
mod rings;
#[cfg(test)]
mod solved;
#[cfg(test)]
mod tables;
#[cfg(test)]
mod texts;
#[cfg(test)]
mod words;
