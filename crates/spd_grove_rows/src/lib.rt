//! Tests of forests over one table that several threads fill at once.
#![tactic(auto)]

#[cfg(test)]
mod beside;
#[cfg(test)]
mod filling;
#[cfg(test)]
mod jobs;
#[cfg(test)]
mod meeting;
#[cfg(test)]
mod running;
