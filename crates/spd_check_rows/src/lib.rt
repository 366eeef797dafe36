//! Tests of the verdicts on certificates: of results of solving, and of certificates made by hand.
#![tactic(auto)]

#[cfg(test)]
mod faults;
#[cfg(test)]
mod machine;
#[cfg(test)]
mod made;
#[cfg(test)]
mod models;
#[cfg(test)]
mod reading;
#[cfg(test)]
mod solved;
#[cfg(test)]
mod texts;
