//! Tests of the stages of solving on diagrams: building a process's parts and backing up a value, compared with the definitions on plain
//! tables.
#![tactic(auto)]

#[cfg(test)]
mod backing;
#[cfg(test)]
mod building;
#[cfg(test)]
mod expected;
#[cfg(test)]
mod limits;
#[cfg(test)]
mod models;
#[cfg(test)]
mod parts;
#[cfg(test)]
mod prepared;
#[cfg(test)]
mod values;
#[cfg(test)]
mod wanted;
