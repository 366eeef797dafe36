//! Tests of the ring: the bytes of its file.
#![tactic(auto)]

#[cfg(test)]
mod files;
