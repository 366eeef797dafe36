//! Tests of the ground of diagrams: forests for one thread, the machine that makes each key once, and memos.
#![tactic(auto)]

#[cfg(test)]
mod forests;
#[cfg(test)]
mod machine;
#[cfg(test)]
mod memos;
