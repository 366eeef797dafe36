//! Answers to the lines of clients.
//!
//! `spd_query` reads a line, which asks for the value at a state or for the status of a turn, and writes the one line that answers it,
//! taking no memory. The work is proportional to the line and the depth of the two diagrams.
#![tactic(auto)]

mod answering;
mod compare;
mod line;
mod names;
mod pair;
mod read;
mod text;
mod words;

pub use answering::answer;
