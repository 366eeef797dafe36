//! The syntax of a model file: what is written where, and the first fault of what isn't a file.
//!
//! `spd_syntax` reads the tokens of a model file as its grammar says: the variables, and the sections with their trees, each
//! name as the place of its word, each number in its units. No name is understood yet. What isn't written so is refused with its
//! first fault. The grammar is a relation by cases, the first fault follows from a table of what may stand where, and laws say
//! that for each file just one of the two holds, for just one file read or one fault. `spd_reader` understands its names.
#![tactic(auto)]

mod file;
mod laws;
mod numbers;
mod reader;
mod refusal;
mod sections;
mod syntax;
mod trees;
mod unread;
mod variables;
mod words;

pub use file::{Branch, Counts, File, Item, Quantity, Section, Shape, Variable, Word};
pub use laws::{law_accepted, law_front, law_once, law_written};
pub use refusal::{Refusal, Want, What};
pub use sections::{ItemWord, SectionWord};
pub use syntax::read_syntax;
pub use unread::Unread;
pub use words::text_of;
