//! The words of a command: which command they are, or the first word that can't stand.
//!
//! `spd_words` reads the words of the ten commands, and takes no memory. The grammar stands in `specs/`: the words behind the command
//! are pieces (operands, options and their values, `Pieces`), each of which can stand behind those before it or not (`Standing`); they
//! say a command where all can stand (`Commands`). `read_words` answers that command, or the first word that can't stand.
#![tactic(auto)]

mod command;
mod expects;
mod fault;
mod given;
mod places;
mod said;
mod text;
mod value;
mod verb;
mod words;

pub use command::{Command, Pair, Pairs};
pub use fault::WordsFault;
pub use text::text_at;
pub use words::{law_one_answer, read_words};
