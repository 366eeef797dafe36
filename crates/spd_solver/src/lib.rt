//! The top call: from the words of a command and a place of files to the text of a result and a status.
//!
//! `solve_run` reads the words (`command`), the file (`file`) and the model in it, solves it (`solving`) on decision diagrams
//! (`diagrams`) or over tables (`tables`), and writes the text of its result. Of a ring it writes the file, or makes it in memory, solves it
//! as any other and writes the summary (`ring`). A certificate is read behind its model's file and judged, and its verdict is written (`checking`). Each stage has an error of its own, which becomes a status (`status`); a status has a number and a
//! message (`message`). What a command answers is defined by the kind of its end (`specs/Kind.antt`, `specs/Run.antt`) and by what the
//! command means (`specs/Command.antt`, `specs/Solve.antt`, `specs/Ring.antt`, `specs/Check.antt`): a further status is a line of the first, a further command a line of each
//! relation of the second.
#![tactic(auto)]

mod checking;
mod command;
mod diagrams;
mod file;
mod message;
mod pieces;
mod refusals;
mod ring;
mod run;
mod solving;
mod states;
mod status;
mod tables;
mod watch;

pub use file::{CERT_LIMIT, FILE_LIMIT};
pub use message::{number, write_message};
pub use run::solve_run;
pub use status::{Stage, Status};
pub use watch::Watch;
