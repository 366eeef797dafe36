//! The reader of model files: bytes in, a model or the first fault out.
//!
//! `spd_reader` understands the names of a file whose syntax was read: the variable, value or decision diagram that each stands
//! for, and whether the rules of names hold. A file without a fault describes a model, which is lawful. Of all faults of names
//! the one at the least place is told, and at one place the first of the list of kinds. Each name is looked up in a map, and what
//! a use of a decision diagram asks is kept once for each. Laws say that each file is read as just one model or refused for just
//! one reason. `spd_solver` reads its model file with it.
#![tactic(auto)]

mod actions;
mod dd;
mod facts;
mod faults;
mod index;
mod laws;
mod lookups;
mod names;
mod places;
mod purpose;
mod reader;
mod said;
mod sections;
mod tables;
mod trees;
mod variables;

pub use laws::{law_decided, law_lawful};
pub use purpose::Purpose;
pub use reader::read_model;
