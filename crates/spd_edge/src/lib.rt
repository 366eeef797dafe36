//! All that the program knows of the outside: a [`Source`] gives bytes, a [`Sink`] takes them, and a [`Place`] opens inputs and outputs
//! by their names, each with its counts of faults.
//!
//! Where a source tells what it has left, a sink what it took and a place what it holds, contracts speak of those bytes. Over memory
//! ([`MemIn`], [`MemOut`], [`MemPlace`]) all of them do. [`RealPlace`] with [`FileIn`], [`FileOut`], [`StdIn`], [`StdOut`] and [`StdErr`]
//! adapts the system and tells nothing: it is the edge that is trusted.
#![tactic(auto)]

mod in_memory;
mod mem_place;
mod names;
mod openings;
mod outside;
mod real;
mod shelf;
mod streams;
mod whole;

pub use in_memory::{MemIn, MemOut};
pub use mem_place::MemPlace;
pub use outside::{Failed, Memory, Open, Opened, Place, ReadAll, Sink, Source, Stage};
pub use real::{Printed, RealPlace, Stream};
pub use streams::{FileIn, FileOut, ReaderIn, StdErr, StdIn, StdOut, WriterOut};
pub use whole::{read_all, write_all_of};
