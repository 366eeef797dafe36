//! A board on which one writer publishes numbered items, and readers in other threads take the newest.
//!
//! `spd_board` stands on `left_right`: `open_board` makes the writer and all readers, `Writer::publish` shows the next item, and
//! `Reader::latest` answers a published item that is never older than one that this reader answered before, without waiting. What
//! holds between any two steps of any threads is `IsBoard`.
#![tactic(auto)]

mod item;
mod open;
mod reader;
mod rule;
mod writer;

pub use item::Numbered;
pub use open::open_board;
pub use reader::Reader;
use std::alloc::AllocError;
pub use writer::Writer;

/// Memory was wanted and not found.
pub type Memory = AllocError;
