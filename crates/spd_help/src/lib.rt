//! What a person at a terminal is told behind a message.
//!
//! `spd_help` writes it from the message's data and the file's bytes. All of it goes onto a `Screen`, which holds printable bytes and ends of
//! lines alone, so that nothing that stands in a file can steer a terminal. `tell_refusal` and `tell_sum` show the line of a byte with a caret
//! below it and what would mend it, `tell_cert_refusal` that of a certificate, `tell_other_model` which model file one names, `tell_no` what it
//! means that one doesn't hold, `tell_usage` which word can't stand, `tell_system` the system's reason, `tell_turn_limit` and
//! `tell_node_limit` what to try, `tell_progress` how far a run is. `show` writes a screen to a terminal, and nothing to anything else;
//! `Remembering` is a place that remembers what was read.
#![tactic(auto)]

mod certificate;
mod expected;
mod limits;
mod names;
mod nearest;
mod place;
mod quantity;
mod refusal;
mod remembering;
mod screen;
mod source;
mod sums;
mod system;
mod terminal;
mod usage;

pub use certificate::{tell_cert_refusal, tell_no, tell_other_model};
pub use limits::{Goal, tell_node_limit, tell_progress, tell_turn_limit, turns_left};
pub use place::{Line, add_place, line_at};
pub use refusal::tell_refusal;
pub use remembering::{Remembering, RememberingIn};
pub use screen::Screen;
pub use sums::tell_sum;
pub use system::tell_system;
pub use terminal::show;
pub use usage::tell_usage;
