//! The table of nodes that many threads fill at once, without a lock: each of its atomic steps is an event of the table machine.
//!
//! `spd_cons` is that machine in threads, over the kit's `atomic_table`: each atomic step of a call is one event of the machine,
//! so its invariant holds between any two steps of any threads, and its laws are cited and not proved again. A `Seat` is one user
//! of the table; it is used by one call at a time, which its type says. `find_or_make` gives equal keys one entry, `split` hands
//! a seat's knowledge to another thread, `join` brings two together. No call takes a lock or waits.
#![tactic(auto)]

mod cons;
mod plays;
mod probing;
mod reading;
mod rule;
mod search;
mod seat;
mod view;
mod words;

pub use cons::{Cons, Full};
pub use seat::Seat;
pub use view::Size;
