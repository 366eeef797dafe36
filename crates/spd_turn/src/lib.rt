//! A turn of value iteration on decision diagrams.
//!
//! `spd_turn` backs up all actions beside each other over one shared table of nodes (`backup_actions`): each action is a job with a seat
//! of its own, jobs go in waves of as many as there are workers, and after each wave its seats are joined in file order. `backup_all`
//! backs them up one after another over any forest.
//!
//! It ends a turn (`finish`), over any forest: of the bounds of all actions it makes the best, the value of the next turn and the
//! residual, and writes down what is told of the turn (SPUDD, UAI 1999).
//!
//! `try_turn` makes a whole turn in a table of its own, and `turn_in_room` in one that has room enough, up to the node limit. Of the parts
//! with which a turn begins, `thaw_parts` makes diagrams of any forest.
//!
//! A `Run` goes from turn to turn, up to the first one where the stop rule holds, or to its turn limit. It stands at one turn, with this
//! turn's table: where it stops, or the next turn has more nodes than it may, it stays as it is.
#![tactic(auto)]

mod backups;
mod ending;
mod job;
mod parts;
mod rooms;
mod running;
mod telling;
mod trying;
mod waves;

pub use backups::backup_all;
pub use ending::{Finished, finish};
pub use parts::{TurnParts, thaw_parts};
pub use rooms::{TurnFault, turn_in_room};
pub use running::{Advance, Run};
pub use trying::{Attempt, try_turn};
pub use waves::backup_actions;
