//! The rule of a board: what holds between any two steps of any threads, and what its two kinds of step tell.

use crate::item::{Numbered, Shown, View};
use crossbeam_utils::rule::{Outcome, Protocol};

/// The rule of a board, which each step keeps.
pub struct Board;

impl<T: Drop + Numbered> Protocol<Shown<T>, View<T>> for Board {
    ghost use Rattle.spd_board.specs.Board.{IsBoard, nothing_seen};

    ghost holds = { IsBoard T.nr };

    ghost first = { nothing_seen };
}

/// A reader enters.
pub struct Entry;

impl<T: Drop + Numbered> Outcome<Shown<T>, View<T>> for Entry {
    ghost use Rattle.spd_board.specs.Board.{Enters};

    ghost then = { Enters T.nr };
}

/// The writer publishes.
pub struct Publication;

impl<T: Drop + Numbered> Outcome<Shown<T>, View<T>> for Publication {
    ghost use Rattle.spd_board.specs.Board.{Publishes};

    ghost then = { Publishes T.nr };
}
