//! The readers of a board.

ghost use Rattle.std.specs.Prelude.{◌≤◌, option_map};
ghost use Rattle.std.specs.Arc.{arc_value};
ghost use Rattle.left_right.specs.Sides.{view as view_of};
ghost use Rattle.spd_board.specs.inner.Inside.{Looks};

use crate::item::{Numbered, Shown, View};
use crate::rule::{Board, Entry};
use left_right::reader;
use std::marker::Model;
use std::sync::Arc;

pub(crate) type End<T> = reader::Reader<Shown<T>, View<T>, Board>;

/// Goes in and takes a share of the item that is shown: `None` where the writer is gone or no share can be had.
fn enter<T: Drop + Numbered>(end: End<T>) -> (End<T>, Option<Arc<T>>)
    ensures { Looks T.nr (view_of end.place).seen (view_of result.0.place).seen (option_map arc_value result.1) }
{
    match end.enter_as::<Entry>() {
        Ok(reading) => {
            let share = Arc::try_clone(&reading.get().item).ok();
            (reading.leave(), share)
        }
        Err(end) => (end, None),
    }
}

/// What takes items. It keeps a share of the item that it answered last, also when the writer is gone.
#[derive(Drop)]
pub struct Reader<T: Drop + Numbered> {
    pub(crate) end: Option<End<T>>,
    pub(crate) kept: Arc<T>,
}

impl<T: Drop + Numbered> Model for Reader<T> {
    ghost use Rattle.std.specs.Arc.{arc_value};
    ghost use Rattle.left_right.specs.Sides.{view as view_of};
    ghost use Rattle.spd_board.specs.declared.item.View.{View};
    ghost use Rattle.spd_board.specs.Ends.{Reading};
    ghost use Rattle.spd_board.specs.inner.Inside.{seen_at, IsReading};

    ghost Value = { Reading T };

    ghost view = { λ r. record { seen = seen_at (λ e. (view_of {V = View T} e.place).seen) r.end; last = arc_value r.kept } };

    ghost invariant = { λ r. IsReading T.nr record { seen = seen_at (λ e. (view_of {V = View T} e.place).seen) r.end; last = arc_value r.kept } };
}

impl<T: Drop + Numbered> Reader<T> {
    ghost use Rattle.std.specs.Prelude.{◌≡◌, ◌≤◌, ⊤};
    ghost use Rattle.std.specs.Borrow.{sem, follows_so};
    ghost use mathlib.Core.Option.{none};
    ghost use Rattle.spd_board.specs.contracts.reader.Reader.{the_row};
    ghost use Rattle.spd_board.specs.Ends.{Answers};

    /// Looks at the board, and keeps a share of the newest item where it can be had.
    fn look(&mut self)
        ensures { Answers T.nr self.old self.new }
    {
        let Some(end) = self.end.take() else {
            return;
        };
        let (end, share) = enter(end);
        self.end = Some(end);
        if let Some(share) = share {
            self.kept = share;
        }
    }

    /// The item that is shown, where the board lets it in and a share of that item can be had, else the one that it answered last: a
    /// published item, as it was published, and never an older one than before. It doesn't wait.
    pub fn latest(&mut self) -> &T
        ensures* answers { sem 𝓛 (follows_so (the_row T.row T.Numbered) (the_row T.row T.Numbered) self.entry.ghost_name none (λ _ _. ⊤) (λ n. Answers T.nr self.old n × (n.last ≡ result.now))) }
        ensures no_older { T.nr self.old.last ≤ T.nr result.now }
    {
        self.look();
        &self.kept
    }
}
