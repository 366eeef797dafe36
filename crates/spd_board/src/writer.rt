//! The writer of a board.

ghost use Rattle.std.specs.Prelude.{◌≡◌, ◌++◌, [], ◌∷◌, length, drop, false, MatchResult, OnOk, OnErr};
ghost use Rattle.std.specs.Arc.{arc_value};
ghost use Rattle.left_right.specs.Sides.{view as view_of};
ghost use Rattle.spd_board.specs.Board.{EndsIn};
ghost use Rattle.spd_board.specs.inner.Inside.{published_with, IsWhole};

use crate::Memory;
use crate::item::{Numbered, Shown, View};
use crate::rule::{Board, Publication};
use crossbeam_utils::rule::Protocol;
use left_right::{Absorb, writer};
use std::alloc::AllocError;
use std::marker::Model;
use std::mem;
use std::sync::{Arc, Wait};

pub(crate) type End<T> = writer::Writer<Shown<T>, Arc<T>, View<T>, Board>;

/// What publishes items. It is not `Drop`: end it by `close`.
pub struct Writer<T: Drop + Numbered>
where
    Shown<T>: Absorb<Arc<T>, State = T>,
    Board: Protocol<Shown<T>, View<T>>,
{
    pub(crate) end: Option<End<T>>,
    pub(crate) refused: bool,
}

impl<T: Drop + Numbered> Model for Writer<T>
where
    Shown<T>: Absorb<Arc<T>, State = T>,
    Board: Protocol<Shown<T>, View<T>>,
{
    ghost use Rattle.std.specs.Prelude.{◌≡◌, [], drop, false, IsSomeAnd};
    ghost use Rattle.std.specs.Arc.{arc_value};
    ghost use Rattle.left_right.specs.Sides.{view as view_of};
    ghost use Rattle.spd_board.specs.declared.item.View.{View};
    ghost use Rattle.spd_board.specs.Ends.{Writing};
    ghost use Rattle.spd_board.specs.inner.Inside.{published_with, seen_at, IsWhole};

    ghost Value = { Writing T };

    ghost view = { λ w. record { published = seen_at (λ e. published_with (view_of {V = View T} e.desk.place).seen (arc_value e.desk.shown.value.item)) w.end; refused = w.refused } };

    ghost invariant = { λ w. IsSomeAnd w.end (λ e. IsWhole T.nr (published_with (view_of {V = View T} e.desk.place).seen (arc_value e.desk.shown.value.item)) (arc_value e.desk.shown.value.item) × (w.refused ≡ false → drop e.behind e.log.items ≡ [])) };
}

/// Shows the next item.
fn publish_end<T: Drop + Numbered, R: Wait>(
    rt: &R,
    end: End<T>,
    item: Arc<T>,
) -> (End<T>, Result<(), Memory>)
    requires whole { IsWhole T.nr (published_with (view_of end.desk.place).seen (arc_value end.desk.shown.value.item)) (arc_value end.desk.shown.value.item) }
    requires next { T.nr (arc_value item) ≡ length (published_with (view_of end.desk.place).seen (arc_value end.desk.shown.value.item)) }
    requires none_waits { drop end.behind end.log.items ≡ [] }
    ensures published { MatchResult result.1
        (λ _. published_with (view_of result.0.desk.place).seen (arc_value result.0.desk.shown.value.item) ≡ published_with (view_of end.desk.place).seen (arc_value end.desk.shown.value.item) ++ arc_value item ∷ [])
        (λ _. published_with (view_of result.0.desk.place).seen (arc_value result.0.desk.shown.value.item) ≡ published_with (view_of end.desk.place).seen (arc_value end.desk.shown.value.item)) }
    ensures whole { IsWhole T.nr (published_with (view_of result.0.desk.place).seen (arc_value result.0.desk.shown.value.item)) (arc_value result.0.desk.shown.value.item) }
    ensures waiting { OnOk result.1 (drop result.0.behind result.0.log.items ≡ []) }
{
    let mut end = end;
    if end.append(item).is_err() {
        return (end, Err(AllocError));
    }
    end.publish_as::<Publication, R>(rt)
}

impl<T: Drop + Numbered> Writer<T> {
    /// Whether an earlier call of `publish` answered that there was no memory.
    pub fn is_refused(&self) -> bool
        ensures { result ≡ self.now.refused }
    {
        self.refused
    }

    /// The item that was published last.
    pub fn newest(&self) -> &T
        ensures { EndsIn self.now.published result.now }
    {
        match &self.end {
            Some(end) => &end.published().item,
            None => unreachable!(),
        }
    }

    /// Publishes the next item, whose number is the one after that of the item before. It may wait for a reader that is inside.
    ///
    /// # Errors
    ///
    /// Want of memory: then nothing was published, and the item is never shown to a reader.
    pub fn publish<R: Wait>(&mut self, rt: &R, item: Arc<T>) -> Result<(), Memory>
        requires next { T.nr (arc_value item) ≡ length self.old.published }
        requires never_refused { self.old.refused ≡ false }
        ensures published { OnOk result (self.new ≡ record { published = self.old.published ++ arc_value item ∷ []; refused = false }) }
        ensures none_published { OnErr result (self.new.published ≡ self.old.published) }
    {
        let Some(end) = self.end.take() else {
            unreachable!()
        };
        let (end, result) = publish_end(rt, end, item);
        self.refused = result.is_err();
        let before = mem::replace(&mut self.end, Some(end));
        let None = before else { unreachable!() };
        result
    }

    /// Ends the board, and returns the item that was published last. It waits for readers that are inside, and each of them goes on with the
    /// item that it answered last.
    pub fn close<R: Wait>(self, rt: &R) -> Arc<T>
        ensures { EndsIn self.published (arc_value result) }
    {
        let Writer { end, refused: _ } = self;
        let Some(end) = end else { unreachable!() };
        let Shown { item } = Box::into_inner(end.take(rt));
        item
    }
}
