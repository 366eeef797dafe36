//! A new board.

ghost use Rattle.std.specs.Prelude.{◌≡◌, ◌<◌, ◌≤◌, [], ◌∷◌, false, All, length, IfOk};
ghost use Rattle.std.specs.Arc.{arc_value};

use crate::Memory;
use crate::item::{Numbered, Shown};
use crate::reader::Reader;
use crate::writer::{End, Writer};
use left_right::writer;
use std::alloc::Global;
use std::sync::Arc;

/// So many readers without a place on a board, each with a share of the first item.
fn readers_of<T: Drop + Numbered>(
    alloc: Global,
    first: &Arc<T>,
    readers: usize,
) -> Result<Vec<Reader<T>>, Memory>
    requires { T.nr (arc_value first.now) ≡ 0 }
    ensures { IfOk result (λ v. All (λ r. r ≡ record { seen = []; last = arc_value first.now }) v.items × (length v.items ≡ readers)) }
{
    let mut all = Vec::with_capacity(alloc, readers)?;
    for _ in 0..readers {
        let kept = Arc::try_clone(first)?;
        all.push_reserved(Reader { end: None, kept });
    }
    Ok(all)
}

/// Gives a reader a place on the board, if there is one.
fn seat<T: Drop + Numbered>(end: &End<T>, reader: &mut Reader<T>)
    requires fresh { reader.old.seen ≡ [] }
    requires zero { T.nr reader.old.last ≡ 0 }
    ensures { reader.new ≡ reader.old }
{
    reader.end = end.factory().reader().ok();
}

/// Gives each reader a place, as far as there are any.
fn seat_all<T: Drop + Numbered>(end: &End<T>, readers: &mut [Reader<T>], first: &Arc<T>)
    requires zero { T.nr (arc_value first.now) ≡ 0 }
    requires fresh { All (λ r. r ≡ record { seen = []; last = arc_value first.now }) readers.old }
    ensures { All (λ r. r ≡ record { seen = []; last = arc_value first.now }) readers.new }
{
    for reader in readers.iter_mut() {
        seat(end, reader);
    }
}

/// A board that shows its first item, whose number is 0: its writer, and so many readers, each with a share of that item. A reader for which
/// there is no place has that share alone.
///
/// The only error is want of memory.
pub fn open_board<T: Drop + Numbered>(
    alloc: Global,
    first: Arc<T>,
    readers: usize,
) -> Result<(Writer<T>, Vec<Reader<T>>), Memory>
    requires readers { (1 ≤ readers) × (readers ≤ 64) }
    requires zero { T.nr (arc_value first) ≡ 0 }
    ensures writer { IfOk result (λ r. r.0 ≡ record { published = arc_value first ∷ []; refused = false }) }
    ensures readers { IfOk result (λ r. All (λ reader. reader ≡ record { seen = []; last = arc_value first }) r.1.items) }
    ensures count { IfOk result (λ r. length r.1.items ≡ readers) }
{
    let mut all = readers_of(alloc, &first, readers)?;
    let one = Shown {
        item: Arc::try_clone(&first)?,
    };
    let two = Shown {
        item: Arc::try_clone(&first)?,
    };
    let end: End<T> = writer::Writer::new(alloc, one, two, readers)?;
    seat_all(&end, all.as_mut_slice(), &first);
    let writer = Writer {
        end: Some(end),
        refused: false,
    };
    Ok((writer, all))
}
