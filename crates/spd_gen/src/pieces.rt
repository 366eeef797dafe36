//! Pieces of a text, written one after another.
ghost use Rattle.spd_edge.specs.Pieces.{text_of_pieces};
ghost use Rattle.spd_gen.specs.inner.Pieces.{shown, Writes};

use spd_edge::{Failed, Sink, write_all_of};

/// Writes a piece of a text.
pub(crate) fn put<K: Sink>(k: &mut K, piece: &[u8]) -> Result<(), Failed>
    ensures { Writes (shown K.taken K.faults K.name k.old) piece.now result (shown K.taken K.faults K.name k.new) }
{
    write_all_of(k, piece)
}

/// Writes pieces of a text one after another.
pub(crate) fn put_all<K: Sink>(k: &mut K, pieces: &[&[u8]]) -> Result<(), Failed>
    ensures { Writes (shown K.taken K.faults K.name k.old) (text_of_pieces pieces.now) result (shown K.taken K.faults K.name k.new) }
{
    for piece in pieces {
        put(k, piece)?;
    }
    Ok(())
}
