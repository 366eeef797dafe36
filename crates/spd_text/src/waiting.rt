//! Bytes that wait to be written, so that not each word of a text is a write of its own.
ghost use Rattle.std.specs.Prelude.{◌≡◌, ◌+◌, ◌≤◌, [], ◌++◌, length};
ghost use Rattle.spd_edge.specs.Pieces.{text_of_pieces};
ghost use Rattle.spd_text.specs.inner.Pieces.{shown, Writes};

use spd_edge::{Failed, Sink, write_all_of};
use std::marker::Model;

/// How many bytes wait at most.
const ROOM: usize = 512;

/// Bytes that wait to be written to a sink.
#[derive(Drop)]
pub(crate) struct Waiting {
    bytes: [u8; ROOM],
    len: usize,
}

impl Model for Waiting {
    ghost use Rattle.std.specs.Prelude.{ℕ, List, take, ◌≤◌};

    ghost Value = { List ℕ };

    ghost view = { λ w. take w.len w.bytes };

    ghost invariant = { λ w. w.len ≤ 512 };
}

impl Waiting {
    pub(crate) fn new() -> Waiting
        ensures { result ≡ [] }
    {
        Waiting {
            bytes: [0; ROOM],
            len: 0,
        }
    }

    /// How many more bytes may wait.
    fn room(&self) -> usize
        ensures { result + length self.now ≡ 512 }
    {
        ROOM - self.len
    }

    /// Lets these bytes wait too.
    fn add(&mut self, piece: &[u8])
        requires { length self.old + length piece.now ≤ 512 }
        ensures { self.new ≡ self.old ++ piece.now }
    {
        let end = self.len + piece.len();
        self.bytes[self.len..end].copy_from_slice(piece);
        self.len = end;
    }

    /// Writes all that waits.
    pub(crate) fn flush<K: Sink>(&mut self, k: &mut K) -> Result<(), Failed>
        ensures wrote { Writes (shown K.taken K.faults K.name k.old) self.old [] result (shown K.taken K.faults K.name k.new) self.new }
        ensures empty { self.new ≡ [] }
    {
        let result = write_all_of(k, &self.bytes[..self.len]);
        self.len = 0;
        result
    }
}

/// Writes a piece of a text, or lets it wait.
pub(crate) fn put<K: Sink>(k: &mut K, waiting: &mut Waiting, piece: &[u8]) -> Result<(), Failed>
    ensures { Writes (shown K.taken K.faults K.name k.old) waiting.old piece.now result (shown K.taken K.faults K.name k.new) waiting.new }
{
    if piece.len() <= waiting.room() {
        waiting.add(piece);
        return Ok(());
    }
    waiting.flush(k)?;
    write_all_of(k, piece)
}

/// Writes pieces of a text one after another, or lets them wait.
pub(crate) fn put_all<K: Sink>(
    k: &mut K,
    waiting: &mut Waiting,
    pieces: &[&[u8]],
) -> Result<(), Failed>
    ensures { Writes (shown K.taken K.faults K.name k.old) waiting.old (text_of_pieces pieces.now) result (shown K.taken K.faults K.name k.new) waiting.new }
{
    for piece in pieces {
        put(k, waiting, piece)?;
    }
    Ok(())
}
