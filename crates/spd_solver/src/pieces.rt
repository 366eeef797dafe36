//! Writing pieces of a text one after another, without memory.
ghost use Rattle.std.specs.Prelude.{◌≡◌, flat_map};
ghost use Rattle.spd_text.specs.Writing.{Wrote, Counted};

use spd_edge::{Failed, Sink, write_all_of};

/// Writes pieces one after another. `Failed` where a write failed: the sink then took the front of their text.
pub(crate) fn write_pieces<K: Sink>(k: &mut K, pieces: &[&[u8]]) -> Result<(), Failed>
    ensures text { Wrote (K.taken k.old) (flat_map (λ piece. piece.now) pieces.now) result (K.taken k.new) }
    ensures count { Counted (K.faults k.old) result (K.faults k.new) }
    ensures named { K.name k.new ≡ K.name k.old }
{
    for piece in pieces {
        write_all_of(k, piece)?;
    }
    Ok(())
}
