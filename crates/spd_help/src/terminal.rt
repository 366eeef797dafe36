//! Showing at a terminal, and there alone.
ghost use Rattle.std.specs.Prelude.{◌≡◌, true, false, OnOk, OnErr};
ghost use Rattle.spd_edge.specs.Told.{Took, TookFront};

use crate::screen::Screen;
use spd_edge::{Failed, Sink, write_all_of};

/// Writes a screen to an output that is a terminal, and nothing to any other.
///
/// # Errors
///
/// `Failed` where a write failed.
pub fn show<K: Sink>(terminal: bool, screen: &Screen, out: &mut K) -> Result<(), Failed>
    ensures elsewhere { terminal ≡ false → (K.taken out.new ≡ K.taken out.old) × (K.faults out.new ≡ K.faults out.old) }
    ensures text { terminal ≡ true → OnOk result (Took (K.taken out.old) screen.now (K.taken out.new)) }
    ensures front { OnErr result (TookFront (K.taken out.old) screen.now (K.taken out.new)) }
    ensures named { K.name out.new ≡ K.name out.old }
{
    if terminal {
        write_all_of(out, screen.as_slice())
    } else {
        Ok(())
    }
}
