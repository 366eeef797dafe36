//! Reading a whole file of a place.
ghost use Rattle.std.specs.Prelude.{◌≡◌, ℕ, ◌≤◌, List, length, None, Some, IfOk, OnOk, IfErr, IfSome};
ghost use Rattle.spd_edge.specs.Counts.{NoneFalls};
ghost use Rattle.spd_edge.specs.Names.{SameButFor};
ghost use Rattle.spd_edge.specs.declared.outside.Stage.TheVariants as Stage;
ghost use Rattle.spd_solver.specs.inner.Stages.{FailsToRead};
ghost use Rattle.spd_solver.specs.declared.file.Unreadable.TheVariants as Unreadable;

use spd_edge::{Open, Place, ReadAll, read_all};
use spd_model::Text;
use std::alloc::{AllocError, Global};

/// The most bytes that a model file may have.
pub const FILE_LIMIT: usize = 4_194_304;

/// The most bytes that a certificate may have.
pub const CERT_LIMIT: usize = 268_435_456;

/// Why a file wasn't read.
#[derive(Debug, Drop)]
pub(crate) enum Unreadable {
    /// The file of this name couldn't be opened.
    Open { name: Text },
    /// A read of the file of this name failed.
    Read { name: Text },
    /// The file of this name has more bytes than it may have.
    TooLong { name: Text },
    /// Memory was wanted and not found.
    Memory,
}

impl From<AllocError> for Unreadable {
    ghost from_gives = { λ _ why. why ≡ Unreadable.Memory };

    fn from(_: AllocError) -> Unreadable {
        Unreadable::Memory
    }
}

/// All bytes of the file of this name, which is opened, read to its end and closed. It has at most `limit` bytes.
pub(crate) fn read_file<P: Place>(
    alloc: Global,
    place: &mut P,
    name: &[u8],
    limit: usize,
) -> Result<Vec<u8>, Unreadable>
    requires { (P.inputs place.old).stage name.now ≡ None }

    ensures held { IfOk result (λ bytes. IfSome ((P.inputs place.old).holds name.now) (λ held. bytes.items ≡ held)) }
    ensures within { IfOk result (λ bytes. length bytes.items ≤ limit) }
    ensures read { OnOk result ((P.inputs place.new).stage name.now ≡ Some Stage.Closed) }
    ensures calm { OnOk result ((P.inputs place.new).faults ≡ (P.inputs place.old).faults) }
    ensures cause { IfErr result (FailsToRead (P.inputs place.old) (P.inputs place.new) name.now limit) }

    // Whatever the answer is.
    ensures never_falls { NoneFalls (P.inputs place.old).faults (P.inputs place.new).faults }
    ensures other_stages { SameButFor (P.inputs place.old).stage (P.inputs place.new).stage name.now }
    ensures closed { (q : List ℕ) → (P.inputs place.new).stage q ≡ Some Stage.Open → (P.inputs place.old).stage q ≡ Some Stage.Open }
    ensures holds { (P.inputs place.new).holds ≡ (P.inputs place.old).holds }
    ensures outputs { P.outputs place.new ≡ P.outputs place.old }
{
    let mut input = match place.open_in(name) {
        Ok(input) => input,
        Err(Open::Failed) => {
            return Err(Unreadable::Open {
                name: Text::from_slice(alloc, name)?,
            });
        }
        Err(Open::Memory) => return Err(Unreadable::Memory),
    };
    let read = read_all(alloc, &mut input, limit);
    place.close_in(name, input);
    match read {
        Ok(bytes) => Ok(bytes),
        Err(fault) => {
            let name = Text::from_slice(alloc, name)?;
            match fault {
                ReadAll::Fault => Err(Unreadable::Read { name }),
                ReadAll::TooLong => Err(Unreadable::TooLong { name }),
                ReadAll::Memory => Err(Unreadable::Memory),
            }
        }
    }
}
