//! A whole model file.

ghost use Rattle.std.specs.Prelude.{◌≡◌, ◌≤◌, None, length, IfOk, IfErr};
ghost use Rattle.spd_reader.specs.Faults.{least};
ghost use Rattle.spd_reader.specs.Models.{said_of, faults_of};
ghost use Rattle.spd_reader.specs.Saying.{said_by};
ghost use Rattle.spd_reader.specs.Reading.{IsRead, TellsRefusal};

use crate::said::Said;
use crate::sections::sections;
use crate::variables::variables;
use spd_model::Model;
use spd_syntax::{File, Refusal, Unread, read_syntax};
use std::alloc::{AllocError, Global};

/// What a file says, and the least fault of its names, where they have one.
fn names_of<'f>(
    alloc: Global,
    bytes: &'f [u8],
    file: &File,
) -> Result<(Said<'f>, Option<Refusal>), AllocError>
    ensures means { IfOk result (λ x. said_by x.0 ≡ said_of bytes.now file.now) }
    ensures notes { IfOk result (λ x. x.1 ≡ least None (faults_of bytes.now file.now)) }
{
    let mut found = None;
    let names = variables(alloc, bytes, file.variables.as_slice(), &mut found)?;
    let said = sections(names, file.sections.as_slice(), &mut found)?;
    Ok((said, found))
}

/// Reads a model file. `Refused` comes exactly where the bytes are no model file, with the first byte
/// that may not stand in one; else with the first fault of the syntax, in reading order; else, of all
/// faults of names, with the one at the least place and there of the least number. `Memory` comes where
/// there was no memory.
pub fn read_model(alloc: Global, bytes: &[u8]) -> Result<Model, Unread>
    requires { length bytes.now ≤ 4194304 }
    ensures read { IfOk result (IsRead bytes.now) }
    ensures refused { IfErr result (TellsRefusal bytes.now) }
{
    let file = read_syntax(alloc, bytes)?;
    let (said, found) = names_of(alloc, bytes, &file)?;
    match found {
        Some(refusal) => Err(Unread::Refused(refusal)),
        None => Ok(said.into_model(alloc)?),
    }
}
