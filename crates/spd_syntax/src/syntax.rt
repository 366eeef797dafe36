//! A whole file.

ghost use Rattle.std.specs.Prelude.{◌∷◌, [], IfOk, IfErr};
ghost use Rattle.spd_syntax.specs.Positions.{file_begins};
ghost use Rattle.spd_syntax.specs.Files.{IsFile, IsWritten};
ghost use Rattle.spd_syntax.specs.Reading.{Fails, TellsFault};

use crate::file::File;
use crate::reader::Reader;
use crate::refusal::{Refusal, Want};
use crate::unread::Unread;
use spd_lex::{Kind, Lex, Token, tokens};
use std::alloc::Global;

impl Reader<'_> {
    /// A file of these tokens.
    fn whole(&self, tokens: &[Token]) -> Result<File, Unread>
        ensures ok { IfOk result (λ f. IsFile self.now.file.now f tokens.now) }
        ensures err { IfErr result (Fails self.now.file.now (file_begins ∷ []) tokens.now) }
    {
        let rest = self.bracket(Kind::Open, Want::Variables, tokens)?;
        let rest = self.keyword(b"variables", Want::Variables, rest)?;
        let (variables, counts, rest) = self.variables(rest)?;
        let sections = self.sections(counts, rest)?;
        Ok(File {
            variables,
            sections,
        })
    }
}

/// Reads what is written in a model file, before its names are understood. `Refused` comes exactly
/// with the first fault: a byte that may not stand outside comments, wherever it stands, and then, in
/// reading order, the first token that can't go on, number out of its range, limit that is passed or
/// word that is left out. `Memory` comes where there was no memory.
pub fn read_syntax(alloc: Global, bytes: &[u8]) -> Result<File, Unread>
    ensures written { IfOk result (IsWritten bytes.now) }
    ensures refused { IfErr result (TellsFault bytes.now) }
{
    let tokens = match tokens(alloc, bytes) {
        Ok(tokens) => tokens,
        Err(Lex::BadByte { at }) => return Err(Unread::Refused(Refusal::BadByte { at })),
        Err(Lex::Memory) => return Err(Unread::Memory),
    };
    let reader = Reader { alloc, file: bytes };
    reader.whole(tokens.as_slice())
}
