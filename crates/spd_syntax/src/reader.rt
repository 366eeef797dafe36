//! Single tokens: brackets and words, and what is missing where none of them stands.

ghost use Rattle.std.specs.Prelude.{◌≡◌, ◌<◌, ◌+◌, ◌==◌, ◌∷◌, [], length, IfOk, IfErr, MatchOption, Ok, Err, List};
ghost use Rattle.spd_syntax.specs.declared.file.Word.{Word as WordValue};
ghost use Rattle.spd_syntax.specs.Words.{text_of};
ghost use Rattle.spd_syntax.specs.Positions.{Position};
ghost use Rattle.spd_syntax.specs.Grammar.{One, AWord};
ghost use Rattle.spd_syntax.specs.Files.{Key};
ghost use Rattle.spd_syntax.specs.Reading.{Faults, KeywordAt, here, Lacks, Misses};

use crate::file::Word;
use crate::refusal::{Refusal, Want};
use crate::words::{says, text_of};
use spd_lex::{Kind, Token};
use std::alloc::Global;

/// The tokens behind a token of this kind, where it stands first.
pub(crate) fn behind(kind: Kind, tokens: &[Token]) -> Option<&[Token]>
    ensures { MatchOption result (Lacks kind tokens.now) (λ rest. One kind tokens.now rest.now) }
{
    match tokens {
        [first, rest @ ..] if first.kind == kind => Some(rest),
        _ => None,
    }
}

/// Reads the syntax of a file.
#[derive(Drop)]
pub(crate) struct Reader<'f> {
    pub alloc: Global,
    pub file: &'f [u8],
}

impl Reader<'_> {
    /// The fault where no token can go on that stands first here.
    pub(crate) fn expected(&self, want: Want, tokens: &[Token]) -> Refusal
        ensures { result ≡ Refusal.Expected (here self.now.file.now tokens.now) want }
    {
        let at = match tokens {
            [] => self.file.len(),
            [first, ..] => first.from as usize,
        };
        Refusal::Expected { at, want }
    }

    /// The tokens behind a bracket of this kind.
    pub(crate) fn bracket<'t>(
        &self,
        kind: Kind,
        want: Want,
        tokens: &'t [Token],
    ) -> Result<&'t [Token], Refusal>
        ensures ok { IfOk result (λ rest. One kind tokens.now rest.now) }
        ensures err { IfErr result (Misses self.now.file.now kind want tokens.now) }
    {
        match behind(kind, tokens) {
            Some(rest) => Ok(rest),
            None => Err(self.expected(want, tokens)),
        }
    }

    /// The word that stands first, and the tokens behind it.
    pub(crate) fn word<'t>(
        &self,
        want: Want,
        tokens: &'t [Token],
    ) -> Result<(Word, &'t [Token]), Refusal>
        ensures ok { IfOk result (λ x. AWord x.0 tokens.now x.1.now) }
        ensures err { IfErr result (Misses self.now.file.now Kind.Word want tokens.now) }
    {
        match tokens {
            [first, rest @ ..] if first.kind == Kind::Word => Ok((
                Word {
                    from: first.from,
                    to: first.to,
                },
                rest,
            )),
            _ => Err(self.expected(want, tokens)),
        }
    }

    /// The tokens behind this word of the grammar, where it stands first.
    pub(crate) fn keyword<'t>(
        &self,
        keyword: &[u8],
        want: Want,
        tokens: &'t [Token],
    ) -> Result<&'t [Token], Refusal>
        ensures ok { IfOk result (λ rest. (w : WordValue) × Key self.now.file.now keyword.now w tokens.now rest.now) }
        ensures err { IfErr result (λ f. (p : Position) (qs : List Position) → KeywordAt p keyword.now want qs → Faults self.now.file.now (p ∷ []) tokens.now f) }
    {
        let (word, rest) = self.word(want, tokens)?;
        if !says(self.text(word), keyword) {
            return Err(Refusal::Expected {
                at: word.from as usize,
                want,
            });
        }
        Ok(rest)
    }

    /// The bytes of a word.
    pub(crate) fn text(&self, word: Word) -> &[u8]
        ensures { result.now ≡ text_of self.now.file.now word }
    {
        text_of(self.file, word)
    }
}
