//! One pass over the bytes of a file.

ghost use Rattle.std.specs.Prelude.{◌≡◌, ℕ, List, ◌++◌, ◌+◌, ◌<◌, ◌^◌, length, None, IfOk, IfErr, OnOk, ◌∷◌, []};
ghost use Rattle.spd_lex.specs.declared.token.Token.{Token as TokenValue};
ghost use Rattle.spd_lex.specs.Tokens.{single, with_word, with_byte, tokens_of, bad_byte, AreApart};
ghost use Rattle.spd_lex.specs.Lexing.{opened, IsApart, LexFails};

use crate::bytes::{bracket_of, in_comment, is_bad, is_blank, shown};
use crate::token::{Kind, Token};
use std::alloc::{AllocError, AllocFailed, Global};

/// Why a file has no tokens.
#[derive(Clone, Copy, PartialEq, Eq, Debug, Drop)]
pub enum Lex {
    /// Outside comments a byte other than tab, LF, CR and 0x20 to 0x7E stands at this place first.
    BadByte { at: usize },
    /// There was no memory for the tokens, or the file has 2^32 - 1 bytes or more.
    Memory,
}

impl From<AllocError> for Lex {
    ghost use Rattle.std.specs.Prelude.{◌≡◌};
    ghost use Rattle.spd_lex.specs.declared.lexer.Lex.TheVariants.{Memory};

    ghost from_gives = { λ _ e. e ≡ Memory };

    fn from(_e: AllocError) -> Lex {
        Lex::Memory
    }
}

/// The tokens so far, and where the word that is open begins.
#[derive(Drop)]
struct Lexer {
    tokens: Vec<Token>,
    word: Option<u32>,
}

impl Lexer {
    /// Ends the word that is open.
    fn end_word(&mut self, at: u32) -> Result<(), AllocError>
        ensures told { OnOk result ((ts : List TokenValue) → IsApart at ts →
            self.new.tokens.items ++ ts ≡ self.old.tokens.items ++ opened self.old.word at ts) }
        ensures ended { OnOk result (self.new.word ≡ None) }
    {
        if let Some(from) = self.word {
            self.tokens.push(Token {
                kind: Kind::Word,
                from,
                to: at,
            })?;
            self.word = None;
        }
        Ok(())
    }

    /// Begins a word, where none is open.
    fn begin_word(&mut self, at: u32)
        ensures told { (ts : List TokenValue) →
            opened self.new.word (at + 1) ts ≡ opened self.old.word at (with_word at (at + 1) ts) }
        ensures same { self.new.tokens ≡ self.old.tokens }
    {
        if self.word.is_none() {
            self.word = Some(at);
        }
    }

    /// Adds a token of one byte.
    fn add_bracket(&mut self, kind: Kind, at: u32) -> Result<(), AllocError>
        requires { at + 1 < 2 ^ 32 }
        ensures told { OnOk result (self.new.tokens.items ≡ self.old.tokens.items ++ single kind at ∷ []) }
        ensures same { OnOk result (self.new.word ≡ self.old.word) }
    {
        self.tokens.push(Token {
            kind,
            from: at,
            to: at + 1,
        })?;
        Ok(())
    }

    /// Takes the next byte, with a space for each byte of a comment.
    fn take(&mut self, at: u32, byte: u8) -> Result<(), AllocError>
        requires { at + 1 < 2 ^ 32 }
        ensures { OnOk result ((ts : List TokenValue) → IsApart at ts →
            self.new.tokens.items ++ opened self.new.word (at + 1) ts ≡ self.old.tokens.items ++ opened self.old.word at (with_byte at byte ts)) }
    {
        if is_blank(byte) {
            return self.end_word(at);
        }
        match bracket_of(byte) {
            Some(kind) => {
                self.end_word(at)?;
                self.add_bracket(kind, at)
            }
            None => {
                self.begin_word(at);
                Ok(())
            }
        }
    }
}

fn all_tokens(bytes: &[u8], tokens: Vec<Token>) -> Result<Vec<Token>, Lex>
    requires len { length bytes.now + 1 < 2 ^ 32 }
    requires empty { tokens.items ≡ [] }
    ensures found { IfOk result (λ v. (bad_byte bytes.now ≡ None) × (v.items ≡ tokens_of bytes.now)) }
    ensures bad { IfErr result (LexFails bytes.now) }
{
    let mut lexer = Lexer { tokens, word: None };
    let mut comment = false;
    let mut at: u32 = 0;
    let mut rest = bytes;
    while let [byte, after @ ..] = rest {
        comment = in_comment(comment, *byte, after);
        let seen = shown(comment, *byte);
        if is_bad(seen) {
            return Err(Lex::BadByte { at: at as usize });
        }
        lexer.take(at, seen)?;
        at += 1;
        rest = after;
    }
    lexer.end_word(at)?;
    Ok(lexer.tokens)
}

/// The tokens of a file, from left to right, in one pass. A comment goes from `//` to the next LF or to
/// the end of the file, holds any bytes, and counts as blanks. `BadByte` comes exactly where a byte may
/// not stand outside comments, at the first such byte; `Memory` comes where there was no memory for the
/// tokens, and for a file of 2^32 - 1 bytes or more.
pub fn tokens(alloc: Global, bytes: &[u8]) -> Result<Vec<Token>, Lex>
    ensures clean { IfOk result (λ v. bad_byte bytes.now ≡ None) }
    ensures found { IfOk result (λ v. v.items ≡ tokens_of bytes.now) }
    ensures apart { IfOk result (λ v. AreApart 0 (length bytes.now) v.items) }
    ensures bad { IfErr result (LexFails bytes.now) }
{
    if bytes.len() >= u32::MAX as usize {
        return Err(Lex::Memory);
    }
    all_tokens(bytes, Vec::new(alloc))
}
