//! What help looks up in a model file: its tokens, and the names that it declares.
ghost use Rattle.std.specs.Prelude.{◌≤◌, length};

use crate::screen::Screen;
use spd_lex::{Kind, Lex, Token, tokens};
use std::alloc::{AllocError, Global};

/// A model file as its tokens.
#[derive(Drop)]
pub(crate) struct Source<'a> {
    bytes: &'a [u8],
    tokens: Vec<Token>,
}

/// The file as its tokens. Those of a file with a byte that can't stand in one are none.
pub(crate) fn source_of(alloc: Global, bytes: &[u8]) -> Result<Source<'_>, AllocError> {
    match tokens(alloc, bytes) {
        Ok(tokens) => Ok(Source { bytes, tokens }),
        Err(Lex::BadByte { .. }) => Ok(Source {
            bytes,
            tokens: Vec::new(alloc),
        }),
        Err(Lex::Memory) => Err(AllocError),
    }
}

impl<'a> Source<'a> {
    /// What the token of this number is, where there is one.
    pub(crate) fn kind(&self, number: usize) -> Option<Kind> {
        match self.tokens.get(number) {
            Some(token) => Some(token.kind),
            None => None,
        }
    }

    /// The bytes of the token of this number, or none.
    pub(crate) fn text(&self, number: usize) -> &'a [u8] {
        match self.tokens.get(number) {
            Some(token) => self
                .bytes
                .get(token.from as usize..token.to as usize)
                .unwrap_or(&[]),
            None => &[],
        }
    }

    /// The place of the token of this number, or the file's end.
    pub(crate) fn place(&self, number: usize) -> usize
        ensures { result ≤ length self.now.bytes.now }
    {
        match self.tokens.get(number) {
            Some(token) => self.bytes.len().min(token.from as usize),
            None => self.bytes.len(),
        }
    }

    /// How many tokens there are.
    pub(crate) fn len(&self) -> usize {
        self.tokens.len()
    }

    /// The number of the first token that begins at a place or behind it.
    pub(crate) fn at(&self, place: usize) -> usize {
        for (number, token) in self.tokens.iter().enumerate() {
            if token.from as usize >= place {
                return number;
            }
        }
        self.tokens.len()
    }

    /// Whether the token of this number is this word.
    pub(crate) fn is(&self, number: usize, word: &[u8]) -> bool {
        self.text(number) == word
    }

    /// How many brackets are open before the token of this number.
    pub(crate) fn depth(&self, number: usize) -> usize {
        let mut depth: usize = 0;
        for token in self.tokens.iter().take(number) {
            match token.kind {
                Kind::Open => depth = depth.saturating_add(1),
                Kind::Close => depth = depth.saturating_sub(1),
                _ => {}
            }
        }
        depth
    }

    /// The number of the word at whose bracket the bracket around the token of this number stands: a branch's variable.
    pub(crate) fn head_around(&self, number: usize) -> Option<usize> {
        let mut closed: usize = 0;
        let mut opened = 0;
        for before in (0..number).rev() {
            match self.kind(before) {
                Some(Kind::Close) => closed = closed.saturating_add(1),
                Some(Kind::Open) if closed > 0 => closed -= 1,
                Some(Kind::Open) if opened == 1 => return Some(before + 1),
                Some(Kind::Open) => opened = 1,
                _ => {}
            }
        }
        None
    }

    /// The number of the token that ends the variables.
    pub(crate) fn variables_end(&self) -> usize {
        for number in 1..self.len() {
            if self.kind(number) == Some(Kind::Close)
                && self.kind(number - 1) == Some(Kind::Close)
            {
                return number;
            }
        }
        self.len()
    }

    /// Whether the token of this number is a word that stands at once behind an opening bracket.
    pub(crate) fn is_head(&self, number: usize) -> bool {
        number > 0
            && self.kind(number) == Some(Kind::Word)
            && self.kind(number - 1) == Some(Kind::Open)
    }

    /// The numbers of the names of the variables, in their order.
    pub(crate) fn variables(&self, alloc: Global) -> Result<Vec<usize>, AllocError> {
        let mut names = Vec::new(alloc);
        for number in 3..self.variables_end() {
            if self.is_head(number) {
                names.push(number)?;
            }
        }
        Ok(names)
    }

    /// The numbers of the names of a variable's values, in their order.
    pub(crate) fn values(&self, alloc: Global, variable: usize) -> Result<Vec<usize>, AllocError> {
        let mut names = Vec::new(alloc);
        if variable >= self.len() {
            return Ok(names);
        }
        for number in variable + 1..self.len() {
            if self.kind(number) != Some(Kind::Word) {
                break;
            }
            names.push(number)?;
        }
        Ok(names)
    }

    /// The numbers of the words that stand at once behind this word: the names of decision diagrams, or of actions.
    pub(crate) fn declared(
        &self,
        alloc: Global,
        keyword: &[u8],
        end: usize,
    ) -> Result<Vec<usize>, AllocError> {
        let mut names = Vec::new(alloc);
        for number in 1..end.min(self.len()) {
            if self.is(number - 1, keyword) {
                names.push(number)?;
            }
        }
        Ok(names)
    }

    /// The first of some tokens that is this word.
    pub(crate) fn named(&self, numbers: &[usize], word: &[u8]) -> Option<usize> {
        for number in numbers {
            if self.is(*number, word) {
                return Some(*number);
            }
        }
        None
    }

    /// Whether a section of this word is there.
    pub(crate) fn has(&self, keyword: &[u8]) -> bool {
        (0..self.len()).any(|number| self.is(number, keyword))
    }
}

/// A name without its `'`.
pub(crate) fn unprimed(name: &[u8]) -> &[u8] {
    match name {
        [front @ .., b'\''] => front,
        _ => name,
    }
}
