//! The bytes of a model file as tokens: brackets, and between them, blanks and comments the words.
//!
//! `spd_lex` parts the bytes of a model file into brackets and words, with the places where they stand, or tells the first byte
//! that can't stand in one. `spd_syntax` reads on from there.
#![tactic(auto)]

mod bytes;
mod lexer;
mod token;

pub use lexer::{Lex, tokens};
pub use token::{Kind, Token};
