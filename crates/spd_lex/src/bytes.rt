//! What single bytes stand for.

ghost use Rattle.std.specs.Prelude.{◌≡◌, if◌then◌else◌};
ghost use Rattle.spd_lex.specs.Tokens.{begins_slash, in_comment, is_blank, bracket_of, is_bad};

use crate::token::Kind;

/// Space, tab, CR and LF.
pub(crate) fn is_blank(byte: u8) -> bool
    ensures { result ≡ is_blank byte }
{
    matches!(byte, b' ' | b'\t' | b'\r' | b'\n')
}

/// Whether a byte may not stand outside comments.
pub(crate) fn is_bad(byte: u8) -> bool
    ensures { result ≡ is_bad byte }
{
    !matches!(byte, b'\t' | b'\n' | b'\r' | 0x20..=0x7e)
}

fn begins_slash(bytes: &[u8]) -> bool
    ensures { result ≡ begins_slash bytes.now }
{
    match bytes {
        [] => false,
        [first, ..] => *first == b'/',
    }
}

/// Whether a byte stands in a comment, where `comment` says so of the byte before it.
pub(crate) fn in_comment(comment: bool, byte: u8, after: &[u8]) -> bool
    ensures { result ≡ in_comment comment byte after.now }
{
    if comment {
        byte != b'\n'
    } else {
        byte == b'/' && begins_slash(after)
    }
}

/// A byte, or a space for it where it stands in a comment.
pub(crate) fn shown(comment: bool, byte: u8) -> u8
    ensures { result ≡ (if comment then 32 else byte) }
{
    if comment { b' ' } else { byte }
}

pub(crate) fn bracket_of(byte: u8) -> Option<Kind>
    ensures { result ≡ bracket_of byte }
{
    match byte {
        b'(' => Some(Kind::Open),
        b')' => Some(Kind::Close),
        b'[' => Some(Kind::OpenSum),
        b']' => Some(Kind::CloseSum),
        _ => None,
    }
}
