//! Files cut into tokens, and the first byte that may not stand in one.
use spd_lex::{Kind, Lex, Token, tokens};
use std::test::Fail;

fn token(kind: Kind, from: u32, to: u32) -> Token {
    Token { kind, from, to }
}

#[test]
fn files_are_cut_into_tokens(rt: HostRuntime) -> Result<(), Fail> {
    use Kind::*;
    let rows: [(&[u8], &[Token]); 8] = [
        (b"", &[]),
        (b" \t\r\n", &[]),
        (
            b"(ab)",
            &[token(Open, 0, 1), token(Word, 1, 3), token(Close, 3, 4)],
        ),
        (
            b"[+ x]",
            &[
                token(OpenSum, 0, 1),
                token(Word, 1, 2),
                token(Word, 3, 4),
                token(CloseSum, 4, 5),
            ],
        ),
        (
            b"a/b c//d e\nf",
            &[token(Word, 0, 3), token(Word, 4, 5), token(Word, 11, 12)],
        ),
        (b"//\x80\xff", &[]),
        (
            b"/ x///\n/",
            &[token(Word, 0, 1), token(Word, 2, 3), token(Word, 7, 8)],
        ),
        (
            b"x\r\n//a\r(\r\ny",
            &[token(Word, 0, 1), token(Word, 10, 11)],
        ),
    ];
    for (bytes, want) in rows {
        let got = tokens(rt.alloc(), bytes).map_err(|_| "no tokens")?;
        assert_eq!(rt; got.as_slice(), want, "{bytes:?}");
    }
    Ok(())
}

#[test]
fn bad_bytes_are_refused(rt: HostRuntime) {
    let rows: [(&[u8], usize); 6] = [
        (b"\x80", 0),
        (b"ab\x00c\x01", 2),
        (b"//\x80\n\x7f", 4),
        (b"/\x80/", 1),
        (b"(\x0b)", 1),
        (b"x // y \x80\nz\x1f", 10),
    ];
    for (bytes, at) in rows {
        let got = tokens(rt.alloc(), bytes).err();
        assert_eq!(rt; got, Some(Lex::BadByte { at }), "{bytes:?}");
    }
}
