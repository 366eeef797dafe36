//! Texts that are refused, each at one byte: a lawful certificate with one part changed.
use crate::changes::{
    BRANCHES, Change, DIAGRAMS, HEADS, NO_COUNT, NO_LEAF, NO_TURN, NO_UNITS, NOT_WHOLE, WORDS,
};
use crate::reading::{around, behind, first_word, model_of, refused};
use crate::texts::{FOLLOW, FOLLOWED, KEEP, KEPT, KEPT_1};
use spd_cert::CertRefusal;
use spd_model::Model;
use std::alloc::Global;
use std::test::Fail;

/// Fails where a text with one of these changes isn't refused for what the change says.
fn refused_each(alloc: Global, file: &str, text: &str, changes: &[Change]) -> Result<(), Fail> {
    let model = model_of(alloc, file)?;
    for (from, to, wrong, at) in changes {
        let Some((front, back)) = around(text.as_bytes(), from.as_bytes()) else {
            return Err(Fail::new(from));
        };
        let refusal = wrong.at(front.len().saturating_add(*at));
        refused(alloc, &model, front, to.as_bytes(), back, refusal)?;
    }
    Ok(())
}

#[test]
fn heads(rt: HostRuntime) -> Result<(), Fail> {
    refused_each(rt.alloc(), KEEP, KEPT, HEADS)
}

#[test]
fn diagrams(rt: HostRuntime) -> Result<(), Fail> {
    refused_each(rt.alloc(), KEEP, KEPT, DIAGRAMS)
}

#[test]
fn branches(rt: HostRuntime) -> Result<(), Fail> {
    refused_each(rt.alloc(), FOLLOW, FOLLOWED, BRANCHES)
}

/// Fails where one of these words isn't refused in the place behind a part of a text.
fn no_numbers(alloc: Global, model: &Model, part: &str, words: &[&str]) -> Result<(), Fail> {
    let Some((front, rest)) = behind(KEPT.as_bytes(), part.as_bytes()) else {
        return Err(Fail::new(part));
    };
    let (_, back) = first_word(rest);
    let refusal = CertRefusal::Number { at: front.len() };
    for word in words {
        refused(alloc, model, front, word.as_bytes(), back, refusal)?;
    }
    Ok(())
}

#[test]
fn numbers(rt: HostRuntime) -> Result<(), Fail> {
    let model = model_of(rt.alloc(), KEEP)?;
    for (part, words) in [
        ("turn ", NOT_WHOLE),
        ("turn ", NO_TURN),
        ("value ", NOT_WHOLE),
        ("value ", NO_COUNT),
        ("policy ", NOT_WHOLE),
        ("policy ", NO_COUNT),
        ("branch x ", NOT_WHOLE),
        ("branch x 0 ", NOT_WHOLE),
        ("residual ", NO_UNITS),
        ("error ", NO_UNITS),
        ("0 leaf ", NO_LEAF),
    ] {
        no_numbers(rt.alloc(), &model, part, words)?;
    }
    Ok(())
}

/// Where a text goes on behind its first word and what ends it.
fn next_word(text: &[u8]) -> &[u8] {
    let (_, rest) = first_word(text);
    match rest.split_first() {
        Some((_, next)) => next,
        None => rest,
    }
}

/// Each word, with another in its place.
#[test]
fn each_word(rt: HostRuntime) -> Result<(), Fail> {
    let model = model_of(rt.alloc(), KEEP)?;
    let mut rest = KEPT.as_bytes();
    for wrong in WORDS {
        let at = KEPT.len().saturating_sub(rest.len());
        let (front, _) = KEPT.as_bytes().split_at(at);
        let (_, back) = first_word(rest);
        refused(rt.alloc(), &model, front, b"~", back, wrong.at(at))?;
        rest = next_word(rest);
    }
    assert!(rt; rest.is_empty());
    Ok(())
}

/// Each front of a text.
fn each_cut(alloc: Global, file: &str, text: &str) -> Result<(), Fail> {
    let model = model_of(alloc, file)?;
    for at in 0..text.len() {
        let (front, _) = text.as_bytes().split_at(at);
        refused(alloc, &model, front, b"", b"", CertRefusal::End { at })?;
    }
    Ok(())
}

#[test]
fn cuts(rt: HostRuntime) -> Result<(), Fail> {
    for (file, text) in [(KEEP, KEPT), (KEEP, KEPT_1), (FOLLOW, FOLLOWED)] {
        each_cut(rt.alloc(), file, text)?;
    }
    Ok(())
}

/// Each byte of a text, with a bad one in its place.
#[test]
fn bad_bytes(rt: HostRuntime) -> Result<(), Fail> {
    let model = model_of(rt.alloc(), KEEP)?;
    let text = KEPT.as_bytes();
    for at in 0..text.len() {
        let (front, rest) = text.split_at(at);
        let (_, back) = rest.split_at(1);
        for bad in [b"\0", b"\t", b"\r", b"\x1f", b"\x7f", b"\x80", b"\xff"] {
            refused(
                rt.alloc(),
                &model,
                front,
                bad,
                back,
                CertRefusal::BadByte { at },
            )?;
        }
    }
    let at = text.len() + 1;
    refused(
        rt.alloc(),
        &model,
        b"~",
        text,
        b"\t",
        CertRefusal::BadByte { at },
    )
}

/// A space between two words is doubled, or the line ends there.
fn at_space(alloc: Global, model: &Model, front: &[u8], back: &[u8]) -> Result<(), Fail> {
    let at = front.len();
    refused(
        alloc,
        model,
        front,
        b"  ",
        back,
        CertRefusal::Expected { at: at + 1 },
    )?;
    refused(
        alloc,
        model,
        front,
        b"\n",
        back,
        CertRefusal::Expected { at },
    )
}

/// A line has a space or a word too many at its end, or its LF is doubled, or a space stands behind it or in its place.
fn at_line(alloc: Global, model: &Model, front: &[u8], back: &[u8]) -> Result<(), Fail> {
    let at = front.len() + 1;
    for more in [b" \n".as_slice(), b" ~\n"] {
        refused(
            alloc,
            model,
            front,
            more,
            back,
            CertRefusal::Expected { at },
        )?;
    }
    let behind = if back.is_empty() {
        CertRefusal::End { at }
    } else {
        CertRefusal::Expected { at }
    };
    for more in [b"\n\n".as_slice(), b"\n ", b" "] {
        refused(alloc, model, front, more, back, behind)?;
    }
    Ok(())
}

/// Each space and each LF of a text, with others in its place.
fn each_break(alloc: Global, file: &str, text: &str) -> Result<(), Fail> {
    let model = model_of(alloc, file)?;
    for at in 0..text.len() {
        let (front, rest) = text.as_bytes().split_at(at);
        if let Some(back) = rest.strip_prefix(b" ") {
            at_space(alloc, &model, front, back)?;
        }
        if let Some(back) = rest.strip_prefix(b"\n") {
            at_line(alloc, &model, front, back)?;
        }
    }
    Ok(())
}

#[test]
fn breaks(rt: HostRuntime) -> Result<(), Fail> {
    for (file, text) in [(KEEP, KEPT), (KEEP, KEPT_1), (FOLLOW, FOLLOWED)] {
        each_break(rt.alloc(), file, text)?;
    }
    Ok(())
}
