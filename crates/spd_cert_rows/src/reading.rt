//! Models of files, and texts that are taken apart and put together.
use spd_cert::{CertRefusal, Uncert, read_cert};
use spd_model::Model;
use spd_reader::read_model;
use std::alloc::{AllocError, Global};
use std::test::Fail;

/// The model of a file.
pub fn model_of(alloc: Global, file: &str) -> Result<Model, Fail> {
    let bytes = file.as_bytes();
    if bytes.len() > 4_000_000 {
        return Err(Fail::new("too long"));
    }
    match read_model(alloc, bytes) {
        Ok(model) => Ok(model),
        Err(unread) => Err(Fail::new(format_args!("{unread:?}"))),
    }
}

/// What stands before a part of a text, where it stands first, and what stands behind it.
pub fn around<'t>(text: &'t [u8], part: &[u8]) -> Option<(&'t [u8], &'t [u8])> {
    for at in 0..text.len() {
        let (front, rest) = text.split_at(at);
        if let Some(back) = rest.strip_prefix(part) {
            return Some((front, back));
        }
    }
    None
}

/// A text up to the end of a part of it, where it stands first, and what stands behind it.
pub fn behind<'t>(text: &'t [u8], part: &[u8]) -> Option<(&'t [u8], &'t [u8])> {
    for at in 0..text.len() {
        let (front, back) = text.split_at(at);
        if front.ends_with(part) {
            return Some((front, back));
        }
    }
    None
}

/// The first word of a text, and what stands from the space or LF on that ends it.
pub fn first_word(text: &[u8]) -> (&[u8], &[u8]) {
    for at in 0..text.len() {
        if text[at] == b' ' || text[at] == b'\n' {
            return text.split_at(at);
        }
    }
    text.split_at(text.len())
}

/// These three parts as one text.
pub fn joined(
    alloc: Global,
    front: &[u8],
    middle: &[u8],
    back: &[u8],
) -> Result<Vec<u8>, AllocError> {
    let mut text = front.to_vec(alloc)?;
    text.extend_from_slice(middle)?;
    text.extend_from_slice(back)?;
    Ok(text)
}

/// Fails where these three parts are read as a certificate, or where they are refused for something else.
pub fn refused(
    alloc: Global,
    model: &Model,
    front: &[u8],
    middle: &[u8],
    back: &[u8],
    wanted: CertRefusal,
) -> Result<(), Fail> {
    let text = joined(alloc, front, middle, back)?;
    match read_cert(alloc, &text, model) {
        Err(Uncert::Refused(refusal)) if refusal == wanted => Ok(()),
        Err(other) => Err(Fail::new(format_args!("{wanted:?} is {other:?}"))),
        Ok(_) => Err(Fail::new(format_args!("{wanted:?} is read"))),
    }
}
