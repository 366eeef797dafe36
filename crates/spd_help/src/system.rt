//! What a person is told of a file that the system doesn't open or read.

use crate::screen::Screen;
use std::alloc::AllocError;
use std::io::ErrorKind;

/// Why the system doesn't open or read a file, in words.
fn reason(kind: ErrorKind) -> Option<&'static [u8]> {
    match kind {
        ErrorKind::NotFound => Some(b"  There is no such file or folder."),
        ErrorKind::PermissionDenied => Some(b"  It may not be read: permission is denied."),
        ErrorKind::NotADirectory => Some(b"  A part of the path is a file and no folder."),
        ErrorKind::IsADirectory => Some(b"  It is a folder."),
        ErrorKind::InvalidInput => Some(
            b"  Its name can't be a path: a path is UTF-8 and has no zero byte.",
        ),
        ErrorKind::InvalidFilename => Some(b"  Its name is too long."),
        ErrorKind::FilesystemLoop => Some(
            b"  Too many links lead to it, or they lead in a circle.",
        ),
        _ => None,
    }
}

/// Adds why the system doesn't open or read a file, where there are words for it.
pub fn tell_system(screen: &mut Screen, kind: ErrorKind) -> Result<(), AllocError> {
    match reason(kind) {
        Some(sentence) => screen.line(&[sentence]),
        None => Ok(()),
    }
}
