//! A line, as it is put together.

ghost use Rattle.std.specs.Prelude.{◌≡◌, ◌+◌, ◌≤◌, ◌++◌, [], length, decimal};
ghost use Rattle.spd_model.specs.ResultText.{units};

use itoa::Buffer;
use spd_scaled::put_units;
use std::marker::Model;

/// More bytes than any answer has.
const ROOM: usize = 512;

/// A line, as it is put together.
#[derive(Drop)]
pub(crate) struct Line {
    bytes: [u8; ROOM],
    len: usize,
}

impl Model for Line {
    ghost use Rattle.std.specs.Prelude.{ℕ, List, take, ◌≤◌};

    ghost Value = { List ℕ };

    ghost view = { λ l. take l.len l.bytes };

    ghost invariant = { λ l. l.len ≤ 512 };
}

impl Line {
    pub(crate) fn new() -> Line
        ensures { result ≡ [] }
    {
        Line {
            bytes: [0; ROOM],
            len: 0,
        }
    }

    pub(crate) fn bytes(&self) -> &[u8]
        ensures { result.now ≡ self.now }
    {
        &self.bytes[..self.len]
    }

    /// Adds a piece.
    pub(crate) fn put(&mut self, piece: &[u8])
        requires { length self.old + length piece.now ≤ 512 }
        ensures text { self.new ≡ self.old ++ piece.now }
        ensures long { length self.new ≡ length self.old + length piece.now }
    {
        let end = self.len + piece.len();
        self.bytes[self.len..end].copy_from_slice(piece);
        self.len = end;
    }

    /// Adds a whole number.
    pub(crate) fn put_number(&mut self, number: u32)
        requires { length self.old + 40 ≤ 512 }
        ensures text { self.new ≡ self.old ++ decimal number }
        ensures long { length self.new ≤ length self.old + 40 }
    {
        let mut digits = Buffer::new();
        self.put(digits.format(number).as_bytes());
    }

    /// Adds a number of units of 10^-9, with nine digits after the point.
    pub(crate) fn put_units(&mut self, number: i128)
        requires { length self.old + 64 ≤ 512 }
        ensures text { self.new ≡ self.old ++ units number }
        ensures long { length self.new ≤ length self.old + 64 }
    {
        let mut text = [0; 64];
        let len = put_units(number, 9, &mut text);
        self.put(&text[..len]);
    }
}
