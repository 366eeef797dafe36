//! Text that a terminal can be given.
ghost use Rattle.std.specs.Prelude.{◌≡◌, ◌<◌, ◌∷◌, ◌++◌, [], length, replicate, OnOk, true};
ghost use Rattle.std.specs.List.{list_all};
ghost use Rattle.spd_edge.specs.Pieces.{text_of_pieces};
ghost use Rattle.spd_help.specs.Shown.{hex_digit, is_printable, is_shown, escape, shown, shown_byte};

use std::alloc::{AllocError, Global};
use std::marker::Model;

/// Text for a terminal: printable ASCII and ends of lines alone, so that nothing that stands in a file or a name can steer the terminal.
#[derive(Drop)]
pub struct Screen {
    text: Vec<u8>,
}

impl Model for Screen {
    ghost use Rattle.std.specs.Prelude.{◌≡◌, ℕ, List, true};
    ghost use Rattle.std.specs.List.{list_all};
    ghost use Rattle.spd_help.specs.Shown.{is_shown};

    ghost Value = { List ℕ };

    ghost view = { λ screen. screen.text.items };

    ghost invariant = { λ screen. list_all is_shown screen.text.items ≡ true };
}

/// Whether a byte is a printable one of ASCII.
fn is_printable(byte: u8) -> bool
    ensures { result ≡ is_printable byte }
{
    matches!(byte, b' '..=b'~')
}

/// The hexadecimal digit of a number below 16.
fn hex_digit(number: u8) -> u8
    requires { number < 16 }
    ensures digit { result ≡ hex_digit number }
    ensures shown { is_shown result ≡ true }
{
    if number < 10 {
        b'0' + number
    } else {
        b'a' - 10 + number
    }
}

impl Screen {
    /// No text.
    pub fn new(alloc: Global) -> Screen
        ensures { result ≡ [] }
    {
        Screen {
            text: Vec::new(alloc),
        }
    }

    /// The text.
    pub fn as_slice(&self) -> &[u8]
        ensures text { result.now ≡ self.now }
        ensures shown { list_all is_shown result.now ≡ true }
    {
        &self.text
    }

    /// Adds a byte that isn't printable: a tab as a blank, any other as `\x` and two digits.
    fn add_escape(&mut self, byte: u8) -> Result<(), AllocError>
        ensures { OnOk result (self.new ≡ self.old ++ escape byte) }
    {
        if byte == b'\t' {
            self.text.push(b' ')?;
        } else {
            let digits = [b'\\', b'x', hex_digit(byte / 16), hex_digit(byte % 16)];
            self.text.extend_from_slice(&digits)?;
        }
        Ok(())
    }

    /// Adds a byte as it is shown.
    #[tactic(auto, unfolding(crate::specs::Shown::shown_byte))]
    fn add_byte(&mut self, byte: u8) -> Result<(), AllocError>
        ensures { OnOk result (self.new ≡ self.old ++ shown_byte byte) }
    {
        if is_printable(byte) {
            self.text.push(byte)?;
            Ok(())
        } else {
            self.add_escape(byte)
        }
    }

    /// Adds a text as it is shown.
    pub fn add(&mut self, text: &[u8]) -> Result<(), AllocError>
        ensures { OnOk result (self.new ≡ self.old ++ shown text.now) }
    {
        for byte in text {
            self.add_byte(*byte)?;
        }
        Ok(())
    }

    /// Adds what stands on another screen.
    pub fn append(&mut self, other: &Screen) -> Result<(), AllocError>
        ensures { OnOk result (self.new ≡ self.old ++ other.now) }
    {
        self.text.extend_from_slice(other.as_slice())
    }

    /// Adds the end of a line.
    pub fn end_line(&mut self) -> Result<(), AllocError>
        ensures { OnOk result (self.new ≡ self.old ++ 10 ∷ []) }
    {
        self.text.push(b'\n')?;
        Ok(())
    }

    /// Adds a blank.
    fn add_blank(&mut self) -> Result<(), AllocError>
        ensures { OnOk result (self.new ≡ self.old ++ 32 ∷ []) }
    {
        self.text.push(b' ')?;
        Ok(())
    }

    /// Adds so many blanks.
    pub fn add_blanks(&mut self, count: usize) -> Result<(), AllocError>
        ensures { OnOk result (self.new ≡ self.old ++ replicate count 32) }
    {
        for _ in 0..count {
            self.add_blank()?;
        }
        Ok(())
    }

    /// Adds a line of these pieces.
    pub fn line(&mut self, pieces: &[&[u8]]) -> Result<(), AllocError>
        ensures { OnOk result (self.new ≡ self.old ++ (shown (text_of_pieces pieces.now) ++ 10 ∷ [])) }
    {
        for piece in pieces {
            self.add(piece)?;
        }
        self.end_line()
    }
}
