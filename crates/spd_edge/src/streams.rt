//! Readers and writers of the system as sources and sinks. Nothing is told of their bytes.
ghost use Rattle.std.specs.Prelude.{◌≡◌, ◌^◌, ◌<◌, ◌≤◌, ℕ, length, take, None, IfOk, OnOk, OnErr};
ghost use Rattle.std.specs.Io.KnownBytes.{Appends, Consumes, IsAtEnd, Keeps};
ghost use Rattle.spd_edge.specs.Counts.{counted};
ghost use Rattle.spd_edge.specs.Streams.{Adapted};

use crate::outside::{Failed, Opened, Sink, Source};
use std::fs::File;
use std::io::{self, Read, Stderr, Stdin, Stdout, Write};
use std::marker::Model;

/// A reader of the system as a source.
#[derive(Drop)]
pub struct ReaderIn<R> {
    name: Vec<u8>,
    stream: R,
    faults: u64,
}

/// An opened file as a source.
pub type FileIn = ReaderIn<File>;

/// Standard input as a source.
pub type StdIn = ReaderIn<Stdin>;

impl<R> Model for ReaderIn<R> {
    ghost Value = { Adapted R };

    ghost view = { λ input. record { name = input.name.items; stream = input.stream; faults = input.faults } };

    ghost invariant = { λ input. input.faults < 2 ^ 64 };
}

impl<R: Read> ReaderIn<R> {
    /// A source that reads from a reader and shows a name. Its count of faults begins at 0.
    pub fn new(name: Vec<u8>, reader: R) -> Self
        ensures { result ≡ record { name = name.items; stream = reader; faults = 0 } }
    {
        ReaderIn {
            name,
            stream: reader,
            faults: 0,
        }
    }

    /// How many of its reads failed.
    pub(crate) fn faults(&self) -> u64
        ensures { result ≡ self.now.faults }
    {
        self.faults
    }
}

impl<R: Read> Opened for ReaderIn<R> {
    ghost name = { λ input. input.name };
}

impl<R: Read> Source for ReaderIn<R> {
    ghost faults = { λ input. input.faults };

    ghost left = { λ _. None };

    fn read(&mut self, buf: &mut [u8]) -> Result<usize, Failed>
        ensures within { IfOk result (λ n. n ≤ length buf.old) }

        // Where the reader's bytes are known, they are passed on.
        ensures given { IfOk result (λ n. Consumes (R.remaining self.old.stream) (R.remaining self.new.stream) (take n buf.new)) }
        ensures end { IfOk result (λ n. n ≡ 0 → 0 < length buf.old → IsAtEnd (R.remaining self.new.stream)) }
        ensures failed_gave_nothing { OnErr result (Keeps (R.remaining self.old.stream) (R.remaining self.new.stream)) }

        ensures ok { OnOk result (self.new.faults ≡ self.old.faults) }
        ensures failed { OnErr result (self.new.faults ≡ counted self.old.faults 1) }
        ensures never_falls { self.old.faults ≤ self.new.faults }
        ensures count { self.new.faults < 2 ^ 64 }
        ensures named { self.new.name ≡ self.old.name }
    {
        match self.stream.read(buf) {
            Ok(n) => Ok(n),
            Err(_) => {
                self.faults = self.faults.saturating_add(1);
                Err(Failed)
            }
        }
    }
}

/// A writer of the system as a sink. Each write is flushed before it answers, so nothing is left to be
/// lost where the sink is closed.
#[derive(Drop)]
pub struct WriterOut<W> {
    name: Vec<u8>,
    stream: W,
    faults: u64,
}

/// An opened file as a sink.
pub type FileOut = WriterOut<File>;

/// Standard output as a sink.
pub type StdOut = WriterOut<Stdout>;

/// Standard error as a sink.
pub type StdErr = WriterOut<Stderr>;

impl<W> Model for WriterOut<W> {
    ghost Value = { Adapted W };

    ghost view = { λ output. record { name = output.name.items; stream = output.stream; faults = output.faults } };

    ghost invariant = { λ output. output.faults < 2 ^ 64 };
}

impl<W: Write> WriterOut<W> {
    /// A sink that writes to a writer and shows a name. Its count of faults begins at 0.
    pub fn new(name: Vec<u8>, writer: W) -> Self
        ensures { result ≡ record { name = name.items; stream = writer; faults = 0 } }
    {
        WriterOut {
            name,
            stream: writer,
            faults: 0,
        }
    }

    /// How many of its writes failed.
    pub(crate) fn faults(&self) -> u64
        ensures { result ≡ self.now.faults }
    {
        self.faults
    }
}

impl<W: Write> Opened for WriterOut<W> {
    ghost name = { λ output. output.name };
}

impl<W: Write> Sink for WriterOut<W> {
    ghost faults = { λ output. output.faults };

    ghost taken = { λ _. None };

    fn write(&mut self, piece: &[u8]) -> Result<usize, Failed>
        ensures within { IfOk result (λ n. n ≤ length piece.now) }
        ensures progress { IfOk result (λ n. 0 < length piece.now → 0 < n) }

        // Where the writer's bytes are known, it takes these. A write whose flush fails may have reached
        // it.
        ensures given { IfOk result (λ n. Appends (W.contents self.old.stream) (W.contents self.new.stream) (take n piece.now)) }
        ensures failed_gave_a_front { OnErr result ((n : ℕ) × Appends (W.contents self.old.stream) (W.contents self.new.stream) (take n piece.now)) }

        ensures ok { OnOk result (self.new.faults ≡ self.old.faults) }
        ensures failed { OnErr result (self.new.faults ≡ counted self.old.faults 1) }
        ensures never_falls { self.old.faults ≤ self.new.faults }
        ensures count { self.new.faults < 2 ^ 64 }
        ensures named { self.new.name ≡ self.old.name }
    {
        match write_through(&mut self.stream, piece) {
            Ok(n) if n > 0 || piece.is_empty() => Ok(n),
            _ => {
                self.faults = self.faults.saturating_add(1);
                Err(Failed)
            }
        }
    }
}

/// Writes some bytes and flushes them.
fn write_through<W: Write>(writer: &mut W, piece: &[u8]) -> io::Result<usize>
    ensures within { IfOk result (λ n. n ≤ length piece.now) }
    ensures given { IfOk result (λ n. Appends (W.contents writer.old) (W.contents writer.new) (take n piece.now)) }
    ensures failed_gave_a_front { OnErr result ((n : ℕ) × Appends (W.contents writer.old) (W.contents writer.new) (take n piece.now)) }
{
    let n = writer.write(piece)?;
    writer.flush()?;
    Ok(n)
}
