//! The place of the system: its files and standard streams. It tells no bytes, and is the edge that is trusted.
ghost use Rattle.std.specs.Prelude.{◌≡◌, ◌^◌, ◌<◌, ℕ, List, [], None, Some, IfOk, IsErr, OnOk, OnErr, IfErr};
ghost use Rattle.spd_edge.specs.Counts.{NoneFalls, counted};
ghost use Rattle.spd_edge.specs.Direction.{Closes, staged};
ghost use Rattle.spd_edge.specs.declared.outside.Open.TheVariants as Open;
ghost use Rattle.spd_edge.specs.declared.outside.Stage.TheVariants as Stage;

use crate::openings::Openings;
use crate::outside::{Memory, Open, Place, Stage};
use crate::streams::{ReaderIn, WriterOut};
use std::alloc::Global;
use std::io::{Input, Print, Read, Write};
use std::marker::Model;
use std::rt::Files;
use std::{fs, io, str};

/// The standard output, as a writer that keeps no byte back.
#[derive(Drop)]
pub struct Printed<R> {
    rt: R,
}

impl<R: Print> Write for Printed<R> {
    fn write(&mut self, buf: &[u8]) -> io::Result<usize> {
        self.rt.write_some(buf)
    }

    fn flush(&mut self) -> io::Result<()> {
        Ok(())
    }
}

/// What the place of the system reads an input from, or writes an output to.
#[derive(Drop)]
pub enum Stream<F, S> {
    File(F),
    Standard(S),
}

impl<F: Read, S: Read> Read for Stream<F, S> {
    ghost use Rattle.spd_edge.specs.Real.{told_by_stream};

    ghost remaining = { told_by_stream F.remaining S.remaining };

    fn read(&mut self, buf: &mut [u8]) -> io::Result<usize> {
        match self {
            Stream::File(file) => file.read(buf),
            Stream::Standard(stdin) => stdin.read(buf),
        }
    }
}

impl<F: Write, S: Write> Write for Stream<F, S> {
    ghost use Rattle.spd_edge.specs.Real.{told_by_stream};

    ghost contents = { told_by_stream F.contents S.contents };

    fn write(&mut self, buf: &[u8]) -> io::Result<usize> {
        match self {
            Stream::File(file) => file.write(buf),
            Stream::Standard(stdout) => stdout.write(buf),
        }
    }

    fn flush(&mut self) -> io::Result<()> {
        match self {
            Stream::File(file) => file.flush(),
            Stream::Standard(stdout) => stdout.flush(),
        }
    }
}

/// The path that a name is, where it is text.
fn path_of(name: &[u8]) -> io::Result<&str> {
    match str::from_utf8(name) {
        Ok(path) => Ok(path),
        Err(_) => Err(io::Error::from(io::ErrorKind::InvalidInput)),
    }
}

/// Opens the file of a name to read it, or standard input for `-`.
fn open_to_read<R: Files + Input>(rt: &R, name: &[u8]) -> io::Result<Stream<R::File, R::Reader>> {
    if name == b"-".as_slice() {
        return Ok(Stream::Standard(rt.reader()));
    }
    Ok(Stream::File(fs::open(rt, path_of(name)?)?))
}

/// Opens the file of a name to write it from its front, or standard output for `-`. A file that isn't
/// there is made, and one that is loses what it held.
fn open_to_write<R: Files + Print + Copy>(
    rt: &R,
    name: &[u8],
) -> io::Result<Stream<R::File, Printed<R>>> {
    if name == b"-".as_slice() {
        return Ok(Stream::Standard(Printed { rt: *rt }));
    }
    Ok(Stream::File(fs::create(rt, path_of(name)?)?))
}

/// One direction of the place: the names that it was asked to open, and one count of faults for all of them.
#[derive(Drop)]
struct RealDirection {
    openings: Openings,
    faults: u64,
    ghost in_range: { faults < 2 ^ 64 },
}

impl RealDirection {
    ghost use Rattle.spd_edge.specs.Real.{shown_by};

    fn new(alloc: Global) -> RealDirection
        ensures openings { result.openings ≡ [] }
        ensures no_fault_yet { result.faults ≡ 0 }
    {
        RealDirection {
            openings: Openings::new(alloc),
            faults: 0,
        }
    }

    /// Notes that a name is to be opened.
    fn ask(&mut self, name: &[u8]) -> Result<(), Memory>
        requires { (shown_by self.old).stage name.now ≡ None }
        ensures ok { OnOk result (shown_by self.new ≡ staged (shown_by self.old) name.now Stage.Unopened) }
        ensures err { OnErr result (self.new ≡ self.old) }
    {
        self.openings.ask(name)
    }

    /// Notes how the open of a name went, where the system's answer is known.
    fn settle<T>(&mut self, name: &[u8], opened: io::Result<T>) -> Result<T, Open>
        requires { (shown_by self.old).stage name.now ≡ Some Stage.Unopened }
        ensures ok { IfOk result (λ stream. opened ≡ Ok stream) }
        ensures opened { OnOk result (shown_by self.new ≡ staged (shown_by self.old) name.now Stage.Open) }
        ensures err { IfErr result (λ e. e ≡ Open.Failed) }
        ensures not_opened { OnErr result (IsErr opened) }
        ensures failed { OnErr result (shown_by self.new ≡ record (shown_by self.old) { faults = λ other. counted ((shown_by self.old).faults other) 1 }) }
    {
        match opened {
            Ok(stream) => {
                self.openings.set(name, Stage::Open);
                Ok(stream)
            }
            Err(_) => {
                self.faults = self.faults.saturating_add(1);
                Err(Open::Failed)
            }
        }
    }

    /// Notes that an object that counted these faults is closed.
    fn close(&mut self, name: &[u8], faults: u64)
        requires { (shown_by self.old).stage name.now ≡ Some Stage.Open }
        ensures closes { Closes (shown_by self.old) (shown_by self.new) name.now faults }
        ensures never_falls { NoneFalls (shown_by self.old).faults (shown_by self.new).faults }
    {
        self.openings.set(name, Stage::Closed);
        self.faults = self.faults.saturating_add(faults);
    }
}

/// The system's files by their paths, and standard input and output as `-`. In each direction every name has
/// one and the same count of faults.
#[derive(Drop)]
pub struct RealPlace<R> {
    rt: R,
    inputs: RealDirection,
    outputs: RealDirection,
}

impl<R> Model for RealPlace<R> {
    ghost use Rattle.spd_edge.specs.Real.{RealDirections};

    ghost Value = { RealDirections };

    ghost view = { λ place. record { inputs = place.inputs; outputs = place.outputs } };
}

impl<R: AllocGlobal> RealPlace<R> {
    ghost use Rattle.spd_edge.specs.Real.{shown_by};

    /// A place that was asked for no name. Its counts of faults begin at 0.
    pub fn new(rt: R) -> Self
        ensures inputs { (name : List ℕ) → (shown_by result.inputs).stage name ≡ None }
        ensures outputs { (name : List ℕ) → (shown_by result.outputs).stage name ≡ None }
        ensures no_fault_yet { (name : List ℕ) → ((shown_by result.inputs).faults name ≡ 0) × ((shown_by result.outputs).faults name ≡ 0) }
    {
        RealPlace {
            inputs: RealDirection::new(rt.alloc()),
            outputs: RealDirection::new(rt.alloc()),
            rt,
        }
    }
}

impl<R> Place for RealPlace<R>
where
    R: Files + Input + Print + AllocGlobal + Copy + Send,
    R::File: Send,
    R::Reader: Send,
{
    ghost use Rattle.spd_edge.specs.Real.{shown_by};

    type In = ReaderIn<Stream<R::File, R::Reader>>;

    type Out = WriterOut<Stream<R::File, Printed<R>>>;

    ghost inputs = { λ place. shown_by place.inputs };

    ghost outputs = { λ place. shown_by place.outputs };

    fn open_in(&mut self, name: &[u8]) -> Result<Self::In, Open> {
        let shown = name.to_vec(self.rt.alloc())?;
        self.inputs.ask(name)?;
        let opened = open_to_read(&self.rt, name);
        let stream = self.inputs.settle(name, opened)?;
        Ok(ReaderIn::new(shown, stream))
    }

    fn open_out(&mut self, name: &[u8]) -> Result<Self::Out, Open> {
        let shown = name.to_vec(self.rt.alloc())?;
        self.outputs.ask(name)?;
        let opened = open_to_write(&self.rt, name);
        let stream = self.outputs.settle(name, opened)?;
        Ok(WriterOut::new(shown, stream))
    }

    fn close_in(&mut self, name: &[u8], input: Self::In) {
        self.inputs.close(name, input.faults());
    }

    fn close_out(&mut self, name: &[u8], output: Self::Out) {
        self.outputs.close(name, output.faults());
    }
}
