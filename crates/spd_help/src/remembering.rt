//! A place that remembers what was read.
ghost use Rattle.std.specs.Prelude.{◌≡◌, [], List, ℕ};

use spd_edge::{Failed, Open, Opened, Place, Source};
use std::alloc::Global;

/// An input whose bytes are remembered as they are read, as long as there is memory for them.
#[derive(Drop)]
pub struct RememberingIn<S> {
    source: S,
    wanted: bool,
    bytes: Vec<u8>,
}

impl<S: Opened> Opened for RememberingIn<S> {
    ghost name = { λ input. S.name input.source };
}

impl<S: Source> Source for RememberingIn<S> {
    ghost faults = { λ input. S.faults input.source };

    ghost left = { λ input. S.left input.source };

    fn read(&mut self, buf: &mut [u8]) -> Result<usize, Failed> {
        let count = self.source.read(buf)?;
        if self.wanted && self.bytes.extend_from_slice(&buf[..count]).is_err() {
            self.wanted = false;
            self.bytes.clear();
        }
        Ok(count)
    }
}

/// A place that is in all things like another one, and remembers the bytes of the first two inputs that are closed, where it is to.
#[derive(Drop)]
pub struct Remembering<P> {
    place: P,
    wanted: bool,
    alloc: Global,
    first: Option<Vec<u8>>,
    second: Option<Vec<u8>>,
}

/// The bytes of an input, where there is one.
fn bytes_of(input: &Option<Vec<u8>>) -> &[u8] {
    match input {
        Some(bytes) => bytes,
        None => &[],
    }
}

impl<P: Place> Remembering<P> {
    /// The same place, which remembers what is read, where it is wanted.
    pub fn new(alloc: Global, place: P, wanted: bool) -> Self
        ensures inputs { P.inputs result.place ≡ P.inputs place }
        ensures outputs { P.outputs result.place ≡ P.outputs place }
    {
        Remembering {
            place,
            wanted,
            alloc,
            first: None,
            second: None,
        }
    }

    /// The bytes of the input that was closed first: none where they weren't wanted, or where there was no memory for them.
    pub fn first(&self) -> &[u8] {
        bytes_of(&self.first)
    }

    /// The bytes of the input that was closed next, in the same way.
    pub fn second(&self) -> &[u8] {
        bytes_of(&self.second)
    }
}

impl<P: Place> Place for Remembering<P> {
    type In = RememberingIn<P::In>;

    type Out = P::Out;

    ghost inputs = { λ remembering. P.inputs remembering.place };

    ghost outputs = { λ remembering. P.outputs remembering.place };

    fn open_in(&mut self, name: &[u8]) -> Result<Self::In, Open> {
        let source = self.place.open_in(name)?;
        Ok(RememberingIn {
            source,
            wanted: self.wanted,
            bytes: Vec::new(self.alloc),
        })
    }

    fn open_out(&mut self, name: &[u8]) -> Result<Self::Out, Open> {
        self.place.open_out(name)
    }

    fn close_in(&mut self, name: &[u8], input: Self::In) {
        let RememberingIn {
            source,
            wanted: _,
            bytes,
        } = input;
        self.place.close_in(name, source);
        if self.first.is_none() {
            self.first = Some(bytes);
        } else if self.second.is_none() {
            self.second = Some(bytes);
        }
    }

    fn close_out(&mut self, name: &[u8], output: Self::Out) {
        self.place.close_out(name, output);
    }
}
