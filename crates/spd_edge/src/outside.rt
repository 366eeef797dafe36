//! The traits of the outside, its faults, and how far a place came with a name.
ghost use Rattle.std.specs.Prelude.{◌≡◌, ℕ, ◌^◌, ◌<◌, ◌≤◌, List, [], Option, None, Some, length, take, IfOk, IfSome, OnOk, OnErr};
ghost use Rattle.spd_edge.specs.Counts.{AllInRange, NoneFalls, Rose};
ghost use Rattle.spd_edge.specs.Direction.{AfterOpen, Closes, Direction};
ghost use Rattle.spd_edge.specs.Names.{SameButFor};
ghost use Rattle.spd_edge.specs.Told.{Gave, IsAtEnd, Took};
ghost use Rattle.spd_edge.specs.declared.outside.Open.TheVariants as Open;
ghost use Rattle.spd_edge.specs.declared.outside.ReadAll.TheVariants as ReadAll;
ghost use Rattle.spd_edge.specs.declared.outside.Stage.TheVariants as Stage;

use std::alloc::AllocError;

/// Memory was wanted and not found.
pub type Memory = AllocError;

/// A read, a write or an open that the outside didn't do.
#[derive(Clone, Copy, Debug, PartialEq, Eq)]
pub struct Failed;

/// Why an object wasn't opened.
#[derive(Clone, Copy, Debug, PartialEq, Eq)]
pub enum Open {
    /// The outside didn't open it, and a fault of its name was counted.
    Failed,
    /// Memory was wanted and not found.
    Memory,
}

impl From<AllocError> for Open {
    ghost from_gives = { λ _ e. e ≡ Open.Memory };

    fn from(_: AllocError) -> Open {
        Open::Memory
    }
}

/// Why the bytes of a source weren't read to their end.
#[derive(Clone, Copy, Debug, PartialEq, Eq)]
pub enum ReadAll {
    /// A read failed.
    Fault,
    /// There are more bytes than the limit allows.
    TooLong,
    /// Memory was wanted and not found.
    Memory,
}

impl From<Failed> for ReadAll {
    ghost from_gives = { λ _ e. e ≡ ReadAll.Fault };

    fn from(_: Failed) -> ReadAll {
        ReadAll::Fault
    }
}

impl From<AllocError> for ReadAll {
    ghost from_gives = { λ _ e. e ≡ ReadAll.Memory };

    fn from(_: AllocError) -> ReadAll {
        ReadAll::Memory
    }
}

/// What was opened under a name.
pub trait Opened {
    /// The name under which it was opened.
    ghost name: { Self → List ℕ };
}

/// What bytes are read from.
pub trait Source: Opened {
    /// How many of its reads failed. A count at 2^64 - 1 stays there.
    ghost faults: { Self → ℕ };

    /// The bytes that it has left, where it tells them.
    ghost left: { Self → Option (List ℕ) };

    /// Reads some bytes into the front of `buf` and says how many. 0 for a buffer that isn't
    /// empty is the end of the input.
    ///
    /// # Errors
    ///
    /// `Failed` where the outside fails, which counts a fault and takes nothing.
    fn read(&mut self, buf: &mut [u8]) -> Result<usize, Failed>
        ensures within { IfOk result (λ n. n ≤ length buf.old) }
        ensures gave { IfOk result (λ n. Gave (left self.old) (take n buf.new) (left self.new)) }
        ensures end { IfOk result (λ n. n ≡ 0 → 0 < length buf.old → IsAtEnd (left self.new)) }
        ensures ok { OnOk result (faults self.new ≡ faults self.old) }
        ensures failed { OnErr result (Rose (faults self.old) (faults self.new)) }
        ensures failed_gave_nothing { OnErr result (left self.new ≡ left self.old) }
        ensures never_falls { faults self.old ≤ faults self.new }
        ensures count { faults self.new < 2 ^ 64 }
        ensures named { Self.name self.new ≡ Self.name self.old };
}

/// What bytes are written to.
pub trait Sink: Opened {
    /// How many of its writes failed. A count at 2^64 - 1 stays there.
    ghost faults: { Self → ℕ };

    /// The bytes that it took, where it tells them.
    ghost taken: { Self → Option (List ℕ) };

    /// Takes some bytes of the front of `piece` and says how many: at least one, unless the piece
    /// is empty.
    ///
    /// # Errors
    ///
    /// `Failed` where the outside fails, which counts a fault and adds nothing.
    fn write(&mut self, piece: &[u8]) -> Result<usize, Failed>
        ensures within { IfOk result (λ n. n ≤ length piece.now) }
        ensures progress { IfOk result (λ n. 0 < length piece.now → 0 < n) }
        ensures took { IfOk result (λ n. Took (taken self.old) (take n piece.now) (taken self.new)) }
        ensures ok { OnOk result (faults self.new ≡ faults self.old) }
        ensures failed { OnErr result (Rose (faults self.old) (faults self.new)) }
        ensures failed_took_nothing { OnErr result (taken self.new ≡ taken self.old) }
        ensures never_falls { faults self.old ≤ faults self.new }
        ensures count { faults self.new < 2 ^ 64 }
        ensures named { Self.name self.new ≡ Self.name self.old };
}

/// How far a place came with a name that it was asked to open, in one direction.
#[derive(Clone, Copy, Debug, PartialEq, Eq)]
pub enum Stage {
    /// It didn't open it.
    Unopened,
    /// It opened it, and it wasn't closed yet.
    Open,
    /// It opened it, and it was closed.
    Closed,
}

/// Where inputs and outputs are opened by their names, `-` for the standard ones. In each direction a
/// name is opened once, and what was opened is given back to `close_in` or `close_out`.
pub trait Place {
    /// An opened input.
    type In: Source + Send;

    /// An opened output.
    type Out: Sink + Send;

    /// What it shows of its inputs. A name's count of faults: opens that failed, and what closed inputs
    /// counted. A count at 2^64 - 1 stays there.
    ghost inputs: { Self → Direction };

    /// What it shows of its outputs, with counts of their own.
    ghost outputs: { Self → Direction };

    /// Opens the input of a name that it wasn't asked for as an input before.
    ///
    /// # Errors
    ///
    /// `Failed` where the outside doesn't open it, which counts a fault of that name, and `Memory`.
    fn open_in(&mut self, name: &[u8]) -> Result<Self::In, Open>
        requires { (inputs self.old).stage name.now ≡ None }

        ensures named { IfOk result (λ input. Self.In.name input ≡ name.now) }
        ensures no_fault_yet { IfOk result (λ input. Self.In.faults input ≡ 0) }
        ensures contents { IfOk result (λ input. Self.In.left input ≡ (inputs self.old).holds name.now) }

        ensures inputs { AfterOpen (inputs self.old) (inputs self.new) name.now result }
        ensures never_falls { NoneFalls (inputs self.old).faults (inputs self.new).faults }
        ensures in_range { AllInRange (inputs self.new).faults }
        ensures outputs { outputs self.new ≡ outputs self.old };

    /// Opens the output of a name that it wasn't asked for as an output before.
    ///
    /// # Errors
    ///
    /// `Failed` where the outside doesn't open it, which counts a fault of that name, and `Memory`.
    fn open_out(&mut self, name: &[u8]) -> Result<Self::Out, Open>
        requires { (outputs self.old).stage name.now ≡ None }

        ensures named { IfOk result (λ output. Self.Out.name output ≡ name.now) }
        ensures no_fault_yet { IfOk result (λ output. Self.Out.faults output ≡ 0) }
        ensures empty { IfOk result (λ output. IfSome (Self.Out.taken output) (λ taken. taken ≡ [])) }

        ensures outputs { AfterOpen (outputs self.old) (outputs self.new) name.now result }
        ensures never_falls { NoneFalls (outputs self.old).faults (outputs self.new).faults }
        ensures in_range { AllInRange (outputs self.new).faults }
        ensures inputs { inputs self.new ≡ inputs self.old };

    /// Closes the input of a name that is open. Its faults are added to the name's count.
    fn close_in(&mut self, name: &[u8], input: Self::In)
        requires named { Self.In.name input ≡ name.now }
        requires is_open { (inputs self.old).stage name.now ≡ Some Stage.Open }

        ensures inputs { Closes (inputs self.old) (inputs self.new) name.now (Self.In.faults input) }
        ensures holds { (inputs self.new).holds ≡ (inputs self.old).holds }
        ensures never_falls { NoneFalls (inputs self.old).faults (inputs self.new).faults }
        ensures in_range { AllInRange (inputs self.new).faults }
        ensures outputs { outputs self.new ≡ outputs self.old };

    /// Closes the output of a name that is open. Its faults are added to the name's count, and a place
    /// that tells what it holds now holds what the output took.
    fn close_out(&mut self, name: &[u8], output: Self::Out)
        requires named { Self.Out.name output ≡ name.now }
        requires is_open { (outputs self.old).stage name.now ≡ Some Stage.Open }

        ensures outputs { Closes (outputs self.old) (outputs self.new) name.now (Self.Out.faults output) }
        ensures holds { (outputs self.new).holds name.now ≡ Self.Out.taken output }
        ensures other_holds { SameButFor (outputs self.old).holds (outputs self.new).holds name.now }
        ensures never_falls { NoneFalls (outputs self.old).faults (outputs self.new).faults }
        ensures in_range { AllInRange (outputs self.new).faults }
        ensures inputs { inputs self.new ≡ inputs self.old };
}
