//! Sources and sinks in memory, whose calls are numbered from 0 and fail at the numbers that were given.
ghost use Rattle.std.specs.Prelude.{◌≡◌, ◌+◌, ◌^◌, ◌<◌, ◌≤◌, [], ◌++◌, length, drop, vec_len, vec_capacity, ◌↔◌, Some, IsTrue, IsErr, IfOk, OnOk, OnErr};
ghost use Rattle.spd_edge.specs.Memory.{Input, Output, is_failing, number_after, bytes_given, after_giving, after_no_read, is_refusing, bytes_taken, after_taking, after_no_write};

use crate::outside::{Failed, Memory, Opened, Sink, Source};
use std::alloc::Global;
use std::marker::Model;

/// Whether the call of this number is one of those that fail.
fn is_failing_call(fail: &[u64], number: Option<u64>) -> bool
    ensures { result ≡ is_failing fail.now number }
{
    match number {
        Some(number) => fail.contains(&number),
        None => false,
    }
}

/// The number of the call after the one of this number.
fn next_number(number: Option<u64>) -> Option<u64>
    ensures { result ≡ number_after number }
{
    match number {
        Some(number) if number < u64::MAX => Some(number + 1),
        _ => None,
    }
}

/// A source in memory. A call that doesn't fail gives as many bytes as the buffer, `most` and what
/// is left allow.
#[derive(Drop)]
pub struct MemIn {
    name: Vec<u8>,
    bytes: Vec<u8>,
    given: usize,
    most: usize,
    fail: Vec<u64>,
    next: Option<u64>,
    faults: u64,
}

impl Model for MemIn {
    ghost Value = { Input };

    ghost view = { λ s. record { name = s.name.items; left = drop s.given s.bytes.items; most = s.most; fail = s.fail.items; next = s.next; faults = s.faults } };

    ghost invariant = { λ s. (s.given ≤ vec_len s.bytes) × (1 ≤ s.most) };
}

impl MemIn {
    /// A source of these bytes, which gives at most `most` of them in one call. The calls whose
    /// numbers are in `fail` fail. Its name is empty.
    pub fn new(bytes: Vec<u8>, most: usize, fail: Vec<u64>) -> MemIn
        requires { 1 ≤ most }
        ensures { result ≡ record { name = []; left = bytes.items; most = most; fail = fail.items; next = Some 0; faults = 0 } }
    {
        MemIn {
            name: Vec::new(*bytes.allocator()),
            bytes,
            given: 0,
            most,
            fail,
            next: Some(0),
            faults: 0,
        }
    }

    /// The name under which it was opened.
    pub fn name(&self) -> &[u8]
        ensures { result.now ≡ self.now.name }
    {
        &self.name
    }

    /// How many of its reads failed.
    pub fn faults(&self) -> u64
        ensures { result ≡ self.now.faults }
    {
        self.faults
    }

    /// The same source under another name.
    pub(crate) fn named(self, name: &[u8]) -> Result<MemIn, Memory>
        ensures { IfOk result (λ input. input ≡ record self { name = name.now }) }
    {
        let mut input = self;
        input.name = name.to_vec(*input.bytes.allocator())?;
        Ok(input)
    }

    /// A copy of it.
    pub(crate) fn copied(&self) -> Result<MemIn, Memory>
        ensures { IfOk result (λ input. input ≡ self.now) }
    {
        Ok(MemIn {
            name: self.name.clone()?,
            bytes: self.bytes.clone()?,
            given: self.given,
            most: self.most,
            fail: self.fail.clone()?,
            next: self.next,
            faults: self.faults,
        })
    }

    /// Begins a call, and says whether it is one of those that fail.
    fn begin_call(&mut self) -> bool
        ensures fails { result ≡ is_failing self.old.fail self.old.next }
        ensures after { self.new ≡ record self.old { next = number_after self.old.next } }
    {
        let is_failing = is_failing_call(&self.fail, self.next);
        self.next = next_number(self.next);
        is_failing
    }
}

impl Opened for MemIn {
    ghost name = { λ s. s.name };
}

impl Source for MemIn {
    ghost faults = { λ s. s.faults };

    ghost left = { λ s. Some s.left };

    fn read(&mut self, buf: &mut [u8]) -> Result<usize, Failed>
        ensures fails { IsErr result ↔ IsTrue (is_failing self.old.fail self.old.next) }
        ensures number { IfOk result (λ n. n ≡ length (bytes_given self.old (length buf.old))) }
        ensures gave { OnOk result (self.new ≡ after_giving self.old (bytes_given self.old (length buf.old))) }
        ensures failed { OnErr result (self.new ≡ after_no_read self.old) }
        ensures filled { IfOk result (λ n. buf.new ≡ bytes_given self.old (length buf.old) ++ drop n buf.old) }
        ensures unfilled { OnErr result (buf.new ≡ buf.old) }

        // Of the trait's clauses, those that do not follow.
        ensures end { IfOk result (λ n. n ≡ 0 → 0 < length buf.old → self.new.left ≡ []) }
        ensures never_falls { self.old.faults ≤ self.new.faults }
        ensures count { self.new.faults < 2 ^ 64 }
    {
        if self.begin_call() {
            self.faults = self.faults.saturating_add(1);
            return Err(Failed);
        }
        let n = self.most.min(buf.len()).min(self.bytes.len() - self.given);
        buf[..n].copy_from_slice(&self.bytes[self.given..self.given + n]);
        self.given += n;
        Ok(n)
    }
}

/// A sink in memory. A call that doesn't fail takes as many bytes as the piece, `most` and the room
/// allow. A piece that isn't empty fails where no room is left.
#[derive(Drop)]
pub struct MemOut {
    name: Vec<u8>,
    taken: Vec<u8>,
    room: usize,
    most: usize,
    fail: Vec<u64>,
    next: Option<u64>,
    faults: u64,
}

impl Model for MemOut {
    ghost Value = { Output };

    ghost view = { λ k. record { name = k.name.items; taken = k.taken.items; room = k.room; most = k.most; fail = k.fail.items; next = k.next; faults = k.faults } };

    ghost invariant = { λ k. (vec_len k.taken ≤ k.room) × (k.room ≤ vec_capacity k.taken) × (1 ≤ k.most) };
}

impl MemOut {
    /// A sink which takes at most `room` bytes in all and at most `most` of them in one call. The
    /// calls whose numbers are in `fail` fail. Its name is empty.
    ///
    /// The memory for `room` bytes is taken here, and none later.
    pub fn new(alloc: Global, room: usize, most: usize, fail: Vec<u64>) -> Result<MemOut, Memory>
        requires { 1 ≤ most }
        ensures { IfOk result (λ k. k ≡ record { name = []; taken = []; room = room; most = most; fail = fail.items; next = Some 0; faults = 0 }) }
    {
        Ok(MemOut {
            name: Vec::new(alloc),
            taken: Vec::with_capacity(alloc, room)?,
            room,
            most,
            fail,
            next: Some(0),
            faults: 0,
        })
    }

    /// The bytes that it took.
    pub fn taken(&self) -> &[u8]
        ensures { result.now ≡ self.now.taken }
    {
        &self.taken
    }

    /// The name under which it was opened.
    pub fn name(&self) -> &[u8]
        ensures { result.now ≡ self.now.name }
    {
        &self.name
    }

    /// How many of its writes failed.
    pub fn faults(&self) -> u64
        ensures { result ≡ self.now.faults }
    {
        self.faults
    }

    /// The same sink under another name.
    pub(crate) fn named(self, name: &[u8]) -> Result<MemOut, Memory>
        ensures { IfOk result (λ output. output ≡ record self { name = name.now }) }
    {
        let mut output = self;
        output.name = name.to_vec(*output.taken.allocator())?;
        Ok(output)
    }

    /// A copy of it, with memory for its room.
    pub(crate) fn copied(&self) -> Result<MemOut, Memory>
        ensures { IfOk result (λ output. output ≡ self.now) }
    {
        let mut taken = Vec::with_capacity(*self.taken.allocator(), self.room)?;
        taken.extend_from_slice(&self.taken)?;
        Ok(MemOut {
            name: self.name.clone()?,
            taken,
            room: self.room,
            most: self.most,
            fail: self.fail.clone()?,
            next: self.next,
            faults: self.faults,
        })
    }

    /// Begins a call, and says whether it is one of those that fail.
    fn begin_call(&mut self) -> bool
        ensures fails { result ≡ is_failing self.old.fail self.old.next }
        ensures after { self.new ≡ record self.old { next = number_after self.old.next } }
    {
        let is_failing = is_failing_call(&self.fail, self.next);
        self.next = next_number(self.next);
        is_failing
    }
}

impl Opened for MemOut {
    ghost name = { λ k. k.name };
}

impl Sink for MemOut {
    ghost faults = { λ k. k.faults };

    ghost taken = { λ k. Some k.taken };

    fn write(&mut self, piece: &[u8]) -> Result<usize, Failed>
        ensures fails { IsErr result ↔ IsTrue (is_refusing self.old piece.now) }
        ensures number { IfOk result (λ n. n ≡ length (bytes_taken self.old piece.now)) }
        ensures took { OnOk result (self.new ≡ after_taking self.old (bytes_taken self.old piece.now)) }
        ensures failed { OnErr result (self.new ≡ after_no_write self.old) }

        // Of the trait's clauses, those that do not follow.
        ensures progress { IfOk result (λ n. 0 < length piece.now → 0 < n) }
        ensures never_falls { self.old.faults ≤ self.new.faults }
        ensures count { self.new.faults < 2 ^ 64 }
    {
        let is_failing = self.begin_call();
        let free = self.room - self.taken.len();
        if is_failing || (!piece.is_empty() && free == 0) {
            self.faults = self.faults.saturating_add(1);
            return Err(Failed);
        }
        let n = self.most.min(free).min(piece.len());
        match self.taken.extend_from_slice(&piece[..n]) {
            Ok(()) => Ok(n),
            Err(_) => unreachable!(),
        }
    }
}
