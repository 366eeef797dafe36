//! A command over memory.
use spd_edge::{MemIn, MemOut, MemPlace};
use spd_model::Word;
use spd_solver::{Status, Watch, number, solve_run, write_message};
use spd_tasks::{Gate, Open};
use sqlite_items::Items;
use std::alloc::AllocError;
use std::thread::Threads;

/// What a command came to: its exit status, its message, and what its output took.
#[derive(Drop)]
pub struct Answer {
    pub number: u8,
    pub message: Vec<u8>,
    pub output: Vec<u8>,
}

/// What lies outside a command: the file under the name `m`, and the output. Calls are numbered from 0.
#[derive(Clone, Copy)]
pub struct Outside<'a> {
    pub file: &'a [u8],
    /// The most bytes that a read gives and a write takes, where 0 is as 1.
    pub most: usize,
    /// The most bytes that the output takes in all.
    pub room: usize,
    /// The reads that fail.
    pub failing_reads: &'a [u64],
    /// The writes that fail.
    pub failing_writes: &'a [u64],
}

impl<'a> Outside<'a> {
    /// An outside where no call fails. Reads and writes take at most `most` bytes a call.
    pub fn calm(file: &'a [u8], most: usize) -> Self {
        Outside {
            file,
            most,
            room: 10_000,
            failing_reads: &[],
            failing_writes: &[],
        }
    }
}

/// Words from their texts.
pub fn words<R: AllocGlobal>(rt: &R, texts: &[&str]) -> Result<Vec<Word>, AllocError> {
    let mut words = Vec::new(rt.alloc());
    for text in texts {
        words.push(Items::from_slice(rt.alloc(), text.as_bytes())?)?;
    }
    Ok(words)
}

/// The message of a status, which fits into 1,000 bytes.
pub fn message<R: AllocGlobal>(rt: &R, status: &Status) -> Result<Vec<u8>, AllocError> {
    let mut errors = MemOut::new(rt.alloc(), 1000, 7, Vec::new(rt.alloc()))?;
    match write_message(status, &mut errors) {
        Ok(()) => errors.taken().to_vec(rt.alloc()),
        Err(_) => Ok(Vec::new(rt.alloc())),
    }
}

/// What these words come to, with a gate.
pub fn run_with<R: AllocGlobal + Threads + Sync, G: Gate + Watch>(
    rt: &R,
    gate: &G,
    texts: &[&str],
    outside: Outside<'_>,
) -> Result<Answer, AllocError> {
    let words = words(rt, texts)?;
    let file = outside.file.to_vec(rt.alloc())?;
    let failing_reads = outside.failing_reads.to_vec(rt.alloc())?;
    let failing_writes = outside.failing_writes.to_vec(rt.alloc())?;
    let most = outside.most.max(1);
    let mut place = MemPlace::new(rt.alloc());
    place.put_in(b"m", MemIn::new(file, most, failing_reads))?;
    let mut out = MemOut::new(rt.alloc(), outside.room, most, failing_writes)?;
    let status = solve_run(rt, gate, rt.alloc(), &words, &mut place, &mut out);
    Ok(Answer {
        number: number(&status),
        message: message(rt, &status)?,
        output: out.taken().to_vec(rt.alloc())?,
    })
}

/// What these words come to.
pub fn run<R: AllocGlobal + Threads + Sync>(
    rt: &R,
    texts: &[&str],
    outside: Outside<'_>,
) -> Result<Answer, AllocError> {
    run_with(rt, &Open, texts, outside)
}

/// What `solve m` comes to for this file.
pub fn solve<R: AllocGlobal + Threads + Sync>(rt: &R, file: &[u8]) -> Result<Answer, AllocError> {
    run(rt, &["solve", "m"], Outside::calm(file, 4096))
}
