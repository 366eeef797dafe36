//! The program `spudd`: the words of the command line, the system's files and streams, and the exit status.
#![tactic(auto)]

mod progress;
mod terminal;

use progress::{Cleared, Progress};
use spd_edge::{RealPlace, StdErr, StdOut, WriterOut};
use spd_help::{Remembering, Screen, show};
use spd_model::Word;
use spd_solver::{Status, number, solve_run, write_message};
use sqlite_items::Items;
use std::alloc::AllocError;
use std::env::{Env, FillError};
use std::io::IsTerminal;
use std::process::ExitCode;
use std::thread::Threads;
use terminal::{Told, tell};

/// What `--help` prints: a screen of 80 columns and 40 lines.
const HELP: &str = "\
spudd: near-optimal values and policies of factored Markov decision processes

    spudd solve FILE         solves the model in FILE on decision diagrams, and
                             prints the result; `-` is standard input
    spudd plain FILE         the same over tables of up to 4096 states
    spudd check FILE CERT    prints `yes` where the result CERT is right for the
                             model in FILE, or `no` and where it fails first
    spudd upgrade FILE CERT  the same; prints CERT in its newest form for `yes`
    spudd gen N              writes the file of a ring of N machines: 2 to 63
    spudd ring N             solves that file, and prints a summary
    spudd help, -h, --help   prints this page; so -V, --version, the version

Options, as --turns 20 or --turns=20. Behind the word -- no word is an option.
`plain` takes --turns and --span alone, `check` and `upgrade` take --nodes and
--memo, `gen` takes none.

    --turns N      the last turn that a run may reach: 0 to 1000000, else 10000
    --span X       values whose range is at most this wide become one:
                   a decimal from 0 to 10^21, else 0
    --workers N    how many threads compute a turn: 1 to 64, else 1
    --nodes N      how many nodes building, a turn or a check may have:
                   16 to 8388608, else 262144
    --memo N       how many answers a table keeps: 1 to 8388608, else 65536

A result depends on --turns and --span alone.

Exit status:
    0  done; CERT holds                   8  turn limit reached
    2  wrong words                        9  node limit passed
    3  a file can't be opened or read    10  CERT is refused
    4  a file is too long                11  CERT doesn't hold
    5  FILE is refused                   12  the result can't be written
    6  probabilities don't sum to one    13  too many states
    7  a reward is too large             14  out of memory
   16  CERT is of another model file     70  the program isn't built

docs/FORMAT.md explains the model file and the result; examples/ has models.
";

/// What `--version` prints.
const VERSION: &str = "spudd 0.1.0\n";

/// The word of this number on the command line, where number 0 is the program's name. `None` past the last word.
fn word<R: Env + AllocGlobal>(rt: &R, number: usize) -> Result<Option<Word>, AllocError> {
    let mut buf = Vec::new(rt.alloc());
    // Room for 64 bytes, then twice as much for as long as the word is longer.
    for exponent in 6..usize::BITS {
        buf.resize(1 << exponent, 0)?;
        match rt.arg(number, &mut buf) {
            Ok(len) => return Ok(Some(Items::from_slice(rt.alloc(), &buf[..len])?)),
            Err(FillError::NotPresent) => return Ok(None),
            Err(FillError::TooLong) => {}
        }
    }
    Err(AllocError)
}

/// The words of the command line, without the program's name.
fn words<R: Env + AllocGlobal>(rt: &R) -> Result<Vec<Word>, AllocError> {
    let mut words = Vec::new(rt.alloc());
    for number in 1..usize::MAX {
        match word(rt, number)? {
            Some(word) => words.push(word)?,
            None => break,
        }
    }
    Ok(words)
}

/// Whether a word is one of these names.
fn is_one_of(word: &[u8], names: [&[u8]; 3]) -> bool {
    names.iter().any(|name| *name == word)
}

/// The text that a word asks for where it stands alone.
fn page(words: &[Word]) -> Option<&'static str> {
    let [word] = words else {
        return None;
    };
    if is_one_of(word.as_slice(), [b"-h", b"--help", b"help"]) {
        Some(HELP)
    } else if is_one_of(word.as_slice(), [b"-V", b"--version", b"version"]) {
        Some(VERSION)
    } else {
        None
    }
}

/// Writes the message of a status to standard error, and behind it what a person is told, where that is a terminal.
fn answer(rt: HostRuntime, terminal: bool, status: &Status, told: Told<'_>) {
    let mut errors: StdErr = WriterOut::new(Vec::new(rt.alloc()), rt.stderr());
    // Where the message can't be written, the status stays the same.
    if write_message(status, &mut errors).is_err() || !terminal {
        return;
    }
    let mut screen = Screen::new(rt.alloc());
    if tell(&rt, rt.alloc(), &mut screen, status, told).is_ok() {
        let _ = show(terminal, &screen, &mut errors);
    }
}

/// Runs the command of the words on the system's files, with threads that this handle starts, and says how it ended.
fn run<R: Threads + Sync>(threads: &R, rt: HostRuntime, words: &[Word]) -> Status {
    let terminal = rt.stderr().is_terminal();
    let progress = Progress::new(rt, terminal);
    let mut place = Remembering::new(rt.alloc(), RealPlace::new(rt), terminal);
    let stdout: StdOut = WriterOut::new(Vec::new(rt.alloc()), rt.stdout());
    let mut output = Cleared {
        sink: stdout,
        progress: &progress,
    };
    let status = solve_run(
        threads,
        &progress,
        rt.alloc(),
        words,
        &mut place,
        &mut output,
    );
    progress.clear();
    let told = Told {
        words,
        file: place.first(),
        cert: place.second(),
    };
    answer(rt, terminal, &status, told);
    status
}

/// Says how something ended that isn't a command's run.
fn ended(rt: HostRuntime, status: Status) -> Status {
    let told = Told {
        words: &[],
        file: &[],
        cert: &[],
    };
    answer(rt, false, &status, told);
    status
}

fn main(rt: HostRuntime) -> ExitCode {
    let status = match words(&rt) {
        Ok(words) => match page(&words) {
            Some(text) => match print!(rt; "{text}") {
                Ok(()) => Status::Done,
                Err(_) => ended(rt, Status::WriteFault),
            },
            None => run(&rt, rt, &words),
        },
        Err(AllocError) => ended(rt, Status::Memory),
    };
    ExitCode::from(number(&status))
}
