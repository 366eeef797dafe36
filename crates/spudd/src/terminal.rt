//! What a person at a terminal is told behind the message of a status.

use spd_help::{
    Goal, Screen, tell_cert_refusal, tell_no, tell_node_limit, tell_other_model, tell_refusal,
    tell_sum, tell_system, tell_turn_limit, tell_usage,
};
use spd_model::{Model, Word};
use spd_reader::read_model;
use spd_solver::{FILE_LIMIT, Stage, Status};
use spd_words::{Command, read_words, text_at};
use std::alloc::{AllocError, Global};
use std::rt::Files;
use std::{fs, io, str};

/// What the file of a ring says of it: a discount of 0.95 and a tolerance of 0.1.
const RING: Goal = Goal {
    discount: 950_000,
    tolerance: 100_000_000,
};

/// What a command read, as far as a person is told of it.
#[derive(Clone, Copy)]
pub(crate) struct Told<'a> {
    /// The words of the command.
    pub words: &'a [Word],
    /// The bytes of its model file, or none where they aren't known.
    pub file: &'a [u8],
    /// Those of its certificate.
    pub cert: &'a [u8],
}

impl Told<'_> {
    /// The name of the command's model file, or none of a ring, and the turn limit.
    fn named(&self) -> Option<(&[u8], u32)> {
        match read_words(self.words) {
            Ok(Command::Ring { options, .. }) => Some((&[], options.turns)),
            Ok(
                Command::Solve { file, options }
                | Command::Plain { file, options }
                | Command::Check { file, options, .. }
                | Command::Upgrade { file, options, .. },
            ) => Some((text_at(self.words, file), options.turns)),
            _ => None,
        }
    }

    /// The name of the command's certificate, or none.
    fn cert_name(&self) -> &[u8] {
        match read_words(self.words) {
            Ok(Command::Check { cert, .. } | Command::Upgrade { cert, .. }) => {
                text_at(self.words, cert)
            }
            _ => &[],
        }
    }

    /// The model of the command's file.
    fn model(&self, alloc: Global) -> Option<Model> {
        if self.file.len() > FILE_LIMIT {
            return None;
        }
        read_model(alloc, self.file).ok()
    }

    /// What the model says of when its runs end.
    fn goal(&self, alloc: Global) -> Option<Goal> {
        if let Ok(Command::Ring { .. }) = read_words(self.words) {
            return Some(RING);
        }
        let model = self.model(alloc)?;
        Some(Goal {
            discount: model.discount,
            tolerance: model.tolerance,
        })
    }
}

/// Why the system doesn't open a file or read it, asked anew. Nothing is known of standard input, and no file is opened where that may wait.
fn fault_of<R: Files>(rt: &R, name: &[u8]) -> Option<io::ErrorKind> {
    if name == b"-".as_slice() {
        return None;
    }
    let Ok(path) = str::from_utf8(name) else {
        return Some(io::ErrorKind::InvalidInput);
    };
    match fs::metadata(rt, path) {
        Ok(metadata) if metadata.is_dir() => Some(io::ErrorKind::IsADirectory),
        Ok(metadata) if metadata.is_file() => match fs::open(rt, path) {
            Ok(_) => None,
            Err(error) => Some(error.kind()),
        },
        Ok(_) => None,
        Err(error) => Some(error.kind()),
    }
}

/// Adds why the system doesn't open a file or read it, where that is known.
fn tell_fault<R: Files>(rt: &R, screen: &mut Screen, name: &[u8]) -> Result<(), AllocError> {
    match fault_of(rt, name) {
        Some(kind) => tell_system(screen, kind),
        None => Ok(()),
    }
}

/// The name under which a person knows a file.
fn shown_name(name: &[u8]) -> &[u8] {
    if name == b"-".as_slice() {
        b"standard input"
    } else {
        name
    }
}

/// How long a file may be of which a person is told that it is too long.
fn length_sentence(name: &[u8], cert: &[u8]) -> &'static [u8] {
    if name == cert {
        b"  A certificate has at most 268435456 bytes."
    } else {
        b"  A model file has at most 4194304 bytes."
    }
}

/// Adds what to try where the run met its turn limit with this residual.
fn tell_turns(
    alloc: Global,
    screen: &mut Screen,
    told: Told<'_>,
    turns: u32,
    residual: i128,
) -> Result<(), AllocError> {
    match told.goal(alloc) {
        Some(goal) => tell_turn_limit(screen, goal, turns, residual),
        None => Ok(()),
    }
}

/// Adds what to try where this stage passed the node limit.
fn tell_nodes(
    alloc: Global,
    screen: &mut Screen,
    told: Told<'_>,
    stage: Stage,
    limit: u32,
) -> Result<(), AllocError> {
    let is_turn = matches!(stage, Stage::Turn(_));
    tell_node_limit(screen, told.goal(alloc), is_turn, limit)
}

/// Adds what a person is told of a status.
pub(crate) fn tell<R: Files>(
    rt: &R,
    alloc: Global,
    screen: &mut Screen,
    status: &Status,
    told: Told<'_>,
) -> Result<(), AllocError> {
    let (file, turns) = told.named().unwrap_or((b"", 0));
    let name = shown_name(file);
    let cert = told.cert_name();
    match status {
        Status::Usage { word } => tell_usage(screen, told.words, *word),
        Status::OpenFault { name } | Status::ReadFault { name } => {
            tell_fault(rt, screen, name.as_slice())
        }
        Status::Refused { refusal } => tell_refusal(alloc, screen, name, told.file, *refusal),
        Status::CertRefused { refusal } => {
            tell_cert_refusal(screen, shown_name(cert), told.cert, *refusal)
        }
        Status::OtherModel { found, wanted } => tell_other_model(screen, name, found, wanted),
        Status::No => tell_no(screen),
        Status::Sum {
            action,
            var,
            sum,
            ..
        } => {
            tell_sum(
                alloc,
                screen,
                name,
                told.file,
                action.as_slice(),
                var.as_slice(),
                *sum,
            )
        }
        Status::TurnLimit { residual } => tell_turns(alloc, screen, told, turns, *residual),
        Status::NodeLimit { stage, limit } => tell_nodes(alloc, screen, told, *stage, *limit),
        Status::TooLong { name } => screen.line(&[length_sentence(name.as_slice(), cert)]),
        Status::TooManyStates { .. } => {
            screen.line(&[b"  `plain` takes at most 4096 states, `solve` any number of them."])
        }
        Status::Range { .. } => screen.line(&[
            b"  A reward minus the action's cost is at most 1000000000 above or below zero.",
        ]),
        Status::Done | Status::WriteFault | Status::Memory => Ok(()),
    }
}
