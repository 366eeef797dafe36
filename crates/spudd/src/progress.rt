//! How far a run has come, as a terminal is shown it while the run goes on.

use spd_edge::{Failed, Opened, Sink, StdErr, WriterOut, write_all_of};
use spd_frozen::Iterate;
use spd_help::{Goal, Screen, tell_progress};
use spd_model::Model;
use spd_solver::Watch;
use spd_tasks::Gate;
use std::alloc::AllocError;
use std::sync::atomic::{AtomicU64, Ordering};
use std::time::Instant;

/// How long a run goes on before it is shown, in milliseconds.
const FIRST: u64 = 1_000;

/// How long a line stays at least, in milliseconds.
const EACH: u64 = 250;

/// What takes the line of progress away.
const ERASE: &[u8] = b"\r\x1b[K";

/// A gate that shows turns at a terminal, on one line that is written anew.
#[derive(Drop)]
pub(crate) struct Progress {
    rt: HostRuntime,
    /// When the run began: nothing where standard error is no terminal.
    began: Option<Instant>,
    /// When the line was written last, in milliseconds after that: 0 where none stands there.
    shown: AtomicU64,
}

impl Progress {
    /// A gate that shows the turns of a run which begins now, where standard error is a terminal.
    pub(crate) fn new(rt: HostRuntime, terminal: bool) -> Progress {
        Progress {
            rt,
            began: if terminal {
                Instant::now(&rt).ok()
            } else {
                None
            },
            shown: AtomicU64::new(0),
        }
    }

    /// How many milliseconds the run goes on by now, where a line is due.
    fn due(&self) -> Option<u64> {
        let elapsed = self.began?.elapsed(&self.rt).ok()?;
        let now = u64::try_from(elapsed.as_millis()).ok()?;
        let shown = self.shown.load(Ordering::SeqCst);
        if now >= FIRST && now >= shown.saturating_add(EACH) {
            Some(now)
        } else {
            None
        }
    }

    /// Takes the line away, where it stands.
    pub(crate) fn clear(&self) {
        if self.shown.swap(0, Ordering::SeqCst) > 0 {
            self.write(ERASE);
        }
    }

    /// Writes to standard error. What can't be written isn't shown.
    fn write(&self, text: &[u8]) {
        let mut errors: StdErr = WriterOut::new(Vec::new(self.rt.alloc()), self.rt.stderr());
        let _ = write_all_of(&mut errors, text);
    }

    /// Writes the line of a turn in place of the one before.
    fn show(&self, model: &Model, iterate: &Iterate, nodes: usize) -> Result<(), AllocError> {
        let goal = Goal {
            discount: model.discount,
            tolerance: model.tolerance,
        };
        let mut screen = Screen::new(self.rt.alloc());
        tell_progress(&mut screen, goal, iterate.turn, iterate.residual.r, nodes)?;
        self.write(ERASE);
        self.write(screen.as_slice());
        Ok(())
    }
}

impl Gate for Progress {
    fn start(&self, _action: usize) {}
}

impl Watch for Progress {
    fn turned(&self, model: &Model, iterate: &Iterate, nodes: usize) {
        if let Some(now) = self.due() {
            self.shown.store(now, Ordering::SeqCst);
            // Where there is no memory for the line, the run goes on without it.
            let _ = self.show(model, iterate, nodes);
        }
    }
}

/// An output before whose first byte the line of progress is taken away.
#[derive(Drop)]
pub(crate) struct Cleared<'a, K> {
    pub(crate) sink: K,
    pub(crate) progress: &'a Progress,
}

impl<K: Opened> Opened for Cleared<'_, K> {
    ghost name = { λ cleared. K.name cleared.sink };
}

impl<K: Sink> Sink for Cleared<'_, K> {
    ghost faults = { λ cleared. K.faults cleared.sink };

    ghost taken = { λ cleared. K.taken cleared.sink };

    fn write(&mut self, piece: &[u8]) -> Result<usize, Failed> {
        self.progress.clear();
        self.sink.write(piece)
    }
}
