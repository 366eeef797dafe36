//! The ring of machines: its file, and a summary of what solving it comes to.
ghost use Rattle.std.specs.Prelude.{◌≡◌, ◌≤◌, [], Some, IfOk};
ghost use Rattle.spd_edge.specs.Direction.{Direction};
ghost use Rattle.spd_model.specs.Options.{AreOptions};
ghost use Rattle.spd_gen.specs.Ring.{ring_text};
ghost use Rattle.spd_solver.specs.Command.{generating, solving_ring};
ghost use Rattle.spd_solver.specs.inner.Stages.{Answers, ending, seen_beside};

use crate::command::Way;
use crate::run::finished;
use crate::solving::solve_model;
use crate::status::Status;
use crate::watch::Watch;
use spd_edge::{Failed, Opened, Sink};
use spd_gen::{law_ring, put_ring};
use spd_model::Options;
use spd_reader::read_model;
use spd_tasks::Gate;
use spd_text::write_summary;
use std::alloc::{AllocError, Global};
use std::thread::Threads;

/// Writes the file of a ring of so many machines. It takes no memory.
pub(crate) fn generate<K: Sink>(machines: u32, out: &mut K) -> Result<Status, Status>
    ensures answers { (inputs : Direction) → Answers (generating machines) (ending result)
        (seen_beside K.taken K.faults inputs out.old) (seen_beside K.taken K.faults inputs out.new) }
    ensures named { K.name out.new ≡ K.name out.old }
{
    put_ring(machines, out)?;
    Ok(Status::Done)
}

/// A text in memory. A write fails where memory is wanted and not found.
#[derive(Drop)]
struct TextInMemory {
    bytes: Vec<u8>,
    faults: u64,
}

impl Opened for TextInMemory {
    ghost name = { λ text. [] };
}

impl Sink for TextInMemory {
    ghost faults = { λ text. text.faults };

    ghost taken = { λ text. Some text.bytes.items };

    fn write(&mut self, piece: &[u8]) -> Result<usize, Failed> {
        let faults = self.faults;
        match self.bytes.extend_from_slice(piece) {
            Ok(()) => Ok(piece.len()),
            Err(_) => {
                self.faults = faults.saturating_add(1);
                Err(Failed)
            }
        }
    }
}

/// The file of a ring of so many machines, in memory.
fn ring_file(alloc: Global, machines: u32) -> Result<Vec<u8>, AllocError>
    ensures { IfOk result (λ bytes. bytes.items ≡ ring_text machines) }
{
    let mut text = TextInMemory {
        bytes: Vec::new(alloc),
        faults: 0,
    };
    match put_ring(machines, &mut text) {
        Ok(()) => Ok(text.bytes),
        Err(Failed) => Err(AllocError),
    }
}

/// Solves the process of a ring of so many machines on decision diagrams, and writes the summary of its result. Its file is made in memory and
/// read as any other.
pub(crate) fn solve_ring<R: Threads + Sync, G: Gate + Watch, K: Sink>(
    rt: &R,
    gate: &G,
    alloc: Global,
    machines: u32,
    options: &Options,
    out: &mut K,
) -> Result<Status, Status>
    requires many { 2 ≤ machines }
    requires few { machines ≤ 63 }
    requires options { AreOptions options.now }
    ensures answers { (inputs : Direction) → Answers (solving_ring machines options.now) (ending result)
        (seen_beside K.taken K.faults inputs out.old) (seen_beside K.taken K.faults inputs out.new) }
    ensures named { K.name out.new ≡ K.name out.old }
{
    // The file is read as the process of the ring, which is valid.
    law_ring();
    let bytes = ring_file(alloc, machines)?;
    let model = read_model(alloc, &bytes)?;
    let solution = solve_model(rt, gate, alloc, Way::Diagrams, &model, options)?;
    write_summary(out, &model, machines, &solution.iterate, solution.why)?;
    Ok(finished(&solution))
}
