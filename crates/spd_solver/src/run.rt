//! The top call: from the words of a command to the text of a result.
ghost use Rattle.std.specs.Prelude.{◌≡◌, ◌≢◌, ◌↔◌, ℕ, List, None, Some, Ok, Err};
ghost use Rattle.sha2.specs.Sha256.{sha256};
ghost use Rattle.spd_edge.specs.Counts.{NoneFalls};
ghost use Rattle.spd_edge.specs.Told.{Took};
ghost use Rattle.spd_edge.specs.declared.outside.Stage.TheVariants as Stage;
ghost use Rattle.spd_model.specs.Options.{AreOptions};
ghost use Rattle.spd_solver.specs.Command.{OnCommand, IsUsage, solving};
ghost use Rattle.spd_solver.specs.Kind.{kind_of, whole};
ghost use Rattle.spd_solver.specs.Run.{Reads, Ends, Means, Completes, TellsRefusal, seen};
ghost use Rattle.spd_solver.specs.inner.Stages.{Answers, IsWithinItsLimits, command_for, ending, finished_status};

use crate::checking::check;
use crate::command::{Job, Way, read_job};
use crate::file::{FILE_LIMIT, read_file};
use crate::ring::{generate, solve_ring};
use crate::solving::{Solution, solve_model};
use crate::status::Status;
use crate::watch::Watch;
use sha2::{Digest, Sha256};
use spd_edge::{Place, Sink};
use spd_model::{Options, Why, Word};
use spd_reader::read_model;
use spd_tasks::Gate;
use spd_text::write_result;
use std::alloc::Global;
use std::thread::Threads;

/// The digest by which a result names its model's file.
pub(crate) fn digest_of(bytes: &[u8]) -> [u8; 32]
    ensures { result ≡ sha256 bytes.now }
{
    Sha256::digest(bytes)
}

/// How a command ends once the result of its run is written.
pub(crate) fn finished(solution: &Solution) -> Status
    ensures { result ≡ finished_status solution.now }
{
    match solution.why {
        Why::Done => Status::Done,
        Why::Limit => Status::TurnLimit {
            residual: solution.iterate.residual.r,
        },
    }
}

/// How a command ended, whether it was finished or not.
fn ended(outcome: Result<Status, Status>) -> Status
    ensures { result ≡ ending outcome }
{
    match outcome {
        Ok(status) | Err(status) => status,
    }
}

/// Solves the model in the file of this name in this way, and writes the text of its result.
fn solve<R: Threads + Sync, G: Gate + Watch, P: Place, K: Sink>(
    rt: &R,
    gate: &G,
    alloc: Global,
    way: Way,
    file: &[u8],
    options: &Options,
    place: &mut P,
    out: &mut K,
) -> Result<Status, Status>
    requires fresh { (name : List ℕ) → (P.inputs place.old).stage name ≡ None }
    requires options { AreOptions options.now }

    ensures answers { Answers (solving way file.now options.now) (ending result)
        (seen P.inputs K.taken K.faults place.old out.old) (seen P.inputs K.taken K.faults place.new out.new) }

    // Whatever the status is.
    ensures never_falls { NoneFalls (P.inputs place.old).faults (P.inputs place.new).faults }
    ensures asked { (name : List ℕ) → name ≢ file.now → (P.inputs place.new).stage name ≡ None }
    ensures closed { (name : List ℕ) → (P.inputs place.new).stage name ≢ Some Stage.Open }
    ensures holds { (P.inputs place.new).holds ≡ (P.inputs place.old).holds }
    ensures outputs { P.outputs place.new ≡ P.outputs place.old }
    ensures named { K.name out.new ≡ K.name out.old }
{
    let bytes = read_file(alloc, place, file, FILE_LIMIT)?;
    let digest = digest_of(&bytes);
    let model = read_model(alloc, &bytes)?;
    let solution = solve_model(rt, gate, alloc, way, &model, options)?;
    write_result(out, &model, &digest, &solution.iterate, solution.why)?;
    Ok(finished(&solution))
}

/// Runs what the words ask for.
fn run_job<R: Threads + Sync, G: Gate + Watch, P: Place, K: Sink>(
    rt: &R,
    gate: &G,
    alloc: Global,
    job: Job<'_>,
    place: &mut P,
    out: &mut K,
) -> Result<Status, Status>
    requires fresh { (name : List ℕ) → (P.inputs place.old).stage name ≡ None }
    requires limits { IsWithinItsLimits job }

    ensures answers { Answers (command_for job.entry) (ending result)
        (seen P.inputs K.taken K.faults place.old out.old) (seen P.inputs K.taken K.faults place.new out.new) }

    // Whatever the status is.
    ensures never_falls { NoneFalls (P.inputs place.old).faults (P.inputs place.new).faults }
    ensures asked { (name : List ℕ) → (Reads (command_for job.entry) name → ⊥) → (P.inputs place.new).stage name ≡ None }
    ensures closed { (name : List ℕ) → (P.inputs place.new).stage name ≢ Some Stage.Open }
    ensures holds { (P.inputs place.new).holds ≡ (P.inputs place.old).holds }
    ensures outputs { P.outputs place.new ≡ P.outputs place.old }
    ensures named { K.name out.new ≡ K.name out.old }
{
    match job {
        Job::Solve { way, file, options } => {
            solve(rt, gate, alloc, way, file, &options, place, out)
        }
        Job::Generate { machines } => generate(machines, out),
        Job::Ring { machines, options } => solve_ring(rt, gate, alloc, machines, &options, out),
        Job::Check {
            purpose,
            file,
            cert,
            options,
        } => check(alloc, purpose, file, cert, &options, place, out),
    }
}

/// Runs the command that the words give on the files of a place, writes its text to an output, and says how it ended.
///
/// The commands are `solve`, which goes over decision diagrams, and `plain`, which goes over tables, each with the name of a file, where `-`
/// stands for standard input, and with options; `gen`, which writes the file of a ring of 2 to 63 machines; `ring`, which solves that
/// file on diagrams and writes a summary of its result; `check`, which judges the certificate in a second file of the model in the first one,
/// and writes `yes`, or `no` and where it fails first; and `upgrade`, which does the same, but where the certificate holds writes it in its newest
/// form in place of `yes`. The words are those of `spd_words`. Turns on diagrams are made by as many threads
/// of `rt` as the options say, and the gate is told of each turn and of each action's backup: neither has a part in the result. A file is
/// opened once, read to its end and closed; nothing is written before the whole result is known. What the clauses say, of every place,
/// output and list of words:
///
/// - `headline`: a command that ends with a whole text (`Done`, `TurnLimit`, `No`) wrote exactly the text that the definitions give of its
///   files and options, which is that of a valid process, and nothing else. Of `solve` and `plain` the value and policy in it are optimal up to
///   the residual over one minus the discount, for every state, course of action and number of steps; and where a turn up to the turn limit is
///   enough, as the definitions tell after turn 0, it ends with `Done`. Of `ring` the same holds of the ring's process, and the text is the summary; of
///   `gen` the text is the ring's file. Of `check` and `upgrade` it ends with `Done` exactly where the certificate holds, and then the certificate's
///   value and policy are near optimal in the same sense up to its residual, whoever wrote it; a digest that the certificate names is that of the
///   model file.
/// - `means`: what each kind of end says: where a text was written, whole or in part, and where the file is refused or passes the node
///   limit, the file was opened and closed again, and no read of it failed; a text that was cut off is a front of that text, and the
///   output's count of faults rose; what is refused has its cause in the file, at the first fault, and a ring is never refused; where the
///   node limit is told (`NodeLimit`, not by `plain` and `gen`), the named stage of the process has more nodes than the options allow,
///   and a turn that is named is one to which the run comes; a file that couldn't be opened or read has its count of faults risen, and
///   wasn't opened, or was; and with none of the last three anything was written. A certificate is refused for its own faults before those of its
///   process, in this order: it is too long (`TooLong`), it names another model file (`OtherModel`), it is no certificate of the model
///   (`CertRefused`); and it isn't opened where its model file is refused or can't be read.
/// - `complete`: a lawful file of a valid process is solved, unless the outside fails or memory runs out: by `solve` where neither building
///   nor a turn that the run comes to has more nodes than the options allow, and by `plain` where it has at most 4,096 states; and so is a
///   ring, where its stages have no more nodes. A lawful certificate of such a file, which names no other file, is judged where neither building
///   nor the check has more nodes.
/// - `refused`: a file or a certificate that is refused ends the command with that refusal, unless the outside fails, memory runs out, or building has more
///   nodes than the options allow, which may be told instead.
/// - `usage`, `idle`: `Usage` comes exactly where the words can't be run, with the first word that can't stand; then nothing is touched.
/// - `asked`, `closed`, `never_falls`, `holds`, `outputs`, `named`: the place is asked for no file but the command's, what was opened is
///   closed, no count falls, and all else stays. `gen` and `ring` ask for none.
///
/// Want of memory alone (`Memory`) has no cause in a clause; `gen` takes none, and ends with `Done` unless a write fails. The file's bytes
/// are those that the place holds, where it tells them. Where it doesn't, as the system's files don't, the clauses speak of some bytes: what
/// was written is then still the whole right text of a model file, and a refusal one that a file has.
pub fn solve_run<R: Threads + Sync, G: Gate + Watch, P: Place, K: Sink>(
    rt: &R,
    gate: &G,
    alloc: Global,
    words: &[Word],
    place: &mut P,
    out: &mut K,
) -> Status
    requires fresh { (name : List ℕ) → (P.inputs place.old).stage name ≡ None }

    ensures headline { OnCommand words.now (λ command. kind_of result ≡ whole → (text : List ℕ)
        × Ends command (P.inputs place.old).holds result text × Took (K.taken out.old) text (K.taken out.new)) }
    ensures means { OnCommand words.now (λ command. Means (kind_of result) command result
        (seen P.inputs K.taken K.faults place.old out.old) (seen P.inputs K.taken K.faults place.new out.new)) }
    ensures complete { OnCommand words.now (λ command. Completes (kind_of result) command (P.inputs place.old).holds) }
    ensures refused { OnCommand words.now (λ command. TellsRefusal (kind_of result) command (P.inputs place.old).holds result) }
    ensures usage { (word : ℕ) → (result ≡ Status.Usage word) ↔ IsUsage words.now word }
    ensures idle { (word : ℕ) → IsUsage words.now word →
        (P.inputs place.new ≡ P.inputs place.old) × (K.taken out.new ≡ K.taken out.old) × (K.faults out.new ≡ K.faults out.old) }

    // Whatever the status is.
    ensures asked { (name : List ℕ) → OnCommand words.now (λ command. Reads command name → ⊥) → (P.inputs place.new).stage name ≡ None }
    ensures closed { (name : List ℕ) → (P.inputs place.new).stage name ≢ Some Stage.Open }
    ensures never_falls { NoneFalls (P.inputs place.old).faults (P.inputs place.new).faults }
    ensures holds { (P.inputs place.new).holds ≡ (P.inputs place.old).holds }
    ensures outputs { P.outputs place.new ≡ P.outputs place.old }
    ensures named { K.name out.new ≡ K.name out.old }
{
    match read_job(words) {
        Ok(job) => ended(run_job(rt, gate, alloc, job, place, out)),
        Err(word) => Status::Usage { word },
    }
}
