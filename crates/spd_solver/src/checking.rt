//! Checking a certificate of a model: its verdict, and the certificate in its newest form.
ghost use Rattle.std.specs.Prelude.{◌≡◌, ◌≢◌, ℕ, List, None, Some, IfOk, IfErr};
ghost use Rattle.spd_edge.specs.Counts.{NoneFalls};
ghost use Rattle.spd_edge.specs.declared.outside.Stage.TheVariants as FileStage;
ghost use Rattle.spd_model.specs.Options.{AreOptions};
ghost use Rattle.spd_model.specs.declared.options.Options.{Options as OptionsValue};
ghost use Rattle.spd_text.specs.Writing.{Wrote, Counted};
ghost use Rattle.spd_cert.specs.Certificates.{FitsModel};
ghost use Rattle.spd_check.specs.Texts.{IsJudged};
ghost use Rattle.spd_solver.specs.Check.{text_of_yes};
ghost use Rattle.spd_solver.specs.Command.{checking};
ghost use Rattle.spd_solver.specs.Run.{seen};
ghost use Rattle.spd_solver.specs.declared.command.Purpose.{Purpose as PurposeValue};
ghost use Rattle.spd_solver.specs.inner.Checks.{AreRead, AnswersUnwritten, IsPlacedCheck, told_check_fault, IsPlacedText, unjudged_status, IsUnjudgedBy, IsPlacedVerdict, verdict_status, verdict_text};
ghost use Rattle.spd_solver.specs.inner.Stages.{Answers, ending};

use crate::command::Purpose;
use crate::file::{CERT_LIMIT, FILE_LIMIT, read_file};
use crate::pieces::write_pieces;
use crate::run::digest_of;
use crate::solving::{Unsolved, wide_reward, wrong_sum};
use crate::status::{Stage, Status};
use spd_cert::{Cert, write_cert};
use spd_check::{CheckFault, Judgement, Unjudged, Verdict, judge_text};
use spd_edge::{Failed, Place, Sink};
use spd_model::{Model, Options};
use spd_reader::read_model;
use spd_text::write_failure;
use std::alloc::{AllocError, Global};

/// A model, the SHA-256 of its file, and the bytes of a certificate.
#[derive(Drop)]
struct Given {
    model: Model,
    digest: [u8; 32],
    text: Vec<u8>,
}

/// Reads a model file, and then a certificate.
fn read_both<P: Place>(
    alloc: Global,
    file: &[u8],
    cert: &[u8],
    place: &mut P,
) -> Result<Given, Status>
    requires fresh { (name : List ℕ) → (P.inputs place.old).stage name ≡ None }
    requires two { file.now ≢ cert.now }

    ensures read { IfOk result (AreRead file.now cert.now (P.inputs place.old) (P.inputs place.new)) }
    ensures refused { (purpose : PurposeValue) (options : OptionsValue) → IfErr result (λ status.
        AnswersUnwritten (checking purpose file.now cert.now options) status (P.inputs place.old) (P.inputs place.new)) }

    // Whatever the answer is.
    ensures never_falls { NoneFalls (P.inputs place.old).faults (P.inputs place.new).faults }
    ensures asked { (name : List ℕ) → name ≢ file.now → name ≢ cert.now → (P.inputs place.new).stage name ≡ None }
    ensures closed { (name : List ℕ) → (P.inputs place.new).stage name ≢ Some FileStage.Open }
    ensures holds { (P.inputs place.new).holds ≡ (P.inputs place.old).holds }
    ensures outputs { P.outputs place.new ≡ P.outputs place.old }
{
    let bytes = read_file(alloc, place, file, FILE_LIMIT)?;
    let model = read_model(alloc, &bytes)?;
    let digest = digest_of(&bytes);
    let text = read_file(alloc, place, cert, CERT_LIMIT)?;
    Ok(Given {
        model,
        digest,
        text,
    })
}

/// A fault of a check, with the names of what is at fault.
fn named(alloc: Global, model: &Model, fault: CheckFault) -> Result<Unsolved, AllocError>
    requires { IsPlacedCheck model.now fault }
    ensures { IfOk result (λ why. why ≡ told_check_fault model.now fault) }
{
    match fault {
        CheckFault::Sum {
            action,
            var,
            state,
            sum,
        } => wrong_sum(alloc, model, action, var, &state, sum),
        CheckFault::Range {
            action,
            state,
            value,
        } => wide_reward(alloc, model, action, &state, value),
        CheckFault::NodeLimit { building, limit } => {
            let stage = if building {
                Stage::Building
            } else {
                Stage::Check
            };
            Ok(Unsolved::NodeLimit { stage, limit })
        }
        CheckFault::Memory => Ok(Unsolved::Memory),
    }
}

/// How a command ends whose certificate has no verdict.
fn unjudged(
    alloc: Global,
    model: &Model,
    digest: &[u8; 32],
    why: Unjudged,
) -> Result<Status, AllocError>
    requires { IsPlacedText model.now why }
    ensures { IfOk result (λ status. status ≡ unjudged_status model.now digest.now why) }
{
    match why {
        Unjudged::OtherModel { found } => Ok(Status::OtherModel {
            found,
            wanted: *digest,
        }),
        Unjudged::Refused { refusal } => Ok(Status::CertRefused { refusal }),
        Unjudged::Unchecked { fault } => Ok(Status::from(named(alloc, model, fault)?)),
        Unjudged::Memory => Ok(Status::Memory),
    }
}

/// The verdict on a certificate of a model.
fn judge(alloc: Global, given: &Given, options: &Options) -> Result<Judgement, Status>
    requires { AreOptions options.now }
    ensures judged { IfOk result (IsJudged given.now.model given.now.digest given.now.text.items) }
    ensures unjudged { IfErr result (IsUnjudgedBy given.now options.now.nodes) }
{
    let nodes = options.nodes;
    let memo = options.memo as usize;
    match judge_text(alloc, &given.model, &given.digest, &given.text, nodes, memo) {
        Ok(judgement) => Ok(judgement),
        Err(why) => Err(unjudged(alloc, &given.model, &given.digest, why)?),
    }
}

/// Writes what is written of a certificate that holds.
fn write_yes<K: Sink>(
    out: &mut K,
    purpose: Purpose,
    given: &Given,
    cert: Cert,
) -> Result<(), Failed>
    requires { FitsModel given.now.model cert }
    ensures text { Wrote (K.taken out.old) (text_of_yes purpose given.now.digest given.now.model cert) result (K.taken out.new) }
    ensures count { Counted (K.faults out.old) result (K.faults out.new) }
    ensures named { K.name out.new ≡ K.name out.old }
{
    match purpose {
        Purpose::Judge => write_pieces(out, &[b"yes", b"\n"]),
        Purpose::Upgrade => write_cert(out, &given.model, &given.digest, cert),
    }
}

/// Writes what is written of a certificate with this verdict, and says how the command ends.
fn write_verdict<K: Sink>(
    out: &mut K,
    purpose: Purpose,
    given: &Given,
    judgement: Judgement,
) -> Result<Status, Failed>
    requires fits { FitsModel given.now.model judgement.cert }
    requires placed { IsPlacedVerdict given.now.model judgement.verdict }
    ensures status { IfOk result (λ status. status ≡ verdict_status judgement.verdict) }
    ensures text { Wrote (K.taken out.old) (verdict_text purpose given.now.digest given.now.model judgement.cert judgement.verdict) result (K.taken out.new) }
    ensures count { Counted (K.faults out.old) result (K.faults out.new) }
    ensures named { K.name out.new ≡ K.name out.old }
{
    let Judgement { cert, verdict } = judgement;
    match verdict {
        Verdict::Yes => {
            write_yes(out, purpose, given, cert)?;
            Ok(Status::Done)
        }
        Verdict::No { at, side, action } => {
            write_failure(out, &given.model, &at, side, action)?;
            Ok(Status::No)
        }
    }
}

/// Checks a certificate of a model, and writes its verdict, or the certificate in its newest form.
pub(crate) fn check<P: Place, K: Sink>(
    alloc: Global,
    purpose: Purpose,
    file: &[u8],
    cert: &[u8],
    options: &Options,
    place: &mut P,
    out: &mut K,
) -> Result<Status, Status>
    requires fresh { (name : List ℕ) → (P.inputs place.old).stage name ≡ None }
    requires options { AreOptions options.now }
    requires two { file.now ≢ cert.now }

    ensures answers { Answers (checking purpose file.now cert.now options.now) (ending result)
        (seen P.inputs K.taken K.faults place.old out.old) (seen P.inputs K.taken K.faults place.new out.new) }

    // Whatever the status is.
    ensures never_falls { NoneFalls (P.inputs place.old).faults (P.inputs place.new).faults }
    ensures asked { (name : List ℕ) → name ≢ file.now → name ≢ cert.now → (P.inputs place.new).stage name ≡ None }
    ensures closed { (name : List ℕ) → (P.inputs place.new).stage name ≢ Some FileStage.Open }
    ensures holds { (P.inputs place.new).holds ≡ (P.inputs place.old).holds }
    ensures outputs { P.outputs place.new ≡ P.outputs place.old }
    ensures named { K.name out.new ≡ K.name out.old }
{
    let given = read_both(alloc, file, cert, place)?;
    let judgement = judge(alloc, &given, options)?;
    Ok(write_verdict(out, purpose, &given, judgement)?)
}
