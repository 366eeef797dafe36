//! The verdict on a text.

ghost use Rattle.std.specs.Prelude.{◌≡◌, ◌<◌, ℕ, List, IfOk, IfErr};
ghost use Rattle.spd_check.specs.Texts.{IsJudged, IsUnjudged, NamesNoOther};
ghost use Rattle.spd_check.specs.inner.Reading.{OtherOf, unread_of};

use crate::alone::check;
use crate::verdict::{CheckFault, Verdict};
use spd_cert::{Cert, CertRefusal, Uncert, cert_digest, read_cert};
use spd_model::Model;
use std::alloc::Global;

/// A certificate, and the verdict on it.
#[derive(Debug, Drop)]
pub struct Judgement {
    /// The certificate that the text is.
    pub cert: Cert,
    /// Whether it holds.
    pub verdict: Verdict,
}

/// Why a text has no verdict.
#[derive(Debug, Drop)]
pub enum Unjudged {
    /// It names the model file of this SHA-256, which isn't the model's own.
    OtherModel { found: [u8; 32] },
    /// It is no certificate of the model.
    Refused { refusal: CertRefusal },
    /// Its certificate wasn't checked.
    Unchecked { fault: CheckFault },
    /// There was no memory for the certificate.
    Memory,
}

/// Why a text that couldn't be read has no verdict.
fn unread(why: Uncert) -> Unjudged
    ensures { result ≡ unread_of why }
{
    match why {
        Uncert::Refused(refusal) => Unjudged::Refused { refusal },
        Uncert::Memory => Unjudged::Memory,
    }
}

/// The SHA-256 of another model's file, where a text names one that isn't this.
fn other_model(digest: &[u8; 32], text: &[u8]) -> Option<[u8; 32]>
    ensures { OtherOf digest.now text.now result }
{
    match cert_digest(text) {
        Some(found) => { if found == *digest { None } else { Some(found) } }
        None => None,
    }
}

/// The verdict on a text that names no other model's file.
fn judge_own(
    alloc: Global,
    model: &Model,
    text: &[u8],
    node_limit: u32,
    memo_size: usize,
) -> Result<Judgement, Unjudged>
    requires memo_size { 0 < memo_size }
    ensures judged { (digest : List ℕ) → NamesNoOther digest text.now → IfOk result (IsJudged model.now digest text.now) }
    ensures unjudged { (digest : List ℕ) → NamesNoOther digest text.now → IfErr result (IsUnjudged model.now digest text.now node_limit) }
{
    match read_cert(alloc, text, model) {
        Ok(cert) => match check(alloc, model, &cert, node_limit, memo_size) {
            Ok(verdict) => Ok(Judgement { cert, verdict }),
            Err(fault) => Err(Unjudged::Unchecked { fault }),
        },
        Err(why) => Err(unread(why)),
    }
}

/// The verdict on a text as a certificate of a model whose file has this SHA-256, by `read_cert` and `check`.
///
/// # Errors
///
/// In this order: `OtherModel` exactly where the text names another file, `Refused` exactly where it is no certificate of the model, and the
/// faults of `check`. `Memory` where there was no memory for the certificate.
pub fn judge_text(
    alloc: Global,
    model: &Model,
    digest: &[u8; 32],
    text: &[u8],
    node_limit: u32,
    memo_size: usize,
) -> Result<Judgement, Unjudged>
    requires memo_size { 0 < memo_size }
    ensures judged { IfOk result (IsJudged model.now digest.now text.now) }
    ensures unjudged { IfErr result (IsUnjudged model.now digest.now text.now node_limit) }
{
    match other_model(digest, text) {
        Some(found) => Err(Unjudged::OtherModel { found }),
        None => judge_own(alloc, model, text, node_limit, memo_size),
    }
}
