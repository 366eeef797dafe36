//! Reading a certificate.

ghost use Rattle.std.specs.Prelude.{◌≡◌, ◌-◌, [], length, position, IfOk, Ok};
ghost use Rattle.spd_cert.specs.declared.cert.Cert.{Cert as CertValue};
ghost use Rattle.spd_cert.specs.Certificates.{FitsModel};
ghost use Rattle.spd_cert.specs.Grammar.{IsWritten};
ghost use Rattle.spd_cert.specs.Reading.{Gives, Tells, end_at, cert_at, is_bad, placed, judged};

use crate::cert::Cert;
use crate::ending::{Ending, Kind, Stop, stop_at};
use crate::head::{distance_at, head_at};
use crate::nodes::{Part, list_at};
use crate::place::place_at;
use crate::refusal::{CertRefusal, Uncert};
use crate::word::word_at;
use spd_frozen::Frozen;
use spd_model::{Model, State};
use std::alloc::Global;

/// The last line, behind which nothing stands.
#[tactic(auto, unfolding(crate::specs::Reading::end_at))]
fn end_at(bytes: &[u8]) -> Result<(), Ending>
    ensures { Gives (λ _. []) result (end_at bytes.now) }
{
    let word = word_at(bytes)?;
    if word.text != b"end".as_slice() {
        return Err(stop_at(Kind::Expected, word.left));
    }
    let rest = word.ends()?;
    if !rest.is_empty() {
        return Err(stop_at(Kind::End, rest.len()));
    }
    Ok(())
}

/// All lines.
#[tactic(auto, unfolding(crate::specs::Reading::cert_at))]
fn cert_at(alloc: Global, model: &Model, bytes: &[u8]) -> Result<Cert, Ending>
    ensures { Gives (λ cert. cert) result (cert_at model.now bytes.now) }
{
    let (head, rest) = head_at(bytes)?;
    let (place, rest) = place_at(model, rest)?;
    let (error, rest) = distance_at(b"error", rest)?;
    let (value, rest) = list_at(alloc, model, Part::Value, rest)?;
    let (policy, rest) = list_at(alloc, model, Part::Policy, rest)?;
    end_at(rest)?;
    Ok(Cert {
        version: head.version,
        digest: head.digest,
        turn: head.turn,
        why: head.why,
        residual: head.residual,
        place: State::of(&place.values[..model.vars.as_slice().len()]),
        side: place.side,
        action: place.action,
        error,
        value: Frozen::of_nodes(value),
        policy: Frozen::of_nodes(policy),
    })
}

/// Where reading stopped, as a byte of a file of so many bytes.
fn placed(len: usize, stop: Stop) -> CertRefusal
    ensures { result ≡ placed len stop }
{
    let at = len.saturating_sub(stop.left);
    match stop.kind {
        Kind::Expected => CertRefusal::Expected { at },
        Kind::Unknown => CertRefusal::Unknown { at },
        Kind::Order => CertRefusal::Order { at },
        Kind::Number => CertRefusal::Number { at },
        Kind::End => CertRefusal::End { at },
    }
}

/// The place of the first byte that is neither LF nor 0x20 to 0x7E.
fn bad_byte(bytes: &[u8]) -> Option<usize>
    ensures { result ≡ position is_bad bytes.now }
{
    bytes.iter().position(|byte| !(*byte == b'\n' || (*byte >= 0x20 && *byte <= 0x7E)))
}

fn judged(alloc: Global, bytes: &[u8], model: &Model) -> Result<Cert, Uncert>
    ensures { Tells result (judged model.now bytes.now) }
{
    if let Some(at) = bad_byte(bytes) {
        return Err(Uncert::Refused(CertRefusal::BadByte { at }));
    }
    match cert_at(alloc, model, bytes) {
        Ok(cert) => Ok(cert),
        Err(Ending::Stopped(stop)) => Err(Uncert::Refused(placed(bytes.len(), stop))),
        Err(Ending::Memory) => Err(Uncert::Memory),
    }
}

/// The certificate of a model that the bytes are, of version 1 or 2. It goes once over the bytes, and takes memory for the nodes
/// alone. Nodes needn't be distinct or reached from the root, and a branch may have equal kids.
///
/// # Errors
///
/// `Refused` exactly where the bytes are no certificate of the model, with the first place: a bad byte wherever it stands, before
/// all else. `Memory` where there was no memory for the nodes.
pub fn read_cert(alloc: Global, bytes: &[u8], model: &Model) -> Result<Cert, Uncert>
    ensures judged { Tells result (judged model.now bytes.now) }
    ensures written { IfOk result (IsWritten model.now bytes.now) }
    ensures fits { IfOk result (FitsModel model.now) }
    ensures every { (cert : CertValue) → IsWritten model.now bytes.now cert → Tells result (Ok cert) }
{
    // Reading a field tells the proof what every model keeps.
    let _vars = &model.vars;
    judged(alloc, bytes, model)
}
