//! Writing a certificate.

ghost use Rattle.std.specs.Prelude.{◌≡◌, Ok};
ghost use Rattle.spd_model.specs.ResultText.{text_of};
ghost use Rattle.spd_frozen.specs.Told.{told};
ghost use Rattle.spd_text.specs.Writing.{Wrote, Counted};
ghost use Rattle.spd_cert.specs.Certificates.{FitsModel, iterate_of, cert_of};
ghost use Rattle.spd_cert.specs.Reading.{judged};

use crate::cert::Cert;
use crate::law::law_read_back;
use spd_edge::{Failed, Sink};
use spd_frozen::{Iterate, Residual};
use spd_model::Model;
use spd_text::write_result;

/// Writes a certificate of a model in its newest form: the text of version 2, with its own nodes in their order and the numbers as
/// a result's text writes them. `digest` is the SHA-256 of the model's file. It takes no memory.
///
/// # Errors
///
/// `Failed` where a write failed: the sink then took a front of the text.
pub fn write_cert<K: Sink>(
    k: &mut K,
    model: &Model,
    digest: &[u8; 32],
    cert: Cert,
) -> Result<(), Failed>
    requires { FitsModel model.now cert }
    ensures text { Wrote (K.taken k.old) (text_of digest.now model.now cert.why (told (iterate_of cert))) result (K.taken k.new) }
    // The text is read back: as the same certificate, of version 2 and with this digest.
    ensures read { judged model.now (text_of digest.now model.now cert.why (told (iterate_of cert))) ≡ Ok (cert_of digest.now cert.why (iterate_of cert)) }
    ensures count { Counted (K.faults k.old) result (K.faults k.new) }
    ensures named { K.name k.new ≡ K.name k.old }
{
    // Reading a field tells the proof what every model keeps.
    let _vars = &model.vars;
    law_read_back();
    let Cert {
        turn,
        why,
        residual,
        place,
        side,
        action,
        error,
        value,
        policy,
        ..
    } = cert;
    let iterate = Iterate {
        turn,
        value,
        policy,
        residual: Residual {
            r: residual,
            at: place,
            side,
            action,
        },
        error,
    };
    write_result(k, model, digest, &iterate, why)
}
