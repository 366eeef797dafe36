//! What is read of what was written.

ghost use Rattle.std.specs.Prelude.{◌≡◌, ℕ, List, Ok};
ghost use Rattle.spd_model.specs.declared.Why.{Why};
ghost use Rattle.spd_model.specs.Lawful.{IsLawful};
ghost use Rattle.spd_model.specs.Process.{Process};
ghost use Rattle.spd_model.specs.ResultText.{text_of};
ghost use Rattle.spd_frozen.specs.declared.iterate.Iterate.{Iterate};
ghost use Rattle.spd_frozen.specs.Told.{told};
ghost use Rattle.spd_cert.specs.Certificates.{FitsModel, cert_of};
ghost use Rattle.spd_cert.specs.Reading.{judged};

/// The text of a result, as `write_result` and `write_cert` write it, is read back: where the certificate of version 2 that tells the same
/// fits the model, the bytes are that certificate. So no lawful result is refused.
pub fn law_read_back()
    ensures { (m : Process) → IsLawful m → (digest : List ℕ) (why : Why) (x : Iterate) → FitsModel m (cert_of digest why x) → judged m (text_of digest m why (told x)) ≡ Ok (cert_of digest why x) }
{}
