//! The digest that a certificate names.

ghost use Rattle.std.specs.Prelude.{◌≡◌, ℕ, List, Some, IfSome};
ghost use Rattle.spd_cert.specs.Grammar.{NamesModel};
ghost use Rattle.spd_cert.specs.inner.Naming.{named_of};

use crate::head::digest_of;

/// The digest that stands at its place behind the words before it, and before an LF.
#[tactic(auto, unfolding(crate::specs::inner::Naming::named_of))]
fn named(bytes: &[u8]) -> Option<[u8; 32]>
    ensures { result ≡ named_of bytes.now }
{
    if bytes.len() < 84 {
        return None;
    }
    if &bytes[..19] != b"spd result 2\nmodel ".as_slice() {
        return None;
    }
    if bytes[83] != b'\n' {
        return None;
    }
    digest_of(&bytes[19..83])
}

/// The SHA-256 of the model's file that bytes name: where they begin with the line `spd result 2` and a line `model` and a digest,
/// each with its LF. What stands behind isn't read. It takes no memory.
pub fn cert_digest(bytes: &[u8]) -> Option<[u8; 32]>
    ensures names { IfSome result (NamesModel bytes.now) }
    ensures every { (digest : List ℕ) → NamesModel bytes.now digest → result ≡ Some digest }
{
    named(bytes)
}
