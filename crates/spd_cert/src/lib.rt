//! Certificates: a value, a policy and a residual, as a text tells them.
//!
//! `spd_cert` reads a certificate of a model and writes one. The grammar is a relation between bytes and certificates
//! (`specs/Grammar.antt`), and says of lines and words what they are; the first refusal is a function of the bytes
//! (`specs/Reading.antt`). `read_cert` is exact both ways, in one pass. That a certificate fits a model is one definition.
#![tactic(auto)]

mod cert;
mod digest;
mod ending;
mod head;
mod law;
mod names;
mod nodes;
mod numbers;
mod place;
mod reader;
mod refusal;
mod word;
mod writer;

pub use cert::Cert;
pub use digest::cert_digest;
pub use law::law_read_back;
pub use reader::read_cert;
pub use refusal::{CertRefusal, Uncert};
pub use writer::write_cert;
