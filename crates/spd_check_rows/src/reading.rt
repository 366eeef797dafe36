//! Models of files, certificates of texts, and the verdicts on them.
ghost use Rattle.std.specs.Prelude.{IfOk};
ghost use Rattle.spd_frozen.specs.Fits.{FitsModel};
ghost use Rattle.spd_cert.specs.Certificates.{iterate_of};

use spd_cert::{Cert, read_cert};
use spd_check::{Verdict, check};
use spd_model::{Model, Side};
use spd_reader::read_model;
use std::alloc::Global;
use std::test::Fail;

/// The most nodes that a forest of the tests may hold, and the most answers that a table keeps.
const NODES: u32 = 100_000;

const MEMO_SIZE: usize = 1_000;

/// The model of a file.
pub fn model_of(alloc: Global, file: &[u8]) -> Result<Model, Fail> {
    if file.len() > 4_000_000 {
        return Err(Fail::new("too long"));
    }
    match read_model(alloc, file) {
        Ok(model) => Ok(model),
        Err(unread) => Err(Fail::new(format_args!("{unread:?}"))),
    }
}

/// The certificate of a text.
pub fn cert_of(alloc: Global, model: &Model, text: &[u8]) -> Result<Cert, Fail>
    ensures { IfOk result (λ cert. FitsModel model.now (iterate_of cert)) }
{
    match read_cert(alloc, text, model) {
        Ok(cert) => Ok(cert),
        Err(unread) => Err(Fail::new(format_args!("{unread:?}"))),
    }
}

/// A verdict that is wanted.
#[derive(Clone, Copy, Debug)]
pub enum Want<'a> {
    Yes,
    No(&'a [u8], Side, u32),
}

/// Fails where another verdict is given on a certificate.
pub fn judged(alloc: Global, model: &Model, cert: &Cert, want: Want<'_>) -> Result<(), Fail>
    requires { FitsModel model.now (iterate_of cert.now) }
{
    let same = match (check(alloc, model, cert, NODES, MEMO_SIZE), want) {
        (Ok(Verdict::Yes), Want::Yes) => true,
        (Ok(Verdict::No { at, side, action }), Want::No(values, wanted, by)) => {
            at.values() == values && side == wanted && action == by
        }
        _ => false,
    };
    if same {
        Ok(())
    } else {
        Err(Fail::new(format_args!("not {want:?}")))
    }
}
