//! Texts that are read, and what is written of them.
use crate::reading::{around, joined, model_of};
use crate::texts::{DIGEST, FOLLOW, FOLLOWED, KEEP, KEPT, KEPT_1};
use spd_cert::{cert_digest, read_cert, write_cert};
use spd_edge::MemOut;
use spd_model::{Model, Side, Why};
use std::alloc::Global;
use std::test::Fail;

/// A change of a text: what stands there once, what stands there instead, and what is then written there.
type Change = (&'static str, &'static str, &'static str);

/// Of the words that may be spelled in more than one way, and other lawful ones.
const LAWFUL: &[Change] = &[
    ("turn 5", "turn 0", "turn 0"),
    ("turn 5", "turn 1000000", "turn 1000000"),
    ("done", "limit", "limit"),
    ("above", "below", "below"),
    ("x=yes", "x=no", "x=no"),
    ("0.015625000", "0", "0.000000000"),
    ("0.015625000", "-0", "0.000000000"),
    ("0.015625000", ".5", "0.500000000"),
    ("0.015625000", "+5.", "5.000000000"),
    ("0.015625000", "1e-9", "0.000000001"),
    ("0.015625000", "1E21", "1000000000000000000000.000000000"),
    (
        "0.031250000",
        "1000000000000000000000",
        "1000000000000000000000.000000000",
    ),
    (
        "0.031250000",
        "0000000000000000000000000000.03125000000000",
        "0.031250000",
    ),
    ("0.000000000", "-1e-9", "-0.000000001"),
    (
        "0.000000000",
        "1000000000000000.001",
        "1000000000000000.001000000",
    ),
    (
        "0.000000000",
        "-1000000000000000.001",
        "-1000000000000000.001000000",
    ),
    ("x 0 1", "x 1 0", "x 1 0"),
    ("x 0 1", "x 1 1", "x 1 1"),
    (
        "1 leaf 0.000000000",
        "1 leaf 1.968750000",
        "1 leaf 1.968750000",
    ),
    (
        "value 3\n0 leaf 1.968750000\n1 leaf 0.000000000\n2 branch x 0 1\n",
        "value 1\n0 leaf 7\n",
        "value 1\n0 leaf 7.000000000\n",
    ),
    (
        "policy 1\n0 leaf stay\n",
        "policy 4\n0 leaf stay\n1 leaf stay\n2 branch x 1 0\n3 branch x 1 1\n",
        "policy 4\n0 leaf stay\n1 leaf stay\n2 branch x 1 0\n3 branch x 1 1\n",
    ),
];

/// Fails where a text isn't read as a certificate, or where another one than the wanted text is written of it.
fn written(alloc: Global, model: &Model, text: &[u8], wanted: &[u8]) -> Result<(), Fail> {
    let mut out = MemOut::new(alloc, 1000, 1000, Vec::new(alloc))?;
    let cert = read_cert(alloc, text, model)?;
    if write_cert(&mut out, model, &DIGEST, cert).is_err() || out.taken() != wanted {
        return Err(Fail::new("another text"));
    }
    Ok(())
}

/// The same of a text with a change.
fn changed(alloc: Global, model: &Model, change: &Change) -> Result<(), Fail> {
    let (from, to, told) = *change;
    let Some((front, back)) = around(KEPT.as_bytes(), from.as_bytes()) else {
        return Err(Fail::new(from));
    };
    let text = joined(alloc, front, to.as_bytes(), back)?;
    let wanted = joined(alloc, front, told.as_bytes(), back)?;
    written(alloc, model, &text, &wanted)
}

#[test]
fn lawful_texts(rt: HostRuntime) -> Result<(), Fail> {
    let model = model_of(rt.alloc(), KEEP)?;
    written(rt.alloc(), &model, KEPT.as_bytes(), KEPT.as_bytes())?;
    written(rt.alloc(), &model, KEPT_1.as_bytes(), KEPT.as_bytes())?;
    for change in LAWFUL {
        changed(rt.alloc(), &model, change)?;
    }
    Ok(())
}

/// What a certificate of two variables tells.
#[test]
fn told(rt: HostRuntime) -> Result<(), Fail> {
    let model = model_of(rt.alloc(), FOLLOW)?;
    let cert = read_cert(rt.alloc(), FOLLOWED.as_bytes(), &model)?;
    assert_eq!(rt; cert.version, 1);
    assert_eq!(rt; cert.digest, None);
    assert_eq!(rt; cert.turn, 0);
    assert_eq!(rt; cert.why, Why::Limit);
    assert_eq!(rt; cert.residual, 2_000_000_000);
    assert_eq!(rt; cert.place.values(), [1, 0].as_slice());
    assert_eq!(rt; cert.side, Side::Below);
    assert_eq!(rt; cert.action, 0);
    assert_eq!(rt; cert.error, 4_000_000_000);
    assert_eq!(rt; cert.value.nodes().len(), 5);
    assert_eq!(rt; cert.policy.nodes().len(), 2);
    Ok(())
}

/// The digest that a text names, whatever stands behind its first two lines.
#[test]
fn digests(rt: HostRuntime) -> Result<(), Fail> {
    let text = KEPT.as_bytes();
    assert_eq!(rt; cert_digest(text), Some(DIGEST));
    assert_eq!(rt; cert_digest(&text[..84]), Some(DIGEST));
    assert_eq!(rt; cert_digest(&text[..83]), None);
    assert_eq!(rt; cert_digest(KEPT_1.as_bytes()), None);
    for (from, to) in [
        ("result 2", "result 1"),
        ("model a", "model A"),
        ("model a1", "model a"),
        ("9ad9a3", "9ad9a3 "),
    ] {
        let (front, back) = around(text, from.as_bytes()).ok_or("no such part")?;
        let other = joined(rt.alloc(), front, to.as_bytes(), back)?;
        assert_eq!(rt; cert_digest(&other), None);
    }
    Ok(())
}
