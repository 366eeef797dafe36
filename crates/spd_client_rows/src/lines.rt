//! Answers to lines.

ghost use Rattle.spd_frozen.specs.Fits.{FitsModel};

use crate::models::{iterate, model};
use spd_edge::MemOut;
use spd_frozen::Iterate;
use spd_model::Model;
use spd_query::answer;
use std::alloc::Global;
use std::process::Abort;
use std::test::Fail;

/// Asserts that a line is answered by this line.
fn answers(
    rt: &impl Abort,
    alloc: Global,
    model: &Model,
    turn: &Iterate,
    line: &[u8],
    told: &[u8],
) -> Result<(), Fail>
    requires { FitsModel model.now turn.now }
{
    let mut out = MemOut::new(alloc, 200, 200, Vec::new(alloc))?;
    assert!(rt; answer(line, model, turn, &mut out).is_ok());
    assert_eq!(rt; out.taken(), told);
    Ok(())
}

/// Answers that tell something.
#[test]
fn states_and_status(rt: HostRuntime) -> Result<(), Fail> {
    let alloc = rt.alloc();
    let model = model(alloc)?;
    let turn = iterate(alloc, &model)?;
    let yes = b"turn 5 value 1.968750000 action stay error 0.031250000\n".as_slice();
    let no = b"turn 5 value 0.000000000 action stay error 0.031250000\n".as_slice();
    let status = b"turn 5 residual 0.015625000 error 0.031250000\n".as_slice();
    let cases: [(&[u8], &[u8]); 6] = [
        (b"state x=yes", yes),
        (b"\tstate\r x=no\r", no),
        (b"  state   x=yes  ", yes),
        (b"status", status),
        (b"\tstatus\r", status),
        (b"  status ", status),
    ];
    for (line, told) in &cases {
        answers(&rt, alloc, &model, &turn, line, told)?;
    }
    Ok(())
}

/// Asserts that each of these lines is refused for this reason.
fn refused(rt: &impl Abort, alloc: Global, lines: &[&[u8]], told: &[u8]) -> Result<(), Fail> {
    let model = model(alloc)?;
    let turn = iterate(alloc, &model)?;
    for line in lines {
        answers(rt, alloc, &model, &turn, line, told)?;
    }
    Ok(())
}

/// Refused for a byte or for the first word.
#[test]
fn bytes_and_words(rt: HostRuntime) -> Result<(), Fail> {
    let bytes: [&[u8]; 5] = [
        b"state \x80",
        b"\x80",
        b"status\nstatus",
        b"state x \x00",
        b"\x7f",
    ];
    refused(&rt, rt.alloc(), &bytes, b"refused byte\n")?;
    let words: [&[u8]; 6] = [
        b"",
        b" \t\r ",
        b"State x=yes",
        b"status x",
        b"statex=yes",
        b"x=yes state",
    ];
    refused(&rt, rt.alloc(), &words, b"refused word\n")
}

/// Refused for a word that gives no value, in the order in which they come.
#[test]
fn pairs_and_names(rt: HostRuntime) -> Result<(), Fail> {
    let pairs: [&[u8]; 7] = [
        b"state x",
        b"state =yes",
        b"state x=",
        b"state =",
        b"state x=yes=no",
        b"state x==yes",
        b"state x=yes x",
    ];
    refused(&rt, rt.alloc(), &pairs, b"refused pair\n")?;
    let unknown: [&[u8]; 4] = [
        b"state y=yes",
        b"state x=maybe",
        b"state X=yes",
        b"state x=yes y=yes",
    ];
    refused(&rt, rt.alloc(), &unknown, b"refused unknown\n")
}

/// Refused for what stands twice or is missing.
#[test]
fn twice_and_missing(rt: HostRuntime) -> Result<(), Fail> {
    let twice: [&[u8]; 3] = [
        b"state x=yes x=no",
        b"state x=yes x=yes",
        b"state x=no x=yes x",
    ];
    refused(&rt, rt.alloc(), &twice, b"refused twice\n")?;
    let missing: [&[u8]; 3] = [b"state", b"\tstate\t", b" state\r"];
    refused(&rt, rt.alloc(), &missing, b"refused missing\n")
}

/// A line has at most 4,096 bytes, whatever stands in it.
#[test]
fn long_lines(rt: HostRuntime) -> Result<(), Fail> {
    let alloc = rt.alloc();
    let model = model(alloc)?;
    let turn = iterate(alloc, &model)?;
    let mut line = [b' '; 4097];
    line[..11].copy_from_slice(b"state x=yes");
    let yes = b"turn 5 value 1.968750000 action stay error 0.031250000\n";
    answers(&rt, alloc, &model, &turn, &line[..4096], yes)?;
    answers(&rt, alloc, &model, &turn, &line, b"refused long\n")?;
    let bad = [0x80; 4097];
    answers(&rt, alloc, &model, &turn, &bad[..4096], b"refused byte\n")?;
    answers(&rt, alloc, &model, &turn, &bad, b"refused long\n")
}

/// A sink that fails took a front of the answer.
#[test]
fn a_front_of_an_answer(rt: HostRuntime) -> Result<(), Fail> {
    let alloc = rt.alloc();
    let model = model(alloc)?;
    let turn = iterate(alloc, &model)?;
    let mut out = MemOut::new(alloc, 200, 4, [2].to_vec(alloc)?)?;
    assert!(rt; answer(b"state x=yes", &model, &turn, &mut out).is_err());
    assert_eq!(rt; out.taken(), b"turn 5 v".as_slice());
    assert_eq!(rt; out.faults(), 1);
    Ok(())
}
