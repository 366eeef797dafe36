//! Certificates that are checked, and written anew.
ghost use Rattle.std.specs.Prelude.{◌≡◌, None};
ghost use Rattle.spd_edge.specs.MemoryPlace.{inputs_of};
ghost use Rattle.spd_edge.specs.Names.{SameButFor};

use crate::command::{message, words};
use crate::files::{FOUR_KEPT, KEEP, KEEP_OR_HOLD, KEEP_RICH};
use crate::refused::edited;
use crate::texts::KEEP_RESULT;
use spd_cert::CertRefusal;
use spd_edge::{MemIn, MemOut, MemPlace};
use spd_solver::{Stage, Status, number, solve_run};
use spd_tasks::Open;
use std::process::Abort;
use std::test::Fail;
use std::thread::Threads;

/// The SHA-256 of the file `KEEP`.
const KEEP_DIGEST: [u8; 32] = [
    0xa1, 0xe1, 0x07, 0x27, 0x23, 0x79, 0xab, 0x8c, 0x6b, 0xeb, 0xf4, 0xbd, 0x78, 0xc0, 0xc8, 0x7b,
    0x8c, 0xbb, 0x9f, 0x36, 0x0f, 0x35, 0x61, 0x34, 0x0e, 0x07, 0x6f, 0x81, 0x0c, 0x9a, 0xd9, 0xa3,
];

/// The SHA-256 of the file `KEEP_OR_HOLD`.
const KEEP_OR_HOLD_DIGEST: [u8; 32] = [
    0x75, 0x3f, 0x1a, 0xa3, 0xe6, 0x8a, 0x18, 0xf9, 0x83, 0xb8, 0xc5, 0x98, 0x43, 0x74, 0x6c, 0xb5,
    0x12, 0x2a, 0x3b, 0xde, 0x37, 0x3e, 0xe1, 0x50, 0x41, 0x06, 0xc8, 0x21, 0x3e, 0xdd, 0x9c, 0x54,
];

/// The result of solving `KEEP` as a text of version 1, which names no file.
const OLD_RESULT: &str = "spd result 1
status done
turn 5
residual 0.015625000
at x=yes above stay
error 0.031250000
value 3
0 leaf 1.968750000
1 leaf 0.000000000
2 branch x 0 1
policy 1
0 leaf stay
end
";

/// What lies outside a check: the model file `m`, the certificate `c`, and an output for so many bytes. Each may be missing.
#[derive(Clone, Copy)]
struct Outside<'a> {
    file: Option<&'a [u8]>,
    cert: Option<&'a [u8]>,
    room: usize,
    /// The reads of each file that fail, counted from 0.
    failing_reads: &'a [u64],
}

impl<'a> Outside<'a> {
    fn calm(file: &'a [u8], cert: &'a [u8]) -> Self {
        Outside {
            file: Some(file),
            cert: Some(cert),
            room: 100_000,
            failing_reads: &[],
        }
    }
}

/// How a command ended, and what its output took.
#[derive(Drop)]
struct Ended {
    status: Status,
    output: Vec<u8>,
}

/// Puts an input there, if there is one.
fn put<R: AllocGlobal>(
    rt: &R,
    place: &mut MemPlace,
    name: &[u8],
    bytes: Option<&[u8]>,
    failing_reads: &[u64],
) -> Result<(), Fail>
    requires new_name { (inputs_of place.old).put name.now ≡ None }
    ensures others { SameButFor (inputs_of place.old).put (inputs_of place.new).put name.now }
    ensures stage { (inputs_of place.new).stage ≡ (inputs_of place.old).stage }
{
    let Some(bytes) = bytes else {
        return Ok(());
    };
    let failing = failing_reads.to_vec(rt.alloc())?;
    let input = MemIn::new(bytes.to_vec(rt.alloc())?, 4096, failing);
    place.put_in(name, input)?;
    Ok(())
}

/// What these words come to.
fn run<R: AllocGlobal + Threads + Sync>(
    rt: &R,
    texts: &[&str],
    outside: Outside<'_>,
) -> Result<Ended, Fail> {
    let words = words(rt, texts)?;
    let mut place = MemPlace::new(rt.alloc());
    put(rt, &mut place, b"m", outside.file, outside.failing_reads)?;
    put(rt, &mut place, b"c", outside.cert, outside.failing_reads)?;
    let mut out = MemOut::new(rt.alloc(), outside.room, 7, Vec::new(rt.alloc()))?;
    let status = solve_run(rt, &Open, rt.alloc(), &words, &mut place, &mut out);
    Ok(Ended {
        status,
        output: out.taken().to_vec(rt.alloc())?,
    })
}

/// A command ended with this status, this message and this text.
fn assert_ended<R: AllocGlobal + Abort>(
    rt: &R,
    what: &str,
    ended: &Ended,
    status: u8,
    told: &str,
    text: &str,
) -> Result<(), Fail> {
    assert_eq!(rt; number(&ended.status), status, "{what}");
    let message = message(rt, &ended.status)?;
    assert!(rt; message.as_slice() == told.as_bytes(), "{what}");
    assert!(rt; ended.output.as_slice() == text.as_bytes(), "{what}");
    Ok(())
}

const CHECK: &[&str] = &["check", "m", "c"];

const UPGRADE: &[&str] = &["upgrade", "m", "c"];

/// What is said of a certificate that doesn't hold.
const DOES_NOT_HOLD: &str = "certificate does not hold\n";

/// What a row is, its words and its model file, its certificate, and its status, message and text.
type Row = (
    &'static str,
    &'static [&'static str],
    &'static str,
    &'static str,
    u8,
    &'static str,
    &'static str,
);

const VERDICTS: &[Row] = &[
    ("a result", CHECK, KEEP, KEEP_RESULT, 0, "", "yes\n"),
    ("of version 1", CHECK, KEEP, OLD_RESULT, 0, "", "yes\n"),
    (
        "of any model",
        CHECK,
        KEEP_OR_HOLD,
        OLD_RESULT,
        0,
        "",
        "yes\n",
    ),
    (
        "written anew",
        UPGRADE,
        KEEP,
        OLD_RESULT,
        0,
        "",
        KEEP_RESULT,
    ),
    ("new", UPGRADE, KEEP, KEEP_RESULT, 0, "", KEEP_RESULT),
];

#[test]
fn verdicts(rt: HostRuntime) -> Result<(), Fail> {
    for (what, words, file, cert, status, told, text) in VERDICTS {
        let outside = Outside::calm(file.as_bytes(), cert.as_bytes());
        let ended = run(&rt, words, outside)?;
        assert_ended(&rt, what, &ended, *status, told, text)?;
    }
    Ok(())
}

/// A change of the result of solving `KEEP`: what it is, the part that is changed, what takes its place, and the status, message and text.
type Edit = (
    &'static str,
    &'static str,
    &'static str,
    u8,
    &'static str,
    &'static str,
);

/// At yes the upper bound of 1.96875 is 1 + 1.96875 / 2 = 1.984375, which lies 0.015625 above it. Of 3 it is 2.5, and so is the lower bound,
/// which lies 0.5 below it. Of 1 at no both are 0.5, which lies 0.5 below it, and those at yes are what they were.
const CHANGED: &[Edit] = &[
    (
        "a shorter number",
        "1 leaf 0.000000000",
        "1 leaf 0",
        0,
        "",
        "yes\n",
    ),
    (
        "a smaller residual",
        "residual 0.015625000",
        "residual 0.015624999",
        11,
        DOES_NOT_HOLD,
        "no x=yes above stay\n",
    ),
    (
        "a greater value at yes",
        "0 leaf 1.968750000",
        "0 leaf 3",
        11,
        DOES_NOT_HOLD,
        "no x=yes below stay\n",
    ),
    (
        "a greater value at no",
        "1 leaf 0.000000000",
        "1 leaf 1",
        11,
        DOES_NOT_HOLD,
        "no x=no below stay\n",
    ),
    (
        "a kid of the branch's number",
        "2 branch x 0 1",
        "2 branch x 0 2",
        10,
        "certificate refused at byte 221: order\n",
        "",
    ),
    (
        "an unknown value",
        "x=yes",
        "x=maybe",
        10,
        "certificate refused at byte 127: unknown name\n",
        "",
    ),
    (
        "another version",
        "spd result 2",
        "spd result 3",
        10,
        "certificate refused at byte 11: expected\n",
        "",
    ),
    (
        "a negative residual",
        "residual 0",
        "residual -0",
        10,
        "certificate refused at byte 112: number\n",
        "",
    ),
    (
        "no number",
        "residual 0.015625000",
        "residual none",
        10,
        "certificate refused at byte 112: number\n",
        "",
    ),
    (
        "a carriage return",
        "end\n",
        "end\r\n",
        10,
        "certificate refused at byte 247: bad byte\n",
        "",
    ),
    (
        "a word more",
        "end\n",
        "end\nmore",
        10,
        "certificate refused at byte 248: end\n",
        "",
    ),
    (
        "another file",
        "model a1",
        "model a2",
        16,
        "certificate is of another model\n",
        "",
    ),
];

#[test]
fn changed(rt: HostRuntime) -> Result<(), Fail> {
    for (what, from, to, status, told, text) in CHANGED {
        let cert = edited(
            rt.alloc(),
            KEEP_RESULT.as_bytes(),
            from.as_bytes(),
            to.as_bytes(),
        )?;
        let outside = Outside::calm(KEEP.as_bytes(), &cert);
        let ended = run(&rt, CHECK, outside)?;
        assert_ended(&rt, what, &ended, *status, told, text)?;
        // What isn't done ends in the same way where it is to be written anew.
        if *status > 0 {
            let ended = run(&rt, UPGRADE, outside)?;
            assert_ended(&rt, what, &ended, *status, told, text)?;
        }
    }
    Ok(())
}

/// A shorter number is written anew in its usual form.
#[test]
fn usual_form(rt: HostRuntime) -> Result<(), Fail> {
    let old = OLD_RESULT.as_bytes();
    let short = edited(rt.alloc(), old, b"1 leaf 0.000000000", b"1 leaf 0")?;
    let ended = run(&rt, UPGRADE, Outside::calm(KEEP.as_bytes(), &short))?;
    assert_ended(&rt, "a shorter number", &ended, 0, "", KEEP_RESULT)
}

#[test]
fn other_model(rt: HostRuntime) -> Result<(), Fail> {
    let outside = Outside::calm(KEEP_OR_HOLD.as_bytes(), KEEP_RESULT.as_bytes());
    for words in [CHECK, UPGRADE] {
        let ended = run(&rt, words, outside)?;
        assert!(rt; ended.output.is_empty());
        match ended.status {
            Status::OtherModel { found, wanted } => {
                assert_eq!(rt; found, KEEP_DIGEST);
                assert_eq!(rt; wanted, KEEP_OR_HOLD_DIGEST);
            }
            _ => Err("another status")?,
        }
    }
    Ok(())
}

#[test]
fn fields(rt: HostRuntime) -> Result<(), Fail> {
    let file = KEEP.as_bytes();
    let cut = &KEEP_RESULT.as_bytes()[..100];
    let ended = run(&rt, CHECK, Outside::calm(file, cut))?;
    assert!(rt;
        matches!(
            ended.status,
            Status::CertRefused {
                refusal: CertRefusal::End { at: 100 }
            }
        )
    );
    let ended = run(&rt, CHECK, Outside::calm(file, b""))?;
    assert!(rt;
        matches!(
            ended.status,
            Status::CertRefused {
                refusal: CertRefusal::End { at: 0 }
            }
        )
    );
    Ok(())
}

/// Both commands end with this status and this message, and write nothing.
fn assert_refused<R: AllocGlobal + Threads + Sync + Abort>(
    rt: &R,
    file: Option<&[u8]>,
    cert: Option<&[u8]>,
    status: u8,
    told: &str,
) -> Result<(), Fail> {
    let outside = Outside {
        file,
        cert,
        ..Outside::calm(b"", b"")
    };
    for words in [CHECK, UPGRADE] {
        let ended = run(rt, words, outside)?;
        assert_ended(rt, told, &ended, status, told, "")?;
    }
    Ok(())
}

/// The model file comes first: where it isn't one, the certificate isn't opened.
#[test]
fn missing_files(rt: HostRuntime) -> Result<(), Fail> {
    let file = Some(KEEP.as_bytes());
    let cert = Some(KEEP_RESULT.as_bytes());
    assert_refused(&rt, None, None, 3, "cannot open m\n")?;
    assert_refused(&rt, None, cert, 3, "cannot open m\n")?;
    assert_refused(
        &rt,
        Some(b"("),
        None,
        5,
        "refused at byte 1: expected variables\n",
    )?;
    assert_refused(&rt, file, None, 3, "cannot open c\n")
}

/// Of two faults the certificate's comes before those of the process, and first of all that it is of another model.
#[test]
fn order(rt: HostRuntime) -> Result<(), Fail> {
    let short = edited(rt.alloc(), KEEP.as_bytes(), b"(1)", b"(0.9)")?;
    let short = Some(short.as_slice());
    let other = Some(KEEP_OR_HOLD.as_bytes());
    let rich = Some(KEEP_RICH.as_bytes());
    let cert = Some(KEEP_RESULT.as_bytes());
    let old = Some(OLD_RESULT.as_bytes());
    let cut = Some(&KEEP_RESULT.as_bytes()[..100]);
    let old_cut = Some(&OLD_RESULT.as_bytes()[..5]);
    let told = "certificate is of another model\n";
    assert_refused(&rt, other, cut, 16, told)?;
    assert_refused(&rt, short, cert, 16, told)?;
    let told = "certificate refused at byte 5: end\n";
    assert_refused(&rt, short, old_cut, 10, told)?;
    let told = "sum of action stay, variable x at x=yes is 0.900000000000\n";
    assert_refused(&rt, short, old, 6, told)?;
    let told = "reward of action stay at x=yes is 1000000000.000000001\n";
    assert_refused(&rt, rich, old, 7, told)
}

/// Words that can't stand: a name twice, a name too few, an option of other commands.
#[test]
fn usage(rt: HostRuntime) -> Result<(), Fail> {
    let outside = Outside::calm(KEEP.as_bytes(), KEEP_RESULT.as_bytes());
    let cases: [(&[&str], &str); 4] = [
        (&["check", "m", "m"], "usage: word 2\n"),
        (&["upgrade", "m"], "usage: word 2\n"),
        (&["check", "m", "c", "d"], "usage: word 3\n"),
        (&["check", "m", "c", "--turns", "1"], "usage: word 3\n"),
    ];
    for (words, told) in cases {
        let ended = run(&rt, words, outside)?;
        assert_ended(&rt, told, &ended, 2, told, "")?;
    }
    Ok(())
}

#[test]
fn read_fails(rt: HostRuntime) -> Result<(), Fail> {
    let calm = Outside::calm(KEEP.as_bytes(), KEEP_RESULT.as_bytes());
    let outside = Outside {
        failing_reads: &[0],
        ..calm
    };
    let ended = run(&rt, CHECK, outside)?;
    assert_ended(&rt, "the first read", &ended, 3, "cannot read m\n", "")
}

/// Where the output has room for a front of the text alone, it takes that, and the command ends with the write.
fn assert_cut<R: AllocGlobal + Threads + Sync + Abort>(
    rt: &R,
    words: &[&str],
    cert: &[u8],
    text: &[u8],
) -> Result<(), Fail> {
    for room in [0, text.len() / 2, text.len().saturating_sub(1)] {
        let outside = Outside {
            room,
            ..Outside::calm(KEEP.as_bytes(), cert)
        };
        let ended = run(rt, words, outside)?;
        let message = message(rt, &ended.status)?;
        assert_eq!(rt; number(&ended.status), 12);
        assert_eq!(rt; message.as_slice(), b"cannot write\n".as_slice());
        assert_eq!(rt; ended.output.as_slice(), &text[..room]);
    }
    Ok(())
}

#[test]
fn output_is_full(rt: HostRuntime) -> Result<(), Fail> {
    let worse = edited(
        rt.alloc(),
        KEEP_RESULT.as_bytes(),
        b"residual 0.015625000",
        b"residual 0.015624999",
    )?;
    assert_cut(&rt, CHECK, KEEP_RESULT.as_bytes(), b"yes\n")?;
    assert_cut(&rt, CHECK, &worse, b"no x=yes above stay\n")?;
    assert_cut(&rt, UPGRADE, OLD_RESULT.as_bytes(), KEEP_RESULT.as_bytes())
}

/// Limits of nodes around those of building and of checking turn 0 of four variables that keep their values.
///
/// Building has 83 nodes. Those of the check are counted as those of the turn, 176, but for the pairs of both bounds, in whose place it has
/// the policy's number with its lower bound, 31 nodes too, and with 0 before any action's is known, one node more: 177. The greatest upper bound and
/// the policy's lower bound are the one action's, which are there, and the gaps are those of the turn.
#[test]
fn little_room(rt: HostRuntime) -> Result<(), Fail> {
    let file = FOUR_KEPT.as_bytes();
    let first = run(
        &rt,
        &["solve", "m", "--turns", "0"],
        Outside::calm(file, b""),
    )?;
    for (nodes, stage) in [
        ("16", Some(Stage::Building)),
        ("82", Some(Stage::Building)),
        ("83", Some(Stage::Check)),
        ("176", Some(Stage::Check)),
        ("177", None),
    ] {
        let words = ["check", "m", "c", "--nodes", nodes];
        let ended = run(&rt, &words, Outside::calm(file, &first.output))?;
        match stage {
            Some(Stage::Building) => {
                let told = format!(in rt.alloc(); "node limit {nodes} passed in building\n")?;
                assert_ended(&rt, nodes, &ended, 9, &told, "")?;
            }
            Some(_) => {
                let told = format!(in rt.alloc(); "node limit {nodes} passed in check\n")?;
                assert_ended(&rt, nodes, &ended, 9, &told, "")?;
            }
            None => assert_ended(&rt, nodes, &ended, 0, "", "yes\n")?,
        }
    }
    Ok(())
}

/// Run while the allocation of any one number fails: the command ends for want of memory with nothing written, or writes the whole text.
#[test]
fn memory_is_refused(rt: HostRuntime) -> Result<(), Fail> {
    let outside = Outside::calm(KEEP.as_bytes(), KEEP_RESULT.as_bytes());
    let ended = run(&rt, CHECK, outside)?;
    match ended.status {
        Status::Memory => assert!(rt; ended.output.is_empty()),
        _ => assert_eq!(rt; ended.output.as_slice(), b"yes\n".as_slice()),
    }
    Ok(())
}
