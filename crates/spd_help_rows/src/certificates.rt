//! What is told of certificates.
use spd_cert::CertRefusal::{self, BadByte, End, Expected, Number, Order, Unknown};
use spd_help::{Screen, tell_cert_refusal, tell_no, tell_other_model};
use std::test::Fail;

/// The first lines of a certificate of version 1. Its lines begin at the bytes 0, 13, 26, 33 and 46.
const OLD: &[u8] = b"spd result 1\nstatus limit\nturn 0\nresidual two\nat x=yes";

/// Those of one of version 2. Its lines begin at the bytes 0, 13 and 21.
const NEW: &[u8] = b"spd result 2\nmodel a\nstatus maybe\n";

/// Nodes behind eight lines of one byte: their lines begin at the bytes 16, 26, 36 and 52.
const NODES: &[u8] = b"a\na\na\na\na\na\na\na\n0 leaf 01\n1 leaf no\n2 branch x 0 2 \nend\n.";

/// A certificate's text, why it is refused, and what is told: the line and the column, the line and its caret, and a sentence.
const CASES: &[(&[u8], CertRefusal, &[u8])] = &[
    (
        OLD,
        Number { at: 42 },
        b"  c, line 4, column 10\n    residual two\n             ^\n  Here stands `residual` with a decimal from 0 to 10^21 of at most 9 places.\n",
    ),
    (
        OLD,
        End { at: 54 },
        b"  c, line 5, column 9\n    at x=yes\n            ^\n  The certificate is cut off here: its last line is `end`, with an LF.\n",
    ),
    (
        OLD,
        BadByte { at: 0 },
        b"  c, line 1, column 1\n    spd result 1\n    ^\n  A certificate is printable ASCII, and its lines end in LF: no tab, no CR, no letter with an accent.\n",
    ),
    (
        NEW,
        Expected { at: 28 },
        b"  c, line 3, column 8\n    status maybe\n           ^\n  Here stands `status done` or `status limit`.\n",
    ),
    (
        NEW,
        Expected { at: 19 },
        b"  c, line 2, column 7\n    model a\n          ^\n  Behind `spd result 2` stands `model` with the SHA-256 of the model file, 64 digits of `0` to `9` and `a` to `f`.\n",
    ),
    (
        NODES,
        Number { at: 23 },
        b"  c, line 9, column 8\n    0 leaf 01\n           ^\n  A leaf of the value is a decimal of at most 9 places up to 10^15; the number of a node is digits without a leading zero.\n",
    ),
    (
        NODES,
        Unknown { at: 33 },
        b"  c, line 10, column 8\n    1 leaf no\n           ^\n  The model has no variable, value or action of this name here; `at` names its variables in their order.\n",
    ),
    (
        NODES,
        Order { at: 49 },
        b"  c, line 11, column 14\n    2 branch x 0 2 \n                 ^\n  A branch goes on with nodes above it in the list, which are leaves or branch on a later variable of the model file.\n",
    ),
    (
        NODES,
        Expected { at: 51 },
        b"  c, line 11, column 16\n    2 branch x 0 2 \n                   ^\n  A word is missing here: one space stands between two words, and none at a line's end.\n",
    ),
    (
        NODES,
        End { at: 56 },
        b"  c, line 13, column 1\n    .\n    ^\n  A certificate ends with the line `end`.\n",
    ),
    (OLD, End { at: 55 }, b""),
];

#[test]
fn refused_certificates(rt: HostRuntime) -> Result<(), Fail> {
    for (text, refusal, wanted) in CASES {
        let mut screen = Screen::new(rt.alloc());
        tell_cert_refusal(&mut screen, b"c", text, *refusal)?;
        assert_eq!(rt; screen.as_slice(), *wanted);
    }
    Ok(())
}

#[test]
fn of_another_model(rt: HostRuntime) -> Result<(), Fail> {
    let mut screen = Screen::new(rt.alloc());
    tell_other_model(&mut screen, b"m", &[0xa1; 32], &[0x0f; 32])?;
    let wanted: &[u8] =
        b"  The SHA-256 of the model file that it is of, and below it that of m:\n    a1a1a1a1a1a1a1a1a1a1a1a1a1a1a1a1a1a1a1a1a1a1a1a1a1a1a1a1a1a1a1a1\n    0f0f0f0f0f0f0f0f0f0f0f0f0f0f0f0f0f0f0f0f0f0f0f0f0f0f0f0f0f0f0f0f\n  Give the file that it is of. To judge it for another one, make `spd result 1` its first line, and take out the line `model`.\n";
    assert_eq!(rt; screen.as_slice(), wanted);
    Ok(())
}

#[test]
fn that_does_not_hold(rt: HostRuntime) -> Result<(), Fail> {
    let mut screen = Screen::new(rt.alloc());
    tell_no(&mut screen)?;
    let wanted: &[u8] =
        b"  At the state that was printed one step more lies further from the value than the residual: above it by this action, or below it by the policy's.\n  That says nothing of how near the value is: with a larger residual the same value and policy may hold.\n";
    assert_eq!(rt; screen.as_slice(), wanted);
    Ok(())
}
