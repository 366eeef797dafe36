//! Words that are no command, commands that aren't run yet, and words that are run in any form.
use crate::command::{Outside, run};
use crate::files::KEEP;
use crate::texts::KEEP_RESULT;
use std::test::Fail;

/// The words of a command.
type Words = &'static [&'static str];

/// Words, and the number of the first that can't stand.
const USAGE: &[(Words, &str)] = &[
    (&[], "usage: word 0\n"),
    (&["fro"], "usage: word 0\n"),
    (&["Solve", "m"], "usage: word 0\n"),
    (&["solve"], "usage: word 1\n"),
    (&["solve", ""], "usage: word 1\n"),
    (&["solve", "-m"], "usage: word 1\n"),
    (&["solve", "m", "n"], "usage: word 2\n"),
    (&["solve", "m", "--workers", "0"], "usage: word 3\n"),
    (&["solve", "m", "--workers=65"], "usage: word 2\n"),
    (&["solve", "m", "--workers"], "usage: word 3\n"),
    (&["solve", "m", "--span", "0.0000000001"], "usage: word 3\n"),
    (
        &["solve", "m", "--nodes", "16", "--nodes", "16"],
        "usage: word 4\n",
    ),
    (&["solve", "m", "--fro"], "usage: word 2\n"),
    (&["plain", "m", "--workers", "1"], "usage: word 2\n"),
    (&["plain", "--turns=1000001", "m"], "usage: word 1\n"),
    (&["check", "-", "-"], "usage: word 2\n"),
    (&["check", "m"], "usage: word 2\n"),
    (&["check", "m", "c", "--turns", "5"], "usage: word 3\n"),
    (&["upgrade", "m", "m"], "usage: word 2\n"),
    (&["ask", "m", "q"], "usage: word 3\n"),
    (&["gen", "1"], "usage: word 1\n"),
    // Commands that aren't run yet.
    (&["ask", "m"], "usage: word 0\n"),
    (&["horizon", "m"], "usage: word 0\n"),
    (&["evaluate", "m", "c"], "usage: word 0\n"),
    (&["bounded", "m", "u"], "usage: word 0\n"),
];

/// Words that solve the file `m`.
const LAWFUL: &[Words] = &[
    &["solve", "--", "m"],
    &["plain", "--turns", "10000", "m"],
    &[
        "solve",
        "--workers=64",
        "m",
        "--memo",
        "1",
        "--nodes=8388608",
    ],
    &["solve", "--span", "0e5", "--", "m"],
];

#[test]
fn words(rt: HostRuntime) -> Result<(), Fail> {
    for (words, message) in USAGE {
        let answer = run(&rt, words, Outside::calm(KEEP.as_bytes(), 4096))?;
        assert_eq!(rt; answer.number, 2);
        assert_eq!(rt; answer.message.as_slice(), message.as_bytes());
        assert!(rt; answer.output.is_empty());
    }
    for words in LAWFUL {
        let answer = run(&rt, words, Outside::calm(KEEP.as_bytes(), 4096))?;
        assert_eq!(rt; answer.number, 0);
        assert_eq!(rt; answer.output.as_slice(), KEEP_RESULT.as_bytes());
    }
    let dashed = run(
        &rt,
        &["solve", "--", "-m"],
        Outside::calm(KEEP.as_bytes(), 4096),
    )?;
    assert_eq!(rt; dashed.number, 3);
    assert_eq!(rt; dashed.message.as_slice(), b"cannot open -m\n".as_slice());
    Ok(())
}
