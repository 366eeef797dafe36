//! Results of whole runs: each file by `solve` and by `plain`.
use crate::command::{Outside, run};
use crate::files::*;
use crate::texts::*;
use std::process::Abort;
use std::test::Fail;
use std::thread::Threads;

/// A run: what it shows, the file, the options, and the status, the message and the text that it comes to.
type Row = (
    &'static str,
    &'static str,
    &'static [&'static str],
    u8,
    &'static str,
    &'static str,
);

/// Of a variable that its action keeps.
const KEPT: &[Row] = &[
    ("keep", KEEP, &[], 0, "", KEEP_RESULT),
    ("discount 0", KEEP_AT_ONCE, &[], 0, "", KEEP_AT_ONCE_RESULT),
    (
        "tolerance 0",
        KEEP_EXACTLY,
        &[],
        8,
        "turn limit reached, residual 0.000000001\n",
        KEEP_EXACTLY_RESULT,
    ),
    ("a tie", KEEP_OR_HOLD, &[], 0, "", KEEP_OR_HOLD_RESULT),
    (
        "a turn limit of 2",
        KEEP,
        &["--turns", "2"],
        8,
        "turn limit reached, residual 0.125000000\n",
        KEEP_TURNS_2_RESULT,
    ),
    (
        "a turn limit in one word",
        KEEP,
        &["--turns=2"],
        8,
        "turn limit reached, residual 0.125000000\n",
        KEEP_TURNS_2_RESULT,
    ),
    (
        "a reward above its limit",
        KEEP_RICH,
        &[],
        7,
        "reward of action stay at x=yes is 1000000000.000000001\n",
        "",
    ),
    (
        "great rewards, two turns",
        KEEP_FORTUNE,
        &["--turns", "2"],
        8,
        "turn limit reached, residual 999997000.002999999\n",
        KEEP_FORTUNE_TURNS_2_RESULT,
    ),
    (
        "great rewards, fifty turns",
        KEEP_FORTUNE,
        &["--turns", "50"],
        8,
        "turn limit reached, residual 999949001.274979176\n",
        KEEP_FORTUNE_TURNS_50_RESULT,
    ),
];

/// Of dice.
const DICE: &[Row] = &[
    ("a die", DIE, &[], 0, "", DIE_RESULT),
    (
        "a sum below one",
        LOADED_DIE,
        &[],
        6,
        "sum of action mix, variable die at die=one is 0.999900000000\n",
        "",
    ),
    ("a kept die", KEPT_DIE, &[], 0, "", KEPT_DIE_RESULT),
    (
        "ranges of values",
        KEPT_DIE,
        &["--span", "1", "--turns", "1"],
        8,
        "turn limit reached, residual 0.250000000\n",
        KEPT_DIE_SPAN_1_TURNS_1_RESULT,
    ),
    (
        "a negative probability",
        DEBT,
        &[],
        5,
        "refused at byte 44: negative\n",
        "",
    ),
];

/// Of one state.
const ONE_STATE: &[Row] = &[
    ("one value", ONLY, &[], 0, "", ONLY_RESULT),
    ("the least loss", ONLY_LOSES, &[], 0, "", ONLY_LOSES_RESULT),
    (
        "the least loss at once",
        ONLY_LOSES,
        &["--turns", "0"],
        8,
        "turn limit reached, residual 0.000000001\n",
        ONLY_LOSES_TURNS_0_RESULT,
    ),
    ("one state", LAMP, &[], 0, "", LAMP_RESULT),
    (
        "one state, two turns",
        LAMP,
        &["--turns", "2"],
        8,
        "turn limit reached, residual 0.125000000\n",
        LAMP_TURNS_2_RESULT,
    ),
    (
        "one state, a sum below one",
        LAMP_FAILS,
        &[],
        6,
        "sum of action stay, variable lamp at lamp=on is 0.999900000000\n",
        "",
    ),
    (
        "one state, a reward above its limit",
        LAMP_SHINES,
        &[],
        7,
        "reward of action stay at lamp=on is 1000000000.000000001\n",
        "",
    ),
];

/// Of several variables.
const SEVERAL: &[Row] = &[
    ("four variables", FOUR_KEPT, &[], 0, "", FOUR_KEPT_RESULT),
    (
        "the coffee robot",
        COFFEE_ROBOT,
        &[],
        0,
        "",
        COFFEE_ROBOT_RESULT,
    ),
    (
        "next values that follow next values",
        FOLLOWS,
        &[],
        0,
        "",
        FOLLOWS_RESULT,
    ),
];

/// Of all that the grammar can say.
const ALL_FORMS: &[Row] = &[
    ("several of all", MIXED, &[], 0, "", MIXED_RESULT),
    ("each production", ALL, &[], 0, "", ALL_RESULT),
];

/// Runs a command on each row.
fn assert_rows<R: AllocGlobal + Abort + Threads + Sync>(
    rt: &R,
    command: &str,
    rows: &[Row],
) -> Result<(), Fail> {
    for (what, file, options, number, message, output) in rows {
        let mut words = vec![in rt.alloc(); command, "m"]?;
        words.extend_from_slice(options)?;
        let answer = run(rt, &words, Outside::calm(file.as_bytes(), 4096))?;
        assert_eq!(rt; answer.number, *number, "{what}");
        assert_eq!(rt; answer.message.as_slice(), message.as_bytes(), "{what}");
        assert_eq!(rt; answer.output.as_slice(), output.as_bytes(), "{what}");
    }
    Ok(())
}

/// Runs both commands that solve a model on each row.
fn assert_both<R: AllocGlobal + Abort + Threads + Sync>(rt: &R, rows: &[Row]) -> Result<(), Fail> {
    assert_rows(rt, "solve", rows)?;
    assert_rows(rt, "plain", rows)
}

#[test]
fn results(rt: HostRuntime) -> Result<(), Fail> {
    assert_both(&rt, KEPT)?;
    assert_both(&rt, DICE)?;
    assert_both(&rt, ONE_STATE)?;
    assert_both(&rt, SEVERAL)?;
    assert_both(&rt, ALL_FORMS)
}

/// However few bytes a read gives and a write takes.
#[test]
fn byte_by_byte(rt: HostRuntime) -> Result<(), Fail> {
    for most in [1, 2, 16] {
        let answer = run(&rt, &["solve", "m"], Outside::calm(KEEP.as_bytes(), most))?;
        assert_eq!(rt; answer.number, 0);
        assert_eq!(rt; answer.output.as_slice(), KEEP_RESULT.as_bytes());
    }
    Ok(())
}
