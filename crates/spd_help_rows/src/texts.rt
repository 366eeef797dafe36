//! The text of each call.
use spd_edge::MemOut;
use spd_help::{
    Goal, Screen, line_at, show, tell_node_limit, tell_progress, tell_refusal, tell_sum,
    tell_system, tell_turn_limit, tell_usage, turns_left,
};
use spd_model::Word;
use spd_syntax::Refusal;
use sqlite_items::Items;
use std::io::ErrorKind;
use std::test::Fail;

/// A misspelt variable in its third line, and a tree that forgets the next value in its second.
const RAIN: &[u8] =
    b"(variables (rain yes no))\naction a rain (0.45) endaction\nreward (rian (yes (1)) (no (0)))\ndiscount 0.5 tolerance 1\n";

/// A discount of 0.9 and a tolerance of 0.1.
const GOAL: Goal = Goal {
    discount: 900_000,
    tolerance: 100_000_000,
};

/// Words from their texts.
fn words_of(rt: &HostRuntime, texts: &[&str]) -> Result<Vec<Word>, Fail> {
    let mut words: Vec<Word> = Vec::new(rt.alloc());
    for text in texts {
        words.push(Items::from_slice(rt.alloc(), text.as_bytes())?)?;
    }
    Ok(words)
}

#[test]
fn a_refused_file(rt: HostRuntime) -> Result<(), Fail> {
    let mut screen = Screen::new(rt.alloc());
    tell_refusal(
        rt.alloc(),
        &mut screen,
        b"a\tb\x1b",
        RAIN,
        Refusal::Unknown { at: 65 },
    )?;
    let wanted: &[u8] =
        b"  a b\\x1b, line 3, column 9\n    reward (rian (yes (1)) (no (0)))\n            ^\n  `rian` is no variable. The variables are `rain`. Is `rain` meant?\n";
    assert_eq!(rt; screen.as_slice(), wanted);
    assert_eq!(rt; line_at(b"a\nbc\nd", 3).number, 2);
    Ok(())
}

#[test]
fn a_wrong_sum(rt: HostRuntime) -> Result<(), Fail> {
    let mut screen = Screen::new(rt.alloc());
    tell_sum(
        rt.alloc(),
        &mut screen,
        b"m",
        RAIN,
        b"a",
        b"rain",
        900_000_000_000,
    )?;
    let wanted: &[u8] =
        b"  m, line 2, column 10\n    action a rain (0.45) endaction\n             ^\n  This tree doesn't test `rain'`, so that a number of it counts for each of the 2 values of `rain`.\n  These probabilities sum to exactly 1: 0.1 is missing.\n";
    assert_eq!(rt; screen.as_slice(), wanted);
    Ok(())
}

#[test]
fn wrong_words(rt: HostRuntime) -> Result<(), Fail> {
    let mut screen = Screen::new(rt.alloc());
    tell_usage(&mut screen, &words_of(&rt, &["sovle"])?, 0)?;
    tell_system(&mut screen, ErrorKind::NotFound)?;
    let wanted: &[u8] =
        b"  `sovle` is no command. Is `solve` meant?\n  To see what can stand, try 'spudd --help'.\n  There is no such file or folder.\n";
    assert_eq!(rt; screen.as_slice(), wanted);
    Ok(())
}

#[test]
fn wrong_words_of_a_check(rt: HostRuntime) -> Result<(), Fail> {
    let cases: [(&[&str], usize, &[u8]); 4] = [
        (
            &["check", "m"],
            2,
            b"  A CERT is missing: the name of a certificate, or `-` for standard input.\n",
        ),
        (
            &["check"],
            1,
            b"  A FILE is missing: the name of a model file, or `-` for standard input.\n",
        ),
        (
            &["upgrade", "--nodes", "50", "m", "m"],
            4,
            b"  `m` stands twice: the model file and the certificate are two files.\n",
        ),
        (
            &["check", "m", "c", "--turns", "5"],
            3,
            b"  `--turns` is no option of `check`.\n",
        ),
    ];
    for (texts, number, wanted) in cases {
        let mut screen = Screen::new(rt.alloc());
        tell_usage(&mut screen, &words_of(&rt, texts)?, number)?;
        let told = screen
            .as_slice()
            .strip_suffix(b"  To see what can stand, try 'spudd --help'.\n");
        assert_eq!(rt; told, Some(wanted));
    }
    Ok(())
}

#[test]
fn limits(rt: HostRuntime) -> Result<(), Fail> {
    // 5.797413507 * 0.9^66 is 0.0055, and 5.797413507 * 0.9^67 is 0.00498.
    assert_eq!(rt;
        turns_left(5_797_413_507, GOAL.residual(), 900_000),
        Some(67)
    );
    let mut screen = Screen::new(rt.alloc());
    tell_turn_limit(&mut screen, GOAL, 3, 5_797_413_507)?;
    tell_node_limit(&mut screen, Some(GOAL), true, 262_144)?;
    tell_progress(&mut screen, GOAL, 3, 5_797_413_507, 12)?;
    let wanted: &[u8] =
        b"  The stop rule asks for a residual of at most 0.005.\n  It is expected to be met with --turns 70 or a few more; a greater tolerance is met sooner.\n  A greater limit may be enough: try --nodes 1048576.\n  A span joins values that lie close to each other, which makes diagrams smaller: try --span 0.005.\nturn 3, residual 5.797413507, 12 nodes, done at about turn 70";
    assert_eq!(rt; screen.as_slice(), wanted);
    Ok(())
}

#[test]
fn shows_at_a_terminal_alone(rt: HostRuntime) -> Result<(), Fail> {
    let mut screen = Screen::new(rt.alloc());
    screen.line(&[b"one"])?;
    let mut output = MemOut::new(rt.alloc(), 64, 64, Vec::new(rt.alloc()))?;
    assert!(rt; show(false, &screen, &mut output).is_ok());
    assert_eq!(rt; output.taken(), b"".as_slice());
    assert!(rt; show(true, &screen, &mut output).is_ok());
    assert_eq!(rt; output.taken(), b"one\n".as_slice());
    Ok(())
}
