//! Files that are refused, and unusual ones that aren't: each is a lawful file with one part changed.
use crate::changed_heads::{OF_ACTIONS, OF_FOLLOWS, OF_VARIABLES};
use crate::changed_values::{Edit, OF_ENDS, OF_REWARDS, OF_SETTINGS, OF_TREES};
use crate::command::{Answer, solve};
use crate::files::{ALL, FOLLOWS, KEEP};
use std::alloc::Global;
use std::process::Abort;
use std::test::Fail;
use std::thread::Threads;

/// The file with the second part in the place where the first stands for the first time.
pub fn edited(alloc: Global, file: &[u8], from: &[u8], to: &[u8]) -> Result<Vec<u8>, Fail> {
    for at in 0..file.len() {
        let (front, rest) = file.split_at(at);
        if let Some(back) = rest.strip_prefix(from) {
            let mut edited = front.to_vec(alloc)?;
            edited.extend_from_slice(to)?;
            edited.extend_from_slice(back)?;
            return Ok(edited);
        }
    }
    Err("no such part")?
}

/// The command ended with this status and this message, and wrote a whole result where it was done, else nothing.
pub fn assert_ended<R: Abort>(rt: &R, what: &str, answer: &Answer, number: u8, message: &str) {
    assert_eq!(rt; answer.number, number, "{what}");
    assert!(rt;
        answer.message.strip_suffix(b"\n").unwrap_or(b"") == message.as_bytes(),
        "{what}"
    );
    assert!(rt;
        answer.output.ends_with(b"\nend\n") == (number == 0 || number == 8),
        "{what}"
    );
}

/// Runs `solve` on a file with each of these changes.
fn assert_edits<R: AllocGlobal + Abort + Threads + Sync>(
    rt: &R,
    file: &str,
    edits: &[Edit],
) -> Result<(), Fail> {
    for (what, from, to, number, message) in edits {
        let changed = edited(rt.alloc(), file.as_bytes(), from.as_bytes(), to.as_bytes())?;
        assert_ended(rt, what, &solve(rt, &changed)?, *number, message);
    }
    Ok(())
}

#[test]
fn variables(rt: HostRuntime) -> Result<(), Fail> {
    assert_edits(&rt, KEEP, OF_VARIABLES)
}

#[test]
fn actions(rt: HostRuntime) -> Result<(), Fail> {
    assert_edits(&rt, KEEP, OF_ACTIONS)
}

#[test]
fn tables(rt: HostRuntime) -> Result<(), Fail> {
    assert_edits(&rt, KEEP, OF_TREES)
}

#[test]
fn ends(rt: HostRuntime) -> Result<(), Fail> {
    assert_edits(&rt, KEEP, OF_ENDS)
}

#[test]
fn rewards(rt: HostRuntime) -> Result<(), Fail> {
    assert_edits(&rt, KEEP, OF_REWARDS)
}

#[test]
fn settings(rt: HostRuntime) -> Result<(), Fail> {
    assert_edits(&rt, KEEP, OF_SETTINGS)
}

#[test]
fn two_variables(rt: HostRuntime) -> Result<(), Fail> {
    assert_edits(&rt, FOLLOWS, OF_FOLLOWS)
}

#[test]
fn nothing_but_blanks(rt: HostRuntime) -> Result<(), Fail> {
    let wanted = "refused at byte 0: expected variables";
    assert_ended(&rt, "an empty file", &solve(&rt, b"")?, 5, wanted);
    let wanted = "refused at byte 4: expected variables";
    assert_ended(&rt, "blanks alone", &solve(&rt, b" \n\t\r")?, 5, wanted);
    let wanted = "refused at byte 0: bad byte";
    assert_ended(&rt, "one byte", &solve(&rt, b"\x80")?, 5, wanted);
    Ok(())
}

/// The fronts of the file that are lawful: its last section, the horizon, or that section's last digit is cut off.
const LAWFUL: [usize; 4] = [954, 955, 964, 965];

/// Where the last word of a file begins, or its end where none stands there.
fn last_word(file: &[u8]) -> usize {
    let mut at = file.len();
    for (place, byte) in file.iter().enumerate().rev() {
        if matches!(*byte, b' ' | b'\n' | b'(' | b')' | b'[' | b']') {
            break;
        }
        at = place;
    }
    at
}

/// The place that a message tells.
fn place_in(message: &[u8]) -> Option<usize> {
    let rest = message.strip_prefix(b"refused at byte ")?;
    let mut place: usize = 0;
    for byte in rest {
        if !byte.is_ascii_digit() {
            break;
        }
        place = place.checked_mul(10)?.checked_add((*byte - b'0') as usize)?;
    }
    Some(place)
}

/// Each front of a file with each production is refused at its end, or at its last word.
#[test]
fn cut_files(rt: HostRuntime) -> Result<(), Fail> {
    let file = ALL.as_bytes();
    for len in 0..file.len() {
        let front = &file[..len];
        let answer = solve(&rt, front)?;
        if answer.number == 5 {
            let place = place_in(&answer.message).ok_or("no place")?;
            assert!(rt; place == len || place == last_word(front), "{len} bytes");
        } else {
            assert!(rt; LAWFUL.contains(&len), "{len} bytes");
        }
    }
    Ok(())
}
