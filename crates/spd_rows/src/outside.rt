//! An outside where one call fails: the open, a read or a write.
use crate::command::{Answer, Outside, run, solve};
use crate::files::{COFFEE_ROBOT, KEEP};
use crate::refused::assert_ended;
use crate::texts::{COFFEE_ROBOT_RESULT, KEEP_RESULT};
use std::process::Abort;
use std::test::Fail;

/// The words of each of these commands.
const SOLVE: &[&str] = &["solve", "m"];

/// The most bytes that a model file may have.
const FILE_LIMIT: usize = 4_194_304;

/// The answer has this status and this message, and the output took exactly this many bytes of the front of the result.
fn assert_answer<R: Abort>(rt: &R, answer: &Answer, number: u8, message: &str, taken: usize) {
    assert_eq!(rt; answer.number, number);
    assert_eq!(rt; answer.message.as_slice(), message.as_bytes());
    assert_eq!(rt; answer.output.len(), taken);
    assert!(rt; KEEP_RESULT.as_bytes().starts_with(&answer.output));
}

#[test]
fn open_fails(rt: HostRuntime) -> Result<(), Fail> {
    for most in [1, 16] {
        let answer = run(
            &rt,
            &["solve", "other"],
            Outside::calm(KEEP.as_bytes(), most),
        )?;
        assert_answer(&rt, &answer, 3, "cannot open other\n", 0);
    }
    Ok(())
}

/// The file's 167 bytes are 167 reads of one byte or 11 of up to 16. One read more answers the end, and its fault is one too.
#[test]
fn read_fails(rt: HostRuntime) -> Result<(), Fail> {
    assert_eq!(rt; KEEP.len(), 167);
    for (most, call) in [
        (1, 0),
        (1, 1),
        (1, 166),
        (1, 167),
        (16, 0),
        (16, 1),
        (16, 10),
        (16, 11),
    ] {
        let outside = Outside {
            failing_reads: &[call],
            ..Outside::calm(KEEP.as_bytes(), most)
        };
        assert_answer(&rt, &run(&rt, SOLVE, outside)?, 3, "cannot read m\n", 0);
    }
    // No read comes after the end.
    for (most, call) in [(1, 168), (16, 12)] {
        let outside = Outside {
            failing_reads: &[call],
            ..Outside::calm(KEEP.as_bytes(), most)
        };
        assert_answer(&rt, &run(&rt, SOLVE, outside)?, 0, "", 248);
    }
    Ok(())
}

/// The result's 248 bytes are 248 writes of one byte or 16 of up to 16.
#[test]
fn write_fails(rt: HostRuntime) -> Result<(), Fail> {
    assert_eq!(rt; KEEP_RESULT.len(), 248);
    for (most, call, taken) in [
        (1, 0, 0),
        (1, 1, 1),
        (1, 247, 247),
        (16, 0, 0),
        (16, 1, 16),
        (16, 2, 32),
        (16, 15, 240),
    ] {
        let outside = Outside {
            failing_writes: &[call],
            ..Outside::calm(KEEP.as_bytes(), most)
        };
        assert_answer(&rt, &run(&rt, SOLVE, outside)?, 12, "cannot write\n", taken);
    }
    // No write comes after the last byte.
    for (most, call) in [(1, 248), (16, 16)] {
        let outside = Outside {
            failing_writes: &[call],
            ..Outside::calm(KEEP.as_bytes(), most)
        };
        assert_answer(&rt, &run(&rt, SOLVE, outside)?, 0, "", 248);
    }
    Ok(())
}

/// An output that takes 16 bytes a call, and whose third call fails.
#[test]
fn third_write_fails(rt: HostRuntime) -> Result<(), Fail> {
    let outside = Outside {
        failing_writes: &[2],
        ..Outside::calm(COFFEE_ROBOT.as_bytes(), 16)
    };
    let answer = run(&rt, SOLVE, outside)?;
    assert_eq!(rt; answer.number, 12);
    assert_eq!(rt; answer.output.len(), 32);
    assert!(rt; COFFEE_ROBOT_RESULT.as_bytes().starts_with(&answer.output));
    Ok(())
}

#[test]
fn output_is_full(rt: HostRuntime) -> Result<(), Fail> {
    for most in [1, 16, 4096] {
        for room in [0, 1, 100, 247] {
            let outside = Outside {
                room,
                ..Outside::calm(KEEP.as_bytes(), most)
            };
            assert_answer(&rt, &run(&rt, SOLVE, outside)?, 12, "cannot write\n", room);
        }
        let outside = Outside {
            room: 248,
            ..Outside::calm(KEEP.as_bytes(), most)
        };
        assert_answer(&rt, &run(&rt, SOLVE, outside)?, 0, "", 248);
    }
    Ok(())
}

/// The file with blanks at its end.
fn padded<R: AllocGlobal>(rt: &R, len: usize) -> Result<Vec<u8>, Fail> {
    let mut file = KEEP.as_bytes().to_vec(rt.alloc())?;
    file.resize(len, b' ')?;
    Ok(file)
}

#[test]
fn longest_file(rt: HostRuntime) -> Result<(), Fail> {
    let longest = padded(&rt, FILE_LIMIT)?;
    assert_ended(&rt, "the longest file", &solve(&rt, &longest)?, 0, "");
    let too_long = padded(&rt, FILE_LIMIT + 1)?;
    assert_answer(&rt, &solve(&rt, &too_long)?, 4, "m is too long\n", 0);
    Ok(())
}

/// A file of one byte too many: 1,024 reads of 4,096 bytes, and the read after them, which meets that byte.
#[test]
fn long_file_fails(rt: HostRuntime) -> Result<(), Fail> {
    let file = padded(&rt, FILE_LIMIT + 1)?;
    for (call, number, message) in [
        (1023, 3, "cannot read m\n"),
        (1024, 3, "cannot read m\n"),
        (1025, 4, "m is too long\n"),
    ] {
        let outside = Outside {
            failing_reads: &[call],
            ..Outside::calm(&file, 4096)
        };
        assert_answer(&rt, &run(&rt, SOLVE, outside)?, number, message, 0);
    }
    Ok(())
}

/// Run while the allocation of any one number fails: the command ends for want of memory with nothing written, or writes the whole result.
/// Where it is the test's own memory that isn't found, there is no answer.
#[test]
fn memory_is_refused(rt: HostRuntime) -> Result<(), Fail> {
    let Ok(answer) = run(&rt, SOLVE, Outside::calm(KEEP.as_bytes(), 16)) else {
        return Ok(());
    };
    match answer.number {
        14 => assert_answer(&rt, &answer, 14, "out of memory\n", 0),
        _ => assert_answer(&rt, &answer, 0, "", 248),
    }
    Ok(())
}
