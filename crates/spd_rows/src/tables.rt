//! Runs with any number of workers, any size of the memo tables, and little room for nodes.
use crate::command::{Outside, run};
use crate::files::{COFFEE_ROBOT, FOUR_KEPT};
use crate::texts::COFFEE_ROBOT_RESULT;
use std::test::Fail;

/// A model of four actions has one result, however many workers there are and however few answers a memo table keeps.
#[test]
fn workers_and_memos(rt: HostRuntime) -> Result<(), Fail> {
    for workers in ["1", "2", "4", "7", "64"] {
        for memo in ["1", "65536", "8388608"] {
            let words = ["solve", "m", "--workers", workers, "--memo", memo];
            let answer = run(&rt, &words, Outside::calm(COFFEE_ROBOT.as_bytes(), 4096))?;
            assert_eq!(rt; answer.number, 0, "{workers} workers, {memo} answers");
            assert_eq!(rt; answer.output.as_slice(), COFFEE_ROBOT_RESULT.as_bytes());
        }
    }
    Ok(())
}

/// Limits of nodes that are too small for four variables that keep their values, and where they are passed.
///
/// Building has 83 nodes. Each of the four tables has five tests, and all of them the leaves 0 and 1. The reward has 15 tests, and 15 leaves
/// beside that 1, in units of 10^-12; and again 15 tests and 16 leaves in units of 10^-9. 4 * 5 + 2 + 15 + 15 + 15 + 16 = 83.
///
/// Turn 0 has 176 nodes. The weights have 8 tests and 2 leaves; the reward, which is the value too, 15 and 16. The value at the next state has
/// 15 tests more. Summing out the first three variables makes 1, 3 and 7 tests, and the last one gives the value back. The discount makes 15
/// tests and halves of the 8 odd leaves. Adding the reward makes 15 tests, and of the 16 leaves the 8 that aren't there yet: 1.5 k for k = 7,
/// 9 and 11 to 16. The policy is one leaf. The pairs of both bounds have 15 tests and 16 leaves, and so has the value less the bound; the bound
/// less the value is there. 10 + 31 + 15 + 11 + 23 + 23 + 1 + 31 + 31 = 176. A table has room for one entry more for each of its seats, one and
/// one for each action, so that 174 are enough.
#[test]
fn little_room(rt: HostRuntime) -> Result<(), Fail> {
    for (nodes, stage) in [
        ("16", "building"),
        ("82", "building"),
        ("83", "turn 0"),
        ("128", "turn 0"),
        ("173", "turn 0"),
        ("174", "turn 1"),
    ] {
        let words = ["solve", "m", "--nodes", nodes];
        let answer = run(&rt, &words, Outside::calm(FOUR_KEPT.as_bytes(), 4096))?;
        let message = format!(in rt.alloc(); "node limit {nodes} passed in {stage}\n")?;
        assert_eq!(rt; answer.number, 9, "{nodes}");
        assert_eq!(rt; answer.message.as_slice(), message.as_bytes());
        assert!(rt; answer.output.is_empty());
    }
    Ok(())
}
