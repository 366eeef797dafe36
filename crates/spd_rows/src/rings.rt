//! The commands on a ring: the file that `gen` writes, and the summary that `ring` writes. The values are calculated by hand.
use crate::command::{Outside, run};
use crate::refused::assert_ended;
use std::test::Fail;

/// The start values are 2, 1, 1 and 0, the bounds of the next values 3.71, 1.77, 1.77 and 0.295.
const SUMMARY: &[u8] = b"\
spd ring 2
status limit
turn 0
residual 1.710000000
at m1=up m2=up above noop
error 34.200000000
value 6
policy 5
end
";

/// How the result of the ring's file begins. The digest is that of the file of two machines as the rule writes it.
const RESULT: &[u8] = b"\
spd result 2
model 1af9bbaa61646fcd4ea5a138c77e36af0f447c63d67420ae86875e87f1a6d67d
status limit
turn 0
residual 1.710000000
at m1=up m2=up above noop
error 34.200000000
value 6
";

#[test]
fn summary_of_two(rt: HostRuntime) -> Result<(), Fail> {
    let answer = run(
        &rt,
        &["ring", "2", "--turns", "0"],
        Outside::calm(b"", 4096),
    )?;
    assert_ended(
        &rt,
        "ring",
        &answer,
        8,
        "turn limit reached, residual 1.710000000",
    );
    assert_eq!(rt; answer.output.as_slice(), SUMMARY);
    Ok(())
}

#[test]
fn file_of_two(rt: HostRuntime) -> Result<(), Fail> {
    let file = run(&rt, &["gen", "2"], Outside::calm(b"", 4096))?;
    assert_eq!(rt; file.number, 0);
    assert_eq!(rt; file.message.as_slice(), b"".as_slice());
    let answer = run(
        &rt,
        &["solve", "m", "--turns", "0"],
        Outside::calm(&file.output, 4096),
    )?;
    assert_ended(
        &rt,
        "solve",
        &answer,
        8,
        "turn limit reached, residual 1.710000000",
    );
    assert!(rt; answer.output.starts_with(RESULT));
    Ok(())
}
