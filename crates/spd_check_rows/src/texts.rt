//! Texts that name their model's file, another one, or none.
use crate::faults::KEPT;
use crate::models::{KEEP, KEEP_OR_HOLD};
use crate::reading::model_of;
use spd_cert::CertRefusal;
use spd_check::{Unjudged, Verdict, judge_text};
use std::alloc::Global;
use std::test::Fail;

/// With these two lines in place of its first one the result of solving `KEEP` names its file.
const TITLE: &str =
    "spd result 2\nmodel a1e107272379ab8c6bebf4bd78c0c87b8cbb9f360f3561340e076f810c9ad9a3\n";

/// Their digest.
const DIGEST: [u8; 32] = [
    0xa1, 0xe1, 0x07, 0x27, 0x23, 0x79, 0xab, 0x8c, 0x6b, 0xeb, 0xf4, 0xbd, 0x78, 0xc0, 0xc8, 0x7b,
    0x8c, 0xbb, 0x9f, 0x36, 0x0f, 0x35, 0x61, 0x34, 0x0e, 0x07, 0x6f, 0x81, 0x0c, 0x9a, 0xd9, 0xa3,
];

/// What a text comes to for a model file with this digest.
#[derive(Clone, Copy, PartialEq, Eq, Debug)]
enum Answer {
    Yes,
    OtherModel([u8; 32]),
    Refused(CertRefusal),
    Other,
}

fn comes_to(alloc: Global, file: &str, digest: &[u8; 32], text: &[u8]) -> Result<Answer, Fail> {
    let model = model_of(alloc, file.as_bytes())?;
    Ok(match judge_text(alloc, &model, digest, text, 1000, 100) {
        Ok(judgement) if matches!(judgement.verdict, Verdict::Yes) => Answer::Yes,
        Err(Unjudged::OtherModel { found }) => Answer::OtherModel(found),
        Err(Unjudged::Refused { refusal }) => Answer::Refused(refusal),
        _ => Answer::Other,
    })
}

#[test]
fn named_files(rt: HostRuntime) -> Result<(), Fail> {
    let alloc = rt.alloc();
    let old = KEPT.as_bytes();
    let mut new = TITLE.as_bytes().to_vec(alloc)?;
    new.extend_from_slice(
        old.strip_prefix(b"spd result 1\n")
            .ok_or("another version")?,
    )?;
    let other = [7; 32];
    assert!(rt; new.len() > 84);
    assert_eq!(rt; comes_to(alloc, KEEP, &DIGEST, &new)?, Answer::Yes);
    assert_eq!(rt;
        comes_to(alloc, KEEP_OR_HOLD, &other, &new)?,
        Answer::OtherModel(DIGEST)
    );
    assert_eq!(rt; comes_to(alloc, KEEP_OR_HOLD, &other, old)?, Answer::Yes);
    let cut = comes_to(alloc, KEEP, &DIGEST, &new[..84])?;
    assert_eq!(rt; cut, Answer::Refused(CertRefusal::End { at: 84 }));
    assert_eq!(rt;
        comes_to(alloc, KEEP, &other, &new[..84])?,
        Answer::OtherModel(DIGEST)
    );
    Ok(())
}
