//! Results of solving as certificates: each one holds, and not with a residual that is one unit smaller.
use crate::models::{
    COFFEE_ROBOT, DIE, FOLLOWS, KEEP, KEEP_OR_HOLD, LEAVE_OR_STAY, MIXED, ONLY_LOSES,
};
use crate::reading::{Want, cert_of, judged, model_of};
use spd_edge::{MemIn, MemOut, MemPlace};
use spd_model::Word;
use spd_solver::solve_run;
use spd_tasks::Open;
use sqlite_items::Items;
use std::alloc::{AllocError, Global};
use std::test::Fail;
use std::thread::Threads;

/// Words from their texts.
fn words(alloc: Global, texts: &[&str]) -> Result<Vec<Word>, AllocError> {
    let mut words = Vec::new(alloc);
    for text in texts {
        words.push(Items::from_slice(alloc, text.as_bytes())?)?;
    }
    Ok(words)
}

/// The text of the result of solving a file.
fn result_of<R: AllocGlobal + Threads + Sync>(rt: &R, file: &str) -> Result<Vec<u8>, AllocError> {
    let words = words(rt.alloc(), &["solve", "m"])?;
    let mut place = MemPlace::new(rt.alloc());
    let file = file.as_bytes().to_vec(rt.alloc())?;
    place.put_in(b"m", MemIn::new(file, 4096, Vec::new(rt.alloc())))?;
    let mut out = MemOut::new(rt.alloc(), 100_000, 4096, Vec::new(rt.alloc()))?;
    solve_run(rt, &Open, rt.alloc(), &words, &mut place, &mut out);
    out.taken().to_vec(rt.alloc())
}

/// Fails where the text of a result isn't a certificate that holds, or where it holds with a smaller residual too.
fn holds_just(alloc: Global, file: &str, text: &[u8]) -> Result<(), Fail> {
    let model = model_of(alloc, file.as_bytes())?;
    let mut cert = cert_of(alloc, &model, text)?;
    judged(alloc, &model, &cert, Want::Yes)?;
    if cert.residual > 0 {
        cert.residual -= 1;
        let want = Want::No(cert.place.values(), cert.side, cert.action);
        judged(alloc, &model, &cert, want)?;
    }
    Ok(())
}

#[test]
fn results_hold_just(rt: HostRuntime) -> Result<(), Fail> {
    for file in [
        KEEP,
        KEEP_OR_HOLD,
        DIE,
        COFFEE_ROBOT,
        ONLY_LOSES,
        MIXED,
        FOLLOWS,
        LEAVE_OR_STAY,
    ] {
        let text = result_of(&rt, file)?;
        holds_just(rt.alloc(), file, &text)?;
    }
    Ok(())
}
