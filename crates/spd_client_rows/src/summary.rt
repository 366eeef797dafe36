//! The summary of a turn.

use crate::models::{iterate, model};
use spd_edge::MemOut;
use spd_model::Why;
use spd_text::write_summary;
use std::test::Fail;

const SUMMARY: &[u8] = b"\
spd ring 7\n\
status limit\n\
turn 5\n\
residual 0.015625000\n\
at x=yes above stay\n\
error 0.031250000\n\
value 3\n\
policy 1\n\
end\n";

#[test]
fn a_summary_counts_nodes(rt: HostRuntime) -> Result<(), Fail> {
    let alloc = rt.alloc();
    let model = model(alloc)?;
    let turn = iterate(alloc, &model)?;
    let mut out = MemOut::new(alloc, 200, 200, Vec::new(alloc))?;
    assert!(rt; write_summary(&mut out, &model, 7, &turn, Why::Limit).is_ok());
    assert_eq!(rt; out.taken(), SUMMARY);
    Ok(())
}
