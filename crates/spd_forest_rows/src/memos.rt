//! Which pair a memo drops, on one row.
use spd_cons_core::Entry;
use spd_memo::Memo;
use std::test::Fail;

#[test]
fn the_pair_used_least_recently_is_dropped(rt: HostRuntime) -> Result<(), Fail> {
    let mut memo = Memo::new(rt.alloc(), 2)?;
    for (f, g, r) in [(0, 1, 2), (1, 0, 3), (0, 1, 4)] {
        memo.put(Entry(f), Entry(g), Entry(r))?;
    }
    assert_eq!(rt; memo.get(Entry(1), Entry(0)), Some(Entry(3)));
    memo.put(Entry(5), Entry(5), Entry(6))?;
    for (f, g, answer) in [
        (0, 1, None),
        (1, 0, Some(Entry(3))),
        (5, 5, Some(Entry(6))),
        (0, 0, None),
    ] {
        assert_eq!(rt; memo.get(Entry(f), Entry(g)), answer, "{f} and {g}");
    }
    Ok(())
}
