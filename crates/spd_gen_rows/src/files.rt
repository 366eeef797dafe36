//! The file of a ring, written into sinks in memory. The bytes come from a script of its own, which follows the rule alone.

use sha2::{Digest, Sha256};
use spd_edge::MemOut;
use spd_gen::put_ring;
use spd_reader::read_model;
use std::alloc::Global;
use std::process::Abort;
use std::test::Fail;

const TWO: &[u8] = b"\
(variables (m1 up down) (m2 up down))\n\
action noop\n\
m1 (m1 (up (m2 (up (m1' (up (0.9)) (down (0.1)))) (down (m1' (up (0.6)) (down (0.4)))))) (down (m1' (up (0.1)) (down (0.9)))))\n\
m2 (m2 (up (m1 (up (m2' (up (0.9)) (down (0.1)))) (down (m2' (up (0.6)) (down (0.4)))))) (down (m2' (up (0.1)) (down (0.9)))))\n\
endaction\n\
action reboot1\n\
m1 (m1' (up (1)) (down (0)))\n\
m2 (m2 (up (m1 (up (m2' (up (0.9)) (down (0.1)))) (down (m2' (up (0.6)) (down (0.4)))))) (down (m2' (up (0.1)) (down (0.9)))))\n\
cost (0.75)\n\
endaction\n\
action reboot2\n\
m1 (m1 (up (m2 (up (m1' (up (0.9)) (down (0.1)))) (down (m1' (up (0.6)) (down (0.4)))))) (down (m1' (up (0.1)) (down (0.9)))))\n\
m2 (m2' (up (1)) (down (0)))\n\
cost (0.75)\n\
endaction\n\
reward [+ (m1 (up (1)) (down (0))) (m2 (up (1)) (down (0)))]\n\
discount 0.95\n\
tolerance 0.1\n\
";

const THREE: &[u8] = b"\
(variables (m1 up down) (m2 up down) (m3 up down))\n\
action noop\n\
m1 (m1 (up (m3 (up (m1' (up (0.9)) (down (0.1)))) (down (m1' (up (0.6)) (down (0.4)))))) (down (m1' (up (0.1)) (down (0.9)))))\n\
m2 (m2 (up (m1 (up (m2' (up (0.9)) (down (0.1)))) (down (m2' (up (0.6)) (down (0.4)))))) (down (m2' (up (0.1)) (down (0.9)))))\n\
m3 (m3 (up (m2 (up (m3' (up (0.9)) (down (0.1)))) (down (m3' (up (0.6)) (down (0.4)))))) (down (m3' (up (0.1)) (down (0.9)))))\n\
endaction\n\
action reboot1\n\
m1 (m1' (up (1)) (down (0)))\n\
m2 (m2 (up (m1 (up (m2' (up (0.9)) (down (0.1)))) (down (m2' (up (0.6)) (down (0.4)))))) (down (m2' (up (0.1)) (down (0.9)))))\n\
m3 (m3 (up (m2 (up (m3' (up (0.9)) (down (0.1)))) (down (m3' (up (0.6)) (down (0.4)))))) (down (m3' (up (0.1)) (down (0.9)))))\n\
cost (0.75)\n\
endaction\n\
action reboot2\n\
m1 (m1 (up (m3 (up (m1' (up (0.9)) (down (0.1)))) (down (m1' (up (0.6)) (down (0.4)))))) (down (m1' (up (0.1)) (down (0.9)))))\n\
m2 (m2' (up (1)) (down (0)))\n\
m3 (m3 (up (m2 (up (m3' (up (0.9)) (down (0.1)))) (down (m3' (up (0.6)) (down (0.4)))))) (down (m3' (up (0.1)) (down (0.9)))))\n\
cost (0.75)\n\
endaction\n\
action reboot3\n\
m1 (m1 (up (m3 (up (m1' (up (0.9)) (down (0.1)))) (down (m1' (up (0.6)) (down (0.4)))))) (down (m1' (up (0.1)) (down (0.9)))))\n\
m2 (m2 (up (m1 (up (m2' (up (0.9)) (down (0.1)))) (down (m2' (up (0.6)) (down (0.4)))))) (down (m2' (up (0.1)) (down (0.9)))))\n\
m3 (m3' (up (1)) (down (0)))\n\
cost (0.75)\n\
endaction\n\
reward [+ (m1 (up (1)) (down (0))) (m2 (up (1)) (down (0))) (m3 (up (1)) (down (0)))]\n\
discount 0.95\n\
tolerance 0.1\n\
";

/// Asserts that the file of a ring of `n` machines has so many bytes, and answers the sink that took them.
fn written(rt: &impl Abort, alloc: Global, n: u32, length: usize) -> Result<MemOut, Fail> {
    let mut out = MemOut::new(alloc, length, 100, Vec::new(alloc))?;
    assert!(rt; put_ring(n, &mut out).is_ok());
    assert_eq!(rt; out.taken().len(), length);
    assert_eq!(rt; out.faults(), 0);
    Ok(out)
}

#[test]
fn small_rings(rt: HostRuntime) -> Result<(), Fail> {
    let two = written(&rt, rt.alloc(), 2, TWO.len())?;
    assert_eq!(rt; two.taken(), TWO);
    let three = written(&rt, rt.alloc(), 3, THREE.len())?;
    assert_eq!(rt; three.taken(), THREE);
    Ok(())
}

#[test]
fn ring_of_eight(rt: HostRuntime) -> Result<(), Fail> {
    let eight = written(&rt, rt.alloc(), 8, 9033)?;
    let digest = hex::encode(rt.alloc(), Sha256::digest(eight.taken()))?;
    let own = "b0a626a09136911820e6ffd3b5c0434866edaeea8a60f4f97c983b49581b3546";
    assert_eq!(rt; digest.as_str(), own);
    Ok(())
}

/// The reader takes the file, and finds in it what a ring has.
#[test]
fn rings_are_read(rt: HostRuntime) -> Result<(), Fail> {
    let cases: [(u32, usize); 3] = [(2, TWO.len()), (3, THREE.len()), (8, 9033)];
    for (n, length) in cases {
        let out = written(&rt, rt.alloc(), n, length)?;
        assert!(rt; out.taken().len() <= 4_194_304);
        match read_model(rt.alloc(), out.taken()) {
            Ok(model) => {
                assert_eq!(rt; model.vars.len(), n as usize);
                assert_eq!(rt; model.actions.len(), n as usize + 1);
                assert_eq!(rt; model.reward.len(), n as usize);
                assert_eq!(rt; model.discount, 950_000);
                assert_eq!(rt; model.tolerance, 100_000_000);
            }
            Err(_) => assert!(rt; false, "a ring of {n} is refused"),
        }
    }
    Ok(())
}

/// A sink that is full takes all that it has room for.
#[test]
fn full_sinks(rt: HostRuntime) -> Result<(), Fail> {
    for room in 0..TWO.len() {
        let mut out = MemOut::new(rt.alloc(), room, 7, Vec::new(rt.alloc()))?;
        assert!(rt; put_ring(2, &mut out).is_err());
        assert_eq!(rt; out.faults(), 1);
        assert_eq!(rt; out.taken(), &TWO[..room]);
    }
    Ok(())
}

/// A write that fails ends the file after a front of it, and each later one after a longer front, until no write fails.
#[test]
fn failing_writes(rt: HostRuntime) -> Result<(), Fail> {
    let mut taken = 0;
    for call in 0..1000 {
        let mut fail = Vec::new(rt.alloc());
        fail.push(call)?;
        let mut out = MemOut::new(rt.alloc(), TWO.len(), 50, fail)?;
        if put_ring(2, &mut out).is_ok() {
            assert_eq!(rt; out.taken(), TWO);
            return Ok(());
        }
        assert_eq!(rt; out.faults(), 1);
        let front = out.taken();
        assert!(rt; front.len() <= TWO.len());
        assert!(rt; front.len() > taken || call == 0);
        assert_eq!(rt; front, &TWO[..front.len()]);
        taken = front.len();
    }
    assert!(rt; false, "no call is the last one");
    Ok(())
}
