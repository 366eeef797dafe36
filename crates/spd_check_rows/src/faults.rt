//! Why there is no verdict.
use crate::models::{KEEP, KEEP_RICH, LOADED_DIE};
use crate::reading::{cert_of, model_of};
use spd_check::{CheckFault, Verdict, check};
use std::alloc::Global;
use std::test::Fail;

/// The result of solving `KEEP`.
pub const KEPT: &str = "spd result 1
status done
turn 5
residual 0.015625000
at x=yes above stay
error 0.031250000
value 3
0 leaf 1.968750000
1 leaf 0.000000000
2 branch x 0 1
policy 1
0 leaf stay
end
";

/// A certificate of the die.
const THROWN: &str = "spd result 1
status done
turn 0
residual 1
at die=one above mix
error 2
value 1
0 leaf 0
policy 1
0 leaf mix
end
";

/// The fault of checking a certificate of a file, if there is one.
fn fault_of(
    alloc: Global,
    file: &str,
    text: &str,
    node_limit: u32,
) -> Result<Option<CheckFault>, Fail> {
    let model = model_of(alloc, file.as_bytes())?;
    let cert = cert_of(alloc, &model, text.as_bytes())?;
    match check(alloc, &model, &cert, node_limit, 100) {
        Ok(Verdict::Yes) => Ok(None),
        Ok(no) => Err(Fail::new(format_args!("{no:?}"))),
        Err(fault) => Ok(Some(fault)),
    }
}

#[test]
fn a_sum_that_is_not_one(rt: HostRuntime) -> Result<(), Fail> {
    match fault_of(rt.alloc(), LOADED_DIE, THROWN, 1000)? {
        Some(
            CheckFault::Sum {
                action,
                var,
                state,
                sum,
            },
        ) => {
            assert_eq!(rt; (action, var), (0, 0));
            assert_eq!(rt; state.values(), [0].as_slice());
            assert_eq!(rt; sum, 999_900_000_000);
            Ok(())
        }
        other => Err(Fail::new(format_args!("{other:?}"))),
    }
}

#[test]
fn a_reward_past_the_limit(rt: HostRuntime) -> Result<(), Fail> {
    match fault_of(rt.alloc(), KEEP_RICH, KEPT, 1000)? {
        Some(
            CheckFault::Range {
                action,
                state,
                value,
            },
        ) => {
            assert_eq!(rt; action, 0);
            assert_eq!(rt; state.values(), [0].as_slice());
            assert_eq!(rt; value, 1_000_000_000_000_000_001);
            Ok(())
        }
        other => Err(Fail::new(format_args!("{other:?}"))),
    }
}

/// By node limit, whether building or the check passes it. Building has 9 nodes. The check has 23: weights (4), rewards (2), the value (2)
/// and the policy (1), the value at the next state (1), its products with weights (2), what is discounted (2), the bound (2), the policy
/// beside its bound (3), and the gap on either side (4). Two of them aren't made: no product where weights are 0 or 1.
#[test]
fn node_limits(rt: HostRuntime) -> Result<(), Fail> {
    for (node_limit, want) in [
        (0, Some(true)),
        (8, Some(true)),
        (9, Some(false)),
        (20, Some(false)),
        (23, None),
    ] {
        match (fault_of(rt.alloc(), KEEP, KEPT, node_limit)?, want) {
            (Some(CheckFault::NodeLimit { building, limit }), Some(wanted)) => {
                assert_eq!(rt; (building, limit), (wanted, node_limit));
            }
            (None, None) => {}
            (other, _) => return Err(Fail::new(format_args!("{other:?}"))),
        }
    }
    Ok(())
}
