//! The model that a file describes, and the faults of its names.
use spd_model::Tree;
use spd_reader::read_model;
use spd_syntax::{Refusal, Unread};
use std::test::Fail;

const FILE: &[u8] = b"(variables (x a b)) // one variable
dd d (x' (a (1)) (b (0))) enddd
action s x (d) cost [+ (0.25) (1)] endaction
reward (x (b (2)) (a (0)))
discount 0.5 horizon 3";

#[test]
fn a_lawful_file_is_read(rt: HostRuntime) -> Result<(), Fail> {
    let model = read_model(rt.alloc(), FILE).map_err(|_| "not read")?;
    let [x] = model.vars.as_slice() else {
        return Err("not one variable".into());
    };
    assert_eq!(rt; x.name.as_slice(), b"x".as_slice());
    assert_eq!(rt; x.values.as_slice().len(), 2);
    let [dd] = model.dds.as_slice() else {
        return Err("not one decision diagram".into());
    };
    assert!(rt;
        matches!(
            dd,
            Tree::Branch {
                var: 0,
                primed: true,
                ..
            }
        )
    );
    let [action] = model.actions.as_slice() else {
        return Err("not one action".into());
    };
    assert!(rt; matches!(action.tables.as_slice(), [Tree::Named(0)]));
    assert!(rt;
        matches!(
            action.cost.as_slice(),
            [Tree::Leaf(250_000_000_000), Tree::Leaf(1_000_000_000_000)]
        )
    );
    assert!(rt;
        matches!(
            model.reward.as_slice(),
            [Tree::Branch {
                var: 0,
                primed: false,
                ..
            }]
        )
    );
    assert_eq!(rt; model.discount, 500_000);
    assert_eq!(rt; model.tolerance, 0);
    assert_eq!(rt; model.horizon, Some(3));
    Ok(())
}

#[test]
fn faults_of_names_are_told(rt: HostRuntime) {
    let rows: [(&[u8], Refusal); 9] = [
        (
            b"(variables (x a b) (x a b)) action s x (0) endaction reward (0) discount 0 horizon 1",
            Refusal::Twice { at: 20 },
        ),
        (
            b"(variables (x a b)) action s x (0) endaction reward (d) discount 0 horizon 1 dd d (0) enddd",
            Refusal::Unknown { at: 53 },
        ),
        (
            b"(variables (x a b) (y a b)) action s x (0) y (0) endaction reward (x (a (0)) (c (0))) discount 0 horizon 1",
            Refusal::MissingBranch { at: 67 },
        ),
        (
            b"(variables (x a b) (y a b)) action s y (0) endaction reward (0) discount 0 horizon 1",
            Refusal::MissingVariable { at: 43, var: 0 },
        ),
        (
            b"(variables (x a b) (y a b)) action s x (y' (a (0)) (b (1))) y (x' (a (0)) (b (1))) endaction reward (0) discount 0 horizon 1",
            Refusal::Primed { at: 63 },
        ),
        (
            b"(variables (x a b) (y a b)) dd d (-1) enddd dd e (d) enddd action s x (e) y (0) endaction reward (0) discount 0 horizon 1",
            Refusal::Negative { at: 71 },
        ),
        (
            b"(variables (x a b) (y a b)) dd d (1e-12) enddd dd e (d) enddd action s x (0) y (0) endaction reward (e) discount 0 horizon 1",
            Refusal::TooFine { at: 101 },
        ),
        (
            b"(variables (x a b) (x a b)) init",
            Refusal::LeftOut { at: 28 },
        ),
        (
            b"(variables (x a b) (y a b)) action s z (0) observe",
            Refusal::LeftOut { at: 43 },
        ),
    ];
    for (bytes, want) in rows {
        let told = match read_model(rt.alloc(), bytes) {
            Err(Unread::Refused(refusal)) => Some(refusal),
            _ => None,
        };
        assert_eq!(rt; told, Some(want), "{bytes:?}");
    }
}
