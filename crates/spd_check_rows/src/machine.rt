//! The certificate that docs/FORMAT.md makes by hand, with the changes of it that are told there.
use crate::models::MACHINE;
use crate::reading::Want::{self, No, Yes};
use crate::reading::{cert_of, judged, model_of};
use spd_model::Side::{Above, Below};
use std::alloc::Global;
use std::test::Fail;

/// A certificate of the machine: its residual, its value while it is up and while it is down, its policy while it is down, and the verdict.
struct Claim {
    residual: &'static str,
    value: [&'static str; 2],
    when_down: &'static str,
    want: Want<'static>,
}

/// Where the value is w at `up` and v at `down`, waiting returns 10 + 0.9 * (0.9 * w + 0.1 * v) at `up` and 0.9 * v at `down`, and repairing
/// 8 + 0.9 * (0.95 * w + 0.05 * v) and ten less: of 90 and 78 these are 89.92, 70.2, 88.46 and 78.46. The policy waits while it is up.
const CLAIMS: &[Claim] = &[
    Claim {
        residual: "0.46",
        value: ["90", "78"],
        when_down: "repair",
        want: Yes,
    },
    Claim {
        residual: "0.459999999",
        value: ["90", "78"],
        when_down: "repair",
        want: No(&[1], Above, 1),
    },
    Claim {
        residual: "0.07",
        value: ["90", "78"],
        when_down: "repair",
        want: No(&[0], Below, 0),
    },
    Claim {
        residual: "0.46",
        value: ["90", "78"],
        when_down: "wait",
        want: No(&[1], Below, 0),
    },
    // Waiting returns 88.3 at `up`, repairing 76.75 at `down`.
    Claim {
        residual: "0.46",
        value: ["88", "78"],
        when_down: "repair",
        want: No(&[1], Below, 1),
    },
    // Waiting returns 81.82 at `up`.
    Claim {
        residual: "0.46",
        value: ["80", "78"],
        when_down: "repair",
        want: No(&[0], Above, 0),
    },
];

/// The text of a certificate of the machine.
fn text_of(alloc: Global, claim: &Claim) -> Result<String, Fail> {
    let Claim {
        residual,
        value: [up, down],
        when_down,
        ..
    } = claim;
    let head = format!(in alloc;
        "spd result 1\nstatus limit\nturn 0\nresidual {residual}\nat machine=down above repair\nerror 4.6\n"
    )?;
    let value = format!(in alloc; "value 3\n0 leaf {up}\n1 leaf {down}\n2 branch machine 0 1\n")?;
    let policy = format!(in alloc;
        "policy 3\n0 leaf wait\n1 leaf {when_down}\n2 branch machine 0 1\nend\n"
    )?;
    Ok(format!(in alloc; "{head}{value}{policy}")?)
}

#[test]
fn machine_by_hand(rt: HostRuntime) -> Result<(), Fail> {
    let model = model_of(rt.alloc(), MACHINE.as_bytes())?;
    for claim in CLAIMS {
        let text = text_of(rt.alloc(), claim)?;
        let cert = cert_of(rt.alloc(), &model, text.as_bytes())?;
        judged(rt.alloc(), &model, &cert, claim.want)?;
    }
    Ok(())
}
