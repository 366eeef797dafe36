//! Certificates made by hand, with their verdicts by hand.
use crate::models::{FOLLOWS, LEAVE_OR_STAY};
use crate::reading::Want::{self, No, Yes};
use crate::reading::{cert_of, judged, model_of};
use spd_model::Side::{Above, Below};
use std::alloc::Global;
use std::test::Fail;

/// A certificate for a variable that stays or becomes `no`: its residual, its value at `yes` and `no`, its policy there, and the verdict.
struct Made {
    residual: &'static str,
    value: [&'static str; 2],
    policy: [&'static str; 2],
    want: Want<'static>,
}

/// Where the value is w at `yes` and v at `no`, staying returns 1 + w / 2 at `yes`, and leaving 1 + v / 2; both return v / 2 at `no`.
const MADE: &[Made] = &[
    Made {
        residual: "0",
        value: ["2", "0"],
        policy: ["stay", "leave"],
        want: Yes,
    },
    Made {
        residual: "1",
        value: ["2", "0"],
        policy: ["leave", "stay"],
        want: Yes,
    },
    Made {
        residual: "0.999999999",
        value: ["2", "0"],
        policy: ["leave", "stay"],
        want: No(&[0], Below, 0),
    },
    Made {
        residual: "0.5",
        value: ["1.5", "0"],
        policy: ["leave", "stay"],
        want: Yes,
    },
    Made {
        residual: "0.3",
        value: ["1.5", "0"],
        policy: ["leave", "stay"],
        want: No(&[0], Below, 0),
    },
    Made {
        residual: "0.2",
        value: ["1.5", "0"],
        policy: ["leave", "stay"],
        want: No(&[0], Above, 1),
    },
    Made {
        residual: "0.4",
        value: ["2", "1"],
        policy: ["stay", "leave"],
        want: No(&[1], Below, 0),
    },
    Made {
        residual: "0.4",
        value: ["2", "1"],
        policy: ["stay", "stay"],
        want: No(&[1], Below, 1),
    },
    Made {
        residual: "0.4",
        value: ["2", "-1"],
        policy: ["stay", "stay"],
        want: No(&[1], Above, 0),
    },
    Made {
        residual: "0.4",
        value: ["3", "1"],
        policy: ["stay", "stay"],
        want: No(&[0], Below, 1),
    },
    Made {
        residual: "0",
        value: ["2.000000001", "0"],
        policy: ["stay", "stay"],
        want: No(&[0], Below, 1),
    },
    Made {
        residual: "1e-9",
        value: ["2.000000001", "0"],
        policy: ["stay", "stay"],
        want: Yes,
    },
    Made {
        residual: "0",
        value: ["1.999999999", "0"],
        policy: ["stay", "stay"],
        want: No(&[0], Above, 1),
    },
    Made {
        residual: "1e-9",
        value: ["1.999999999", "0"],
        policy: ["stay", "stay"],
        want: Yes,
    },
];

/// The text of such a certificate.
fn text_of(alloc: Global, made: &Made) -> Result<String, Fail> {
    let Made {
        residual,
        value: [yes, no],
        policy: [first, second],
        ..
    } = made;
    let head = format!(in alloc;
        "spd result 1\nstatus limit\nturn 0\nresidual {residual}\nat x=yes above stay\nerror 0\n"
    )?;
    let value = format!(in alloc; "value 3\n0 leaf {yes}\n1 leaf {no}\n2 branch x 0 1\n")?;
    let policy = format!(in alloc;
        "policy 3\n0 leaf {first}\n1 leaf {second}\n2 branch x 0 1\nend\n"
    )?;
    Ok(format!(in alloc; "{head}{value}{policy}")?)
}

/// Fails where another verdict is given on such a certificate.
fn made_is_judged(alloc: Global, made: &Made) -> Result<(), Fail> {
    let model = model_of(alloc, LEAVE_OR_STAY.as_bytes())?;
    let text = text_of(alloc, made)?;
    let cert = cert_of(alloc, &model, text.as_bytes())?;
    judged(alloc, &model, &cert, made.want)
}

#[test]
fn made_by_hand(rt: HostRuntime) -> Result<(), Fail> {
    for made in MADE {
        made_is_judged(rt.alloc(), made)?;
    }
    Ok(())
}

/// Of two variables of which the first follows the second, which stays: the value at each state, in order, and the verdict with the residual
/// 0.4. Where the value is v at the state of both at y's value, a state's bounds are v / 2, and 1 more where x is `yes`.
const FOLLOWED: &[([&str; 4], Want)] = &[
    (["2", "1", "1", "0"], Yes),
    (["2", "1", "1", "-1"], No(&[0, 1], Below, 0)),
    (["2", "0.5", "1", "-1"], No(&[1, 1], Above, 0)),
    (["2", "1", "0", "1"], No(&[0, 1], Above, 0)),
    (["2", "1", "2", "0"], No(&[1, 0], Below, 0)),
];

/// The text of such a certificate.
fn text_of_four(alloc: Global, value: [&str; 4]) -> Result<String, Fail> {
    let [a, b, c, d] = value;
    let head =
        "spd result 1\nstatus limit\nturn 0\nresidual 0.4\nat x=yes y=yes above go\nerror 0\n";
    let leaves = format!(in alloc; "0 leaf {a}\n1 leaf {b}\n2 leaf {c}\n3 leaf {d}\n")?;
    let branches = "4 branch y 0 1\n5 branch y 2 3\n6 branch x 4 5\n";
    Ok(format!(in alloc; "{head}value 7\n{leaves}{branches}policy 1\n0 leaf go\nend\n")?)
}

#[test]
fn first_state_of_four(rt: HostRuntime) -> Result<(), Fail> {
    let model = model_of(rt.alloc(), FOLLOWS.as_bytes())?;
    for (value, want) in FOLLOWED {
        let text = text_of_four(rt.alloc(), *value)?;
        let cert = cert_of(rt.alloc(), &model, text.as_bytes())?;
        judged(rt.alloc(), &model, &cert, *want)?;
    }
    Ok(())
}
