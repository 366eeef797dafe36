//! The syntax of a file, part by part, and its first faults.
use spd_syntax::{
    Item, Quantity, Refusal, Section, Shape, Unread, Want, Word, read_syntax, text_of,
};
use std::test::Fail;

const FILE: &[u8] = b"(variables (x yes no))
dd keep (x (yes (x' (yes (1)) (no (0)))) (no (0.5))) enddd
action stay x (keep) cost [+ (0.25) (-1)] endaction
reward (1e-9) // a little
discount 0.5 horizon 3";

/// Whether a word of the file says this.
fn says(word: Word, text: &str) -> bool {
    text_of(FILE, word) == text.as_bytes()
}

#[test]
fn variables_are_read(rt: HostRuntime) -> Result<(), Fail> {
    let file = read_syntax(rt.alloc(), FILE).map_err(|_| "not read")?;
    let [x] = file.variables.as_slice() else {
        return Err("not one variable".into());
    };
    assert!(rt; says(x.name, "x"));
    let [yes, no] = x.values.as_slice() else {
        return Err("not two values".into());
    };
    assert!(rt; says(*yes, "yes") && says(*no, "no"));
    Ok(())
}

#[test]
fn sections_are_read(rt: HostRuntime) -> Result<(), Fail> {
    let file = read_syntax(rt.alloc(), FILE).map_err(|_| "not read")?;
    let [dd, action, reward, discount, horizon] = file.sections.as_slice() else {
        return Err("not five sections".into());
    };
    assert!(rt;
        matches!(dd, Section::Dd { name, tree: Shape::Choice { primed: false, .. } } if says(*name, "keep"))
    );
    assert!(rt;
        matches!(action, Section::Action { name, end, .. } if says(*name, "stay") && says(*end, "endaction"))
    );
    assert!(rt; matches!(reward, Section::Reward { word, .. } if says(*word, "reward")));
    assert!(rt;
        matches!(
            discount,
            Section::Setting {
                quantity: Quantity::Discount,
                units: 500_000,
                ..
            }
        )
    );
    assert!(rt;
        matches!(
            horizon,
            Section::Setting {
                quantity: Quantity::Horizon,
                units: 3,
                ..
            }
        )
    );
    Ok(())
}

#[test]
fn branches_are_read(rt: HostRuntime) -> Result<(), Fail> {
    let file = read_syntax(rt.alloc(), FILE).map_err(|_| "not read")?;
    let [
        Section::Dd {
            tree: Shape::Choice { branches, .. },
            ..
        },
        ..
    ] = file.sections.as_slice()
    else {
        return Err("no choice".into());
    };
    let [yes, no] = branches.as_slice() else {
        return Err("not two branches".into());
    };
    assert!(rt; matches!(&yes.tree, Shape::Choice { name, primed: true, .. } if says(*name, "x")));
    assert!(rt;
        matches!(
            &no.tree,
            Shape::Number {
                units: 500_000_000_000,
                ..
            }
        )
    );
    Ok(())
}

#[test]
fn items_are_read(rt: HostRuntime) -> Result<(), Fail> {
    let file = read_syntax(rt.alloc(), FILE).map_err(|_| "not read")?;
    let [_, Section::Action { items, .. }, ..] = file.sections.as_slice() else {
        return Err("no action".into());
    };
    let [table, cost] = items.as_slice() else {
        return Err("not two items".into());
    };
    assert!(rt;
        matches!(table, Item::Table { tree: Shape::Use { name }, .. } if says(*name, "keep"))
    );
    let Item::Cost { parts, .. } = cost else {
        return Err("no cost".into());
    };
    let [quarter, one] = parts.as_slice() else {
        return Err("not two parts".into());
    };
    assert!(rt;
        matches!(
            quarter,
            Shape::Number {
                units: 250_000_000_000,
                ..
            }
        )
    );
    assert!(rt;
        matches!(
            one,
            Shape::Number {
                units: -1_000_000_000_000,
                ..
            }
        )
    );
    Ok(())
}

#[test]
fn first_faults_are_told(rt: HostRuntime) {
    let rows: [(&[u8], Refusal); 6] = [
        (
            b"",
            Refusal::Expected {
                at: 0,
                want: Want::Variables,
            },
        ),
        (b"action \x07", Refusal::BadByte { at: 7 }),
        (
            b"(variables (x yes no)) horizon 1001",
            Refusal::TooLarge { at: 31 },
        ),
        (
            b"(variables (x yes no)) discount 0.0000001 horizon 1001",
            Refusal::TooFine { at: 32 },
        ),
        (
            b"(variables (x yes no)) ( // init\nobservations",
            Refusal::LeftOut { at: 33 },
        ),
        (
            b"(variables (x yes no)) action a endaction reward (0) discount 0",
            Refusal::Expected {
                at: 63,
                want: Want::Section,
            },
        ),
    ];
    for (bytes, want) in rows {
        let told = match read_syntax(rt.alloc(), bytes) {
            Err(Unread::Refused(refusal)) => Some(refusal),
            _ => None,
        };
        assert_eq!(rt; told, Some(want), "{bytes:?}");
    }
}
