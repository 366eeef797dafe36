//! Files at their limits, and one step past them.
use crate::command::{Outside, run};
use crate::refused::assert_ended;
use std::process::Abort;
use std::test::Fail;
use std::thread::Threads;

/// A file whose reward nests `depth` deep.
fn nested<R: AllocGlobal>(rt: &R, depth: usize) -> Result<Vec<u8>, Fail> {
    let mut file = Vec::new(rt.alloc());
    file.extend_from_slice(
        b"(variables (x a b)) action s x (x' (a (1)) (b (0))) endaction reward ",
    )?;
    for _ in 1..depth {
        file.extend_from_slice(b"(x (a ")?;
    }
    file.extend_from_slice(b"(1)")?;
    for _ in 1..depth {
        file.extend_from_slice(b") (b (0)))")?;
    }
    file.extend_from_slice(b" discount 0.5 tolerance 10")?;
    Ok(file)
}

/// The table under which each of so many values is followed by the first one.
fn put_table<R: AllocGlobal>(rt: &R, file: &mut Vec<u8>, values: usize) -> Result<(), Fail> {
    file.extend_from_slice(b"x (x' (v0 (1))")?;
    for value in 1..values {
        file.extend_from_slice(format!(in rt.alloc(); " (v{value} (0))")?.as_bytes())?;
    }
    file.extend_from_slice(b")")?;
    Ok(())
}

/// A file with so many values and actions.
fn sized<R: AllocGlobal>(rt: &R, values: usize, actions: usize) -> Result<Vec<u8>, Fail> {
    let mut file = Vec::new(rt.alloc());
    file.extend_from_slice(b"(variables (x")?;
    for value in 0..values {
        file.extend_from_slice(format!(in rt.alloc(); " v{value}")?.as_bytes())?;
    }
    file.extend_from_slice(b"))")?;
    for action in 0..actions {
        file.extend_from_slice(format!(in rt.alloc(); " action a{action} ")?.as_bytes())?;
        put_table(rt, &mut file, values)?;
        file.extend_from_slice(b" endaction")?;
    }
    file.extend_from_slice(b" reward (1) discount 0.5 tolerance 10")?;
    Ok(file)
}

/// A file whose variable, first value and action have names of so many bytes.
fn named<R: AllocGlobal>(rt: &R, var: usize, value: usize, action: usize) -> Result<Vec<u8>, Fail> {
    let var = vec![in rt.alloc(); b'x'; var]?;
    let value = vec![in rt.alloc(); b'v'; value]?;
    let action = vec![in rt.alloc(); b's'; action]?;
    let mut file = Vec::new(rt.alloc());
    let pieces: [&[u8]; 13] = [
        b"(variables (",
        &var,
        b" ",
        &value,
        b" b)) action ",
        &action,
        b" ",
        &var,
        b" (",
        &var,
        b"' (",
        &value,
        b" (1)) (b (0))) endaction reward (1) discount 0.5 tolerance 10",
    ];
    for piece in pieces {
        file.extend_from_slice(piece)?;
    }
    Ok(file)
}

/// A file with so many variables of one value.
fn wide<R: AllocGlobal>(rt: &R, vars: usize) -> Result<Vec<u8>, Fail> {
    let mut file = Vec::new(rt.alloc());
    file.extend_from_slice(b"(variables")?;
    for var in 0..vars {
        file.extend_from_slice(format!(in rt.alloc(); " (x{var} v)")?.as_bytes())?;
    }
    file.extend_from_slice(b") action s")?;
    for var in 0..vars {
        file.extend_from_slice(format!(in rt.alloc(); " x{var} (1)")?.as_bytes())?;
    }
    file.extend_from_slice(b" endaction reward (1) discount 0.5 tolerance 10")?;
    Ok(file)
}

/// A file with so many variables of two values, which go to the first one.
fn doubled<R: AllocGlobal>(rt: &R, vars: usize) -> Result<Vec<u8>, Fail> {
    let mut file = Vec::new(rt.alloc());
    file.extend_from_slice(b"(variables")?;
    for var in 0..vars {
        file.extend_from_slice(format!(in rt.alloc(); " (x{var} a b)")?.as_bytes())?;
    }
    file.extend_from_slice(b") action s")?;
    for var in 0..vars {
        let table = format!(in rt.alloc(); " x{var} (x{var}' (a (1)) (b (0)))")?;
        file.extend_from_slice(table.as_bytes())?;
    }
    file.extend_from_slice(b" endaction reward (1) discount 0 tolerance 0")?;
    Ok(file)
}

/// A file with so many decision diagrams, of which the last serves as the table.
fn named_trees<R: AllocGlobal>(rt: &R, dds: usize) -> Result<Vec<u8>, Fail> {
    let mut file = Vec::new(rt.alloc());
    file.extend_from_slice(b"(variables (x a b))")?;
    for dd in 0..dds {
        file.extend_from_slice(format!(in rt.alloc(); " dd d{dd} (0.5) enddd")?.as_bytes())?;
    }
    file.extend_from_slice(b" action s x (d0) endaction reward (1) discount 0 tolerance 0")?;
    Ok(file)
}

/// A file with so many of something.
#[derive(Clone, Copy)]
enum Much {
    Nesting(usize),
    Values(usize),
    Actions(usize),
    /// Bytes of the names of a variable, of its first value and of an action.
    NameBytes(usize, usize, usize),
    Variables(usize),
    Diagrams(usize),
    /// Variables of two values.
    Choices(usize),
}

/// What a file is, so many of what it has, and the status and the message that it comes to.
type Row = (&'static str, Much, u8, &'static str);

const FILES: &[Row] = &[
    ("nesting 300", Much::Nesting(300), 0, ""),
    (
        "nesting 301",
        Much::Nesting(301),
        5,
        "refused at byte 1869: too many nesting",
    ),
    (
        "nesting 100000",
        Much::Nesting(100_000),
        5,
        "refused at byte 1869: too many nesting",
    ),
    ("64 values", Much::Values(64), 0, ""),
    (
        "65 values",
        Much::Values(65),
        5,
        "refused at byte 260: too many values",
    ),
    ("64 actions", Much::Actions(64), 0, ""),
    (
        "65 actions",
        Much::Actions(65),
        5,
        "refused at byte 2963: too many actions",
    ),
    ("names of 64 bytes", Much::NameBytes(64, 64, 64), 0, ""),
    (
        "a variable of 65 bytes",
        Much::NameBytes(65, 64, 64),
        5,
        "refused at byte 12: too many name bytes",
    ),
    (
        "a value of 65 bytes",
        Much::NameBytes(64, 65, 64),
        5,
        "refused at byte 77: too many name bytes",
    ),
    (
        "an action of 65 bytes",
        Much::NameBytes(64, 64, 65),
        5,
        "refused at byte 153: too many name bytes",
    ),
    ("100 variables", Much::Variables(100), 0, ""),
    (
        "101 variables",
        Much::Variables(101),
        5,
        "refused at byte 802: too many variables",
    ),
    ("4,096 diagrams", Much::Diagrams(4096), 0, ""),
    (
        "4,097 diagrams",
        Much::Diagrams(4097),
        5,
        "refused at byte 84929: too many dds",
    ),
];

/// On diagrams there may be any number of states.
const STATES_OF_DIAGRAMS: &[Row] = &[
    ("4,096 states", Much::Choices(12), 0, ""),
    ("8,192 states", Much::Choices(13), 0, ""),
    ("2^100 states", Much::Choices(100), 0, ""),
];

const STATES_OF_TABLES: &[Row] = &[
    ("4,096 states", Much::Choices(12), 0, ""),
    (
        "8,192 states",
        Much::Choices(13),
        13,
        "too many states: 8192 or more",
    ),
    (
        "2^100 states",
        Much::Choices(100),
        13,
        "too many states: 8192 or more",
    ),
];

fn file_of<R: AllocGlobal>(rt: &R, much: Much) -> Result<Vec<u8>, Fail> {
    match much {
        Much::Nesting(depth) => nested(rt, depth),
        Much::Values(values) => sized(rt, values, 1),
        Much::Actions(actions) => sized(rt, 2, actions),
        Much::NameBytes(var, value, action) => named(rt, var, value, action),
        Much::Variables(vars) => wide(rt, vars),
        Much::Diagrams(dds) => named_trees(rt, dds),
        Much::Choices(vars) => doubled(rt, vars),
    }
}

/// Runs a command on each row.
fn assert_rows<R: AllocGlobal + Abort + Threads + Sync>(
    rt: &R,
    command: &str,
    rows: &[Row],
) -> Result<(), Fail> {
    for (what, much, number, message) in rows {
        let file = file_of(rt, *much)?;
        let answer = run(rt, &[command, "m"], Outside::calm(&file, 4096))?;
        assert_ended(rt, what, &answer, *number, message);
    }
    Ok(())
}

#[test]
fn files(rt: HostRuntime) -> Result<(), Fail> {
    assert_rows(&rt, "solve", FILES)
}

#[test]
fn states_of_diagrams(rt: HostRuntime) -> Result<(), Fail> {
    assert_rows(&rt, "solve", STATES_OF_DIAGRAMS)
}

#[test]
fn states_of_tables(rt: HostRuntime) -> Result<(), Fail> {
    assert_rows(&rt, "plain", STATES_OF_TABLES)
}
