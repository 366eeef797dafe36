//! The text of a model over the widest layout, whose trees test each level.
ghost use Rattle.std.specs.Prelude.{◌≤◌};

use crate::shape::{VARIABLES, tests_of};
use spd_model::Model;
use spd_reader::read_model;
use std::alloc::{AllocError, Global};
use std::fmt::Write;
use std::test::Fail;

/// What stands in a chain of tests where the first test that holds has a number, and behind the last test.
#[derive(Clone, Copy)]
enum Leaves {
    /// That many units of 10^-9.
    Units,
    /// 1/4 at even numbers and 3/4 at odd ones.
    Quarters,
    /// The other way round.
    OtherQuarters,
}

impl Leaves {
    fn put(self, text: &mut String, number: u16) -> Result<(), AllocError> {
        match (self, number % 2 == 0) {
            (Leaves::Units, _) => write!(text, "({number}e-9)"),
            (Leaves::Quarters, true) => write!(text, "(0.25)"),
            (Leaves::Quarters, false) => write!(text, "(0.75)"),
            (Leaves::OtherQuarters, true) => write!(text, "(0.75)"),
            (Leaves::OtherQuarters, false) => write!(text, "(0.25)"),
        }
    }

    /// Whether a chain with these leaves follows next values.
    fn follow_next(self) -> bool {
        match self {
            Leaves::Units => false,
            _ => true,
        }
    }
}

/// A branch on a variable's next or present value up to its last value, whose tree isn't there yet.
fn put_branch(
    text: &mut String,
    var: usize,
    mark: &str,
    first: u16,
    leaves: Leaves,
) -> Result<(), AllocError>
    requires { first ≤ 20000 }
{
    let tests = tests_of(var);
    write!(text, "(v{var}{mark}")?;
    for value in 0..tests {
        write!(text, " (a{value} ")?;
        leaves.put(text, first + u16::from(value))?;
        write!(text, ")")?;
    }
    write!(text, " (a{tests} ")
}

/// A chain of the tests of each variable's next and present value, but for the first one's next value, or of present values alone. Tests
/// are numbered as their levels are.
fn put_chain(text: &mut String, leaves: Leaves) -> Result<(), AllocError> {
    let mut number: u16 = 0;
    for var in 0..VARIABLES {
        let tests = u16::from(tests_of(var));
        if leaves.follow_next() && var > 0 {
            put_branch(text, var, "'", number, leaves)?;
        }
        put_branch(text, var, "", number + tests, leaves)?;
        number += 2 * tests;
    }
    leaves.put(text, number)?;
    for var in 0..VARIABLES {
        write!(text, "))")?;
        if leaves.follow_next() && var > 0 {
            write!(text, "))")?;
        }
    }
    Ok(())
}

/// A branch on a variable's next value, with 1 at one value and 0 at each other one.
fn put_sure(text: &mut String, var: usize, one: u8) -> Result<(), AllocError> {
    write!(text, "(v{var}'")?;
    for value in 0..tests_of(var) + 1 {
        let number = if value == one { 1 } else { 0 };
        write!(text, " (a{value} ({number}))")?;
    }
    write!(text, ")")
}

/// The table of a variable that keeps its value.
fn put_kept(text: &mut String, var: usize) -> Result<(), AllocError> {
    write!(text, "v{var} (v{var}")?;
    for value in 0..tests_of(var) + 1 {
        write!(text, " (a{value} ")?;
        put_sure(text, var, value)?;
        write!(text, ")")?;
    }
    writeln!(text, ")")
}

/// The tables of the first and of the last variable, which have 64 values.
fn put_ends(text: &mut String) -> Result<(), AllocError> {
    write!(text, "v0 (v0'")?;
    for value in 0..62 {
        write!(text, " (a{value} (0))")?;
    }
    writeln!(text, " (a62 (low)) (a63 (high)))")?;
    write!(text, "v99 (v99' (a0 (0.5)) (a1 (0.5))")?;
    for value in 2..64 {
        write!(text, " (a{value} (0))")?;
    }
    writeln!(text, ")")
}

/// The variables with their values.
fn put_variables(text: &mut String) -> Result<(), AllocError> {
    write!(text, "(variables")?;
    for var in 0..VARIABLES {
        write!(text, " (v{var}")?;
        for value in 0..tests_of(var) + 1 {
            write!(text, " a{value}")?;
        }
        write!(text, ")")?;
    }
    writeln!(text, ")")
}

/// The model's file.
fn put_file(text: &mut String) -> Result<(), AllocError> {
    put_variables(text)?;
    write!(text, "dd low ")?;
    put_chain(text, Leaves::Quarters)?;
    write!(text, " enddd\ndd high ")?;
    put_chain(text, Leaves::OtherQuarters)?;
    writeln!(text, " enddd\naction go")?;
    put_ends(text)?;
    for var in 1..VARIABLES - 1 {
        put_kept(text, var)?;
    }
    write!(text, "endaction\nreward ")?;
    put_chain(text, Leaves::Units)?;
    writeln!(text, "\ndiscount 0.5\ntolerance 0.1")
}

/// The widest model. Its only action gives the first variable its last value but one with the probability `low`, and its last one with
/// `high`; each other variable keeps its value, but the last one takes each of its first two values with 1/2.
pub fn widest_model(alloc: Global) -> Result<Model, Fail> {
    let mut text = String::new(alloc);
    put_file(&mut text)?;
    let bytes = text.as_str().as_bytes();
    if bytes.len() > 4_000_000 {
        return Err(Fail::new("too long"));
    }
    match read_model(alloc, bytes) {
        Ok(model) => Ok(model),
        Err(unread) => Err(Fail::new(format_args!("{unread:?}"))),
    }
}

#[test]
fn the_widest_model_is_read(rt: HostRuntime) -> Result<(), Fail> {
    let model = widest_model(rt.alloc())?;
    assert_eq!(rt; model.vars.as_slice().len(), VARIABLES);
    Ok(())
}
