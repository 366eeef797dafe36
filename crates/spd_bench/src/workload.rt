//! The workloads, and what is measured of them.

use std::fmt;
use std::fmt::{Display, Formatter, Write};

/// What the program builds.
#[derive(Clone, Copy, Debug, PartialEq, Eq)]
pub enum Workload {
    /// A million leaves, made and found again.
    Leaves,
    /// A million entries, most of them tests, made and found again.
    Tests,
    /// A sum, a parity, and what operations make of both.
    Diagrams,
}

impl Workload {
    /// All of them, in the order in which they run.
    pub const ALL: [Workload; 3] = [Workload::Leaves, Workload::Tests, Workload::Diagrams];

    /// The workload of a name.
    pub fn of_name(name: &str) -> Option<Workload> {
        match name {
            "leaves" => Some(Workload::Leaves),
            "tests" => Some(Workload::Tests),
            "diagrams" => Some(Workload::Diagrams),
            _ => None,
        }
    }
}

/// What the words of the command line ask for.
#[derive(Clone, Copy, Debug)]
pub enum Request {
    /// No word: all workloads.
    All,
    /// The name of one workload.
    One(Workload),
    /// Anything else.
    Wrong,
}

/// A diagram or some entries: how many nodes there are, and how many find-or-make calls were taken for them.
#[derive(Clone, Copy, Debug)]
pub struct Measure {
    pub name: &'static str,
    pub nodes: u64,
    pub calls: u64,
}

impl Measure {
    /// The measure of entries that a forest numbers from 0 on without a gap, as it makes them.
    pub fn of_entries(name: &'static str, greatest: u32, calls: u64) -> Measure {
        Measure {
            name,
            nodes: greatest as u64 + 1,
            calls,
        }
    }
}

impl Display for Measure {
    fn fmt<W: Write>(&self, f: &mut Formatter<W>) -> fmt::Result {
        write!(f, "{} nodes {} calls {}", self.name, self.nodes, self.calls)
    }
}
