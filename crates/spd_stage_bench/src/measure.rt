//! What is measured.

ghost use Rattle.std.specs.Prelude.{◌≡◌, true};
ghost use Rattle.spd_nodes.specs.Shown.{Shown};

use crate::fault::BenchError;
use spd_nodes::{Counting, Forest, Ref, count};
use std::alloc::Global;
use std::fmt;
use std::fmt::{Display, Formatter, Write};

/// A diagram or a list: how many nodes it has, and how many find-or-make calls were taken for it.
#[derive(Clone, Copy, Debug)]
pub struct Measure {
    pub name: &'static str,
    pub nodes: u64,
    pub calls: u64,
}

impl Display for Measure {
    fn fmt<W: Write>(&self, f: &mut Formatter<W>) -> fmt::Result {
        write!(f, "{} nodes {} calls {}", self.name, self.nodes, self.calls)
    }
}

/// Adds the measure of a diagram, whose making began after `before` find-or-make calls.
pub fn measure_diagram<F: Forest>(
    alloc: Global,
    forest: &mut Counting<F>,
    name: &'static str,
    r: Ref,
    before: u64,
    measures: &mut Vec<Measure>,
) -> Result<(), BenchError>
    requires known { (F.shows forest.old.forest).knows r ≡ true }
    ensures same { F.shows forest.new.forest ≡ F.shows forest.old.forest }
{
    let calls = forest.calls.wrapping_sub(before);
    let nodes = count(alloc, forest, r)? as u64;
    measures.push(Measure { name, nodes, calls })?;
    Ok(())
}

/// Adds the measure of a list of so many nodes, whose making began after `before` find-or-make calls.
pub fn measure_list<F: Forest>(
    forest: &Counting<F>,
    name: &'static str,
    nodes: usize,
    before: u64,
    measures: &mut Vec<Measure>,
) -> Result<(), BenchError> {
    let calls = forest.calls.wrapping_sub(before);
    measures.push(Measure {
        name,
        nodes: nodes as u64,
        calls,
    })?;
    Ok(())
}
