//! Builds stated diagrams in a forest for one thread, and prints how many nodes they have and how many find-or-make calls
//! they took. Time is taken from outside.
//!
//! There are 20 variables of two values. Every count can be had by hand:
//!
//! - `leaves`: 1,000,000 leaves, each asked for twice.
//! - `tests`: 1,000 leaves, and a test for each ordered pair of two different ones, 1,000 * 999; each is asked for twice.
//! - `sum`: a leaf for each of the 2^16 sums of weights, and a test for each choice of values before a variable, 2^16 - 1.
//!   The sum of i variables meets the next indicator at each of its 2^i - 1 tests and 2^i leaves, and both leaves of the
//!   indicator at each leaf: 2^(i + 2) - 1 calls. For i from 0 to 15, with three calls for each indicator and one for the
//!   leaf 0, these are 4 * (2^16 - 1) + 16 * 2 + 1.
//! - `parity`: 2 leaves, 2 tests of each of the last 19 variables and one of the first, each in one call.
//! - `pair`: 2^16 - 1 tests of the first 16 variables. Below each of the 2^16 sums, the parity of the last four has
//!   2 * 4 - 1 tests and 2 leaves: 2^16 * 9 nodes. No pair of nodes meets twice, so each node is made in one call.
//! - `add`: the same pairs meet, so there are as many calls. Below the sum a the leaves are a and a + 1: in all 2^16 + 1
//!   leaves, with 2^16 - 1 + 2^16 * 7 tests.
//! - `max`: a sum above 0 is never less than the parity, so below it all is one leaf: there are 2^16 leaves, 2^16 - 1 tests of
//!   the first 16 variables, and 7 below the sum 0. Each of these tests takes a call, and each pair of leaves, 2 * 2^16.
//! - `cofactor`: half of the sums stay: 2^15 - 1 tests, and below them 2^15 * 9 nodes. Calls are taken for the 2^10 - 1 tests
//!   of the ten variables before the one that is held.
//! - `prime`: as many nodes as the sum has, and a call for each of its 2^16 - 1 tests.
#![tactic(auto)]

ghost use Rattle.std.specs.Prelude.{◌≡◌, ℕ, ◌<◌};

mod build;
mod diagrams;
mod entries;
mod fault;
mod workload;

use crate::diagrams::measure_diagrams;
use crate::entries::{measure_leaves, measure_tests};
use crate::fault::BenchError;
use crate::workload::{Measure, Request, Workload};
use spd_nodes::{Alone, Counting, Layout, Steps};
use std::alloc::Global;
use std::env::Env;
use std::marker::Brand;
use std::process::ExitCode;
use std::sync::ledger::{Blank, Ledger};
use std::{env, io};

/// How many values each of the variables has.
const SIZES: [u8; 20] = [2; 20];

/// How many entries a forest may have.
const LIMIT: u32 = 8_388_608;

/// What is printed where the words of the command line aren't those that it shows.
const USAGE: &str = "usage: spd_bench [leaves | tests | diagrams]";

/// Runs a workload in a forest of its own, and adds its measures. It answers how many find-or-make calls there were.
fn run<L: Ledger>(
    alloc: Global,
    workload: Workload,
    blank: Blank,
    measures: &mut Vec<Measure>,
) -> Result<u64, BenchError>
    requires name { blank.name ≡ L.name }
    requires parts { blank.parts ≡ L.parts }
    requires one { 0 < blank.parts }
{
    let mut steps = Steps::<L>::new(blank);
    let forest = Alone::new(alloc, Layout::new(alloc, &SIZES)?, LIMIT)?;
    let mut counting = Counting { forest, calls: 0 };
    match workload {
        Workload::Leaves => measure_leaves(&mut counting, measures, &mut steps)?,
        Workload::Tests => measure_tests(alloc, &mut counting, measures, &mut steps)?,
        Workload::Diagrams => measure_diagrams(alloc, &mut counting, measures, &mut steps)?,
    }
    Ok(counting.calls)
}

/// Runs workloads one after the other, and adds their measures. It answers how many find-or-make calls there were, modulo
/// 2^64.
fn run_all(
    alloc: Global,
    workloads: &[Workload],
    measures: &mut Vec<Measure>,
) -> Result<u64, BenchError> {
    let mut calls: u64 = 0;
    for workload in workloads {
        calls = calls.wrapping_add(run::<Brand>(alloc, *workload, Blank::new(1), measures)?);
    }
    Ok(calls)
}

/// What the words of the command line ask for.
fn request<R: Env + AllocGlobal>(rt: &R) -> io::Result<Request> {
    let mut words = env::args(rt)?;
    // The first word is the program's name.
    let _ = words.next();
    let name = match words.next() {
        Some(name) => name,
        None => return Ok(Request::All),
    };
    match (Workload::of_name(name.as_str()), words.next()) {
        (Some(workload), None) => Ok(Request::One(workload)),
        _ => Ok(Request::Wrong),
    }
}

/// Runs workloads and prints what they measured.
fn print_all<R: Print + AllocGlobal>(rt: &R, workloads: &[Workload]) -> anyhow::Result<()> {
    let mut measures = Vec::new(rt.alloc());
    let calls = run_all(rt.alloc(), workloads, &mut measures)?;
    for measure in &measures {
        println!(rt; "{measure}")?;
    }
    println!(rt; "calls {calls}")?;
    Ok(())
}

fn main(rt: HostRuntime) -> anyhow::Result<ExitCode> {
    match request(&rt)? {
        Request::All => print_all(&rt, &Workload::ALL)?,
        Request::One(workload) => print_all(&rt, &[workload])?,
        Request::Wrong => {
            eprintln!(rt; "{USAGE}")?;
            return Ok(ExitCode::from(2));
        }
    }
    Ok(ExitCode::SUCCESS)
}
