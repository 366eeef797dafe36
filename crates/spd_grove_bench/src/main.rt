//! Asks one table for leaves through one grove or through four beside each other, each in a thread of its own, and prints
//! how many leaves were made. Time is taken from outside.
//!
//! `spd_grove_bench LIMIT THREADS ROUNDS` makes a table for LIMIT nodes, and each of THREADS threads (1 or 4) asks ROUNDS
//! times for the leaves 0 to LIMIT - 1, one thread after the other a quarter of them further on. All of them are made in
//! the first round, so LIMIT are made, or none where there are no rounds. The rounds behind the first find them.
#![tactic(auto)]

ghost use Rattle.std.specs.Prelude.{◌≡◌, ◌<◌, ◌≤◌};
ghost use Rattle.std.specs.Thread.{IsSync};

use spd_cons::Cons;
use spd_nodes::{Forest, Grove, Layout, Leaf, Steps};
use std::alloc::AllocError;
use std::env::Env;
use std::marker::Brand;
use std::process::ExitCode;
use std::sync::ledger::{Blank, Ledger};
use std::thread::Threads;
use std::{env, thread};

/// What is printed where the words of the command line aren't those that it shows.
const USAGE: &str = "usage: spd_grove_bench [LIMIT THREADS ROUNDS]";

/// How many seats each table has.
const SEATS: u32 = 4;

/// What is to be asked for.
#[derive(Clone, Copy)]
struct Plan {
    limit: u32,
    beside: bool,
    rounds: u32,
}

/// What is asked for where no words are given.
const SMALL: Plan = Plan {
    limit: 4096,
    beside: true,
    rounds: 2,
};

/// Asks for each leaf once, beginning at one of them. It answers how many came.
fn ask_once<F: Forest, L: Ledger>(
    forest: &mut F,
    limit: u32,
    from: u32,
    steps: &mut Steps<L>,
) -> u64 {
    let mut came = 0u64;
    for place in 0..limit {
        let ahead = u64::from(place) + u64::from(from);
        let behind = ahead.saturating_sub(u64::from(limit));
        let number = if ahead < u64::from(limit) {
            ahead
        } else {
            behind
        };
        let leaf = Leaf::Num(i128::from(number));
        came = came.wrapping_add(u64::from(forest.leaf(leaf, steps).is_ok()));
    }
    came
}

/// Asks for each leaf in each round.
fn ask<F: Forest, L: Ledger>(forest: &mut F, plan: Plan, from: u32, blank: Blank) -> u64
    requires name { blank.name ≡ L.name }
    requires parts { blank.parts ≡ L.parts }
    requires one { 0 < blank.parts }
{
    let mut steps = Steps::<L>::new(blank);
    let mut came = 0u64;
    for _ in 0..plan.rounds {
        came = came.wrapping_add(ask_once(forest, plan.limit, from, &mut steps));
    }
    came
}

/// How many leaves a grove published itself, of those that it was asked for.
fn made_by(mut grove: Grove<'_>, plan: Plan, from: u32) -> usize {
    let _ = ask::<_, Brand>(&mut grove, plan, from, Blank::new(1));
    grove.published()
}

/// How many leaves two groves published, each in a thread of its own.
fn made_by_two<R: Threads + Sync>(
    rt: &R,
    plan: Plan,
    first: Grove<'_>,
    second: Grove<'_>,
    from: u32,
) -> usize {
    let (a, b) = thread::join(
        rt,
        || made_by(first, plan, from),
        || made_by(second, plan, from.saturating_add(plan.limit / 4)),
    );
    a.wrapping_add(b)
}

/// How many leaves are made in a table.
fn made<R: Threads + Sync + AllocGlobal>(rt: &R, plan: Plan) -> Result<usize, AllocError>
    requires limit_low { 16 ≤ plan.limit }
    requires limit_high { plan.limit ≤ 8388608 }
{
    let layout = Layout::new(rt.alloc(), &[2])?;
    let (cons, seat) = Cons::new(rt.alloc(), plan.limit, SEATS)?;
    let mut first = Grove::new(&cons, seat, &layout);
    if !plan.beside {
        return Ok(made_by(first, plan, 0));
    }
    let second = first.split();
    let third = first.split();
    let fourth = first.split();
    let half = plan.limit / 2;
    let (front, back) = thread::join(
        rt,
        ||
            requires { IsSync R.row }
        { made_by_two(rt, plan, first, second, 0) },
        ||
            requires { IsSync R.row }
        { made_by_two(rt, plan, third, fourth, half) },
    );
    Ok(front.wrapping_add(back))
}

/// The number that a word of the command line is.
fn number(word: Option<String>) -> Option<u32> {
    word?.as_str().parse::<u32>().ok()
}

/// What the words of the command line ask for.
fn asked_plan<R: Env + AllocGlobal>(rt: &R) -> anyhow::Result<Option<Plan>> {
    let mut words = env::args(rt)?;
    // The first word is the program's name.
    let _ = words.next();
    let Some(limit) = words.next() else {
        return Ok(Some(SMALL));
    };
    let limit = number(Some(limit));
    let threads = number(words.next());
    let rounds = number(words.next());
    Ok(match (limit, threads, rounds) {
        (Some(limit), Some(threads), Some(rounds)) => Some(Plan {
            limit,
            beside: threads == 4,
            rounds,
        }),
        _ => None,
    })
}

fn main(rt: HostRuntime) -> anyhow::Result<ExitCode> {
    let Some(plan) = asked_plan(&rt)? else {
        eprintln!(rt; "{USAGE}")?;
        return Ok(ExitCode::from(2));
    };
    if plan.limit < 16 || plan.limit > 8_388_608 {
        eprintln!(rt; "{USAGE}")?;
        return Ok(ExitCode::from(2));
    }
    let made = made(&rt, plan)?;
    println!(rt; "made {made}")?;
    Ok(ExitCode::SUCCESS)
}
