//! The commands that words are, and the first word that can't stand.
use spd_model::{Options, Word};
use spd_words::{Command, WordsFault, read_words};
use sqlite_items::Items;
use std::alloc::{AllocError, Global};
use std::process::Abort;
use std::test::Fail;

/// The words of a line, between single spaces.
fn words_of(alloc: Global, line: &str) -> Result<Vec<Word>, AllocError> {
    let mut words = Vec::new(alloc);
    for word in line.split(' ') {
        words.push(Items::from_slice(alloc, word.as_bytes())?)?;
    }
    Ok(words)
}

/// What is told of a run's options: what differs from the default, in the order of the fields.
fn told_options(alloc: Global, options: &Options) -> Result<String, AllocError> {
    let workers = options.workers;
    let nodes = options.nodes;
    let turns = options.turns;
    let span = options.span;
    let memo = options.memo;
    format!(in alloc; "{workers} {nodes} {turns} {span} {memo}")
}

fn told(alloc: Global, command: &Command) -> Result<String, AllocError> {
    match command {
        Command::Solve { file, options } => {
            let options = told_options(alloc, options)?;
            format!(in alloc; "solve {file}, {options}")
        }
        Command::Ask {
            file,
            pairs,
            options,
        } => {
            let options = told_options(alloc, options)?;
            let pairs = pairs.as_slice();
            format!(in alloc; "ask {file} {pairs:?}, {options}")
        }
        Command::Check {
            file,
            cert,
            options,
        } => {
            let options = told_options(alloc, options)?;
            format!(in alloc; "check {file} {cert}, {options}")
        }
        Command::Plain { file, options } => {
            let options = told_options(alloc, options)?;
            format!(in alloc; "plain {file}, {options}")
        }
        Command::Gen { n } => format!(in alloc; "gen {n}"),
        Command::Ring { n, options } => {
            let options = told_options(alloc, options)?;
            format!(in alloc; "ring {n}, {options}")
        }
        Command::Upgrade {
            file,
            cert,
            options,
        } => {
            let options = told_options(alloc, options)?;
            format!(in alloc; "upgrade {file} {cert}, {options}")
        }
        Command::Horizon {
            file,
            steps,
            options,
        } => {
            let options = told_options(alloc, options)?;
            format!(in alloc; "horizon {file} {steps:?}, {options}")
        }
        Command::Evaluate {
            file,
            cert,
            rounds,
            sweeps,
            options,
        } => {
            let options = told_options(alloc, options)?;
            format!(in alloc; "evaluate {file} {cert} {rounds:?} {sweeps}, {options}")
        }
        Command::Bounded {
            file,
            upper,
            options,
        } => {
            let options = told_options(alloc, options)?;
            format!(in alloc; "bounded {file} {upper}, {options}")
        }
    }
}

/// What is answered to the words of a line.
fn answer(alloc: Global, line: &str) -> Result<String, AllocError> {
    let words = words_of(alloc, line)?;
    match read_words(&words) {
        Ok(command) => told(alloc, &command),
        Err(WordsFault::Usage { word }) => format!(in alloc; "usage {word}"),
    }
}

fn compare(rt: &impl Abort, alloc: Global, rows: &[(&str, &str)]) -> Result<(), AllocError> {
    for (line, expected) in rows {
        let answered = answer(alloc, line)?;
        assert_eq!(rt; answered.as_str(), *expected, "{line}");
    }
    Ok(())
}

#[test]
fn words_are_read(rt: HostRuntime) -> Result<(), Fail> {
    compare(
        &rt,
        rt.alloc(),
        &[
            ("solve m", "solve 1, 1 262144 10000 0 65536"),
            ("solve -", "solve 1, 1 262144 10000 0 65536"),
            ("solve -- -m", "solve 2, 1 262144 10000 0 65536"),
            (
                "solve --workers 64 m --nodes=16 --turns 0 --span=0.5 --memo 0000000001",
                "solve 3, 64 16 0 500000000 1",
            ),
            ("ask m", "ask 1 [], 1 262144 10000 0 65536"),
            (
                "ask m q a --turns=7 m2 a2",
                "ask 1 [Pair { queries: 2, answers: 3 }, Pair { queries: 5, answers: 6 }], 1 262144 7 0 65536",
            ),
            ("check m c --memo 2", "check 1 2, 1 262144 10000 0 2"),
            ("plain m --span 1e-9", "plain 1, 1 262144 10000 1 65536"),
            ("gen 63", "gen 63"),
            ("ring 2 --workers=2", "ring 2, 2 262144 10000 0 65536"),
            ("upgrade m c", "upgrade 1 2, 1 262144 10000 0 65536"),
            ("horizon m", "horizon 1 None, 1 262144 10000 0 65536"),
            (
                "horizon m --steps 1000",
                "horizon 1 Some(1000), 1 262144 10000 0 65536",
            ),
            (
                "evaluate m c",
                "evaluate 1 2 None 10, 1 262144 10000 0 65536",
            ),
            (
                "evaluate m c --rounds=0 --sweeps 1000",
                "evaluate 1 2 Some(0) 1000, 1 262144 10000 0 65536",
            ),
            ("bounded m u --turns 3", "bounded 1 2, 1 262144 3 0 65536"),
        ],
    )?;
    Ok(())
}

#[test]
fn first_faults_are_told(rt: HostRuntime) -> Result<(), Fail> {
    compare(
        &rt,
        rt.alloc(),
        &[
            ("", "usage 0"),
            ("frob", "usage 0"),
            ("Solve m", "usage 0"),
            ("solve", "usage 1"),
            ("solve m n", "usage 2"),
            ("solve m --workers 0", "usage 3"),
            ("solve m --workers=65", "usage 2"),
            ("solve m --workers", "usage 3"),
            ("solve m --span 0.0000000001", "usage 3"),
            ("solve m --span -1", "usage 3"),
            ("solve m --span 1e22", "usage 3"),
            ("solve m --nodes 16 --nodes 16", "usage 4"),
            ("solve m --nodes 16 --nodes", "usage 4"),
            ("solve m --nodes=15", "usage 2"),
            ("solve m --memo 00000000001", "usage 3"),
            ("solve m --turns +1", "usage 3"),
            ("solve m --turns --", "usage 3"),
            ("solve m --frob", "usage 2"),
            ("solve m --steps 1", "usage 2"),
            ("solve -m", "usage 1"),
            ("solve --", "usage 2"),
            ("check - -", "usage 2"),
            ("check m m", "usage 2"),
            ("check m", "usage 2"),
            ("ask -", "usage 2"),
            ("ask m q", "usage 3"),
            ("ask m q a q b", "usage 4"),
            ("ask m q a p a", "usage 5"),
            ("ask q a", "usage 3"),
            ("ask m m a", "usage 2"),
            ("gen 1", "usage 1"),
            ("gen 64", "usage 1"),
            ("gen x 5", "usage 1"),
            ("gen 5 --nodes 16", "usage 2"),
            ("ring", "usage 1"),
            ("horizon m --steps 1001", "usage 3"),
            ("evaluate m c --sweeps 0", "usage 4"),
            ("bounded u u", "usage 2"),
        ],
    )?;
    Ok(())
}

/// `ask m` and so many pairs of files.
fn ask_line(alloc: Global, pairs: u32) -> Result<String, AllocError> {
    let mut line = String::from_str(alloc, "ask m")?;
    for pair in 0..pairs {
        write!(line, " q{pair} a{pair}")?;
    }
    Ok(line)
}

#[test]
fn at_most_64_pairs_stand(rt: HostRuntime) -> Result<(), Fail> {
    let alloc = rt.alloc();
    let words = words_of(alloc, ask_line(alloc, 64)?.as_str())?;
    let count = match read_words(&words) {
        Ok(Command::Ask { pairs, .. }) => pairs.as_slice().len(),
        _ => 0,
    };
    assert_eq!(rt; count, 64);
    let answered = answer(alloc, ask_line(alloc, 65)?.as_str())?;
    assert_eq!(rt; answered.as_str(), "usage 130");
    Ok(())
}
