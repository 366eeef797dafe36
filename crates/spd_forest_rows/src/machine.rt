//! Worked schedules of the machine that makes each key once.
ghost use Rattle.spd_cons_core.specs.Invariants.{IsSized, IsSoundMachine};
ghost use Rattle.std.specs.Prelude.{IfOk};

use spd_cons_core::*;
use std::alloc::Global;
use std::test::Fail;

/// The seat's next atomic step in its call.
fn next_step(core: &Core, seat: u32, key: Key) -> Event {
    let load = Event::LoadBucket { seat, key };
    let Some(mind) = core.seats.get(seat as usize) else {
        return load;
    };
    let Some(call) = mind.call else {
        return load;
    };
    if let Some(entry) = call.found {
        return Event::LoadContent {
            seat,
            entry,
            word: call.right,
        };
    }
    if !call.empty {
        load
    } else if mind.spare.is_none() {
        Event::Claim { seat }
    } else if call.stored < 5 {
        Event::StoreContent {
            seat,
            word: call.stored,
        }
    } else {
        Event::ExchangeBucket { seat }
    }
}

fn is_in_call(core: &Core, seat: u32) -> bool {
    core.seats
        .get(seat as usize)
        .is_some_and(|mind| mind.call.is_some())
}

/// One step of a seat, if it is in a call.
fn go_on(alloc: Global, core: Core, seat: u32, key: Key) -> Result<Core, Memory>
    requires sized { IsSized core }
    requires sound { IsSoundMachine core }
    ensures sized { IfOk result IsSized }
    ensures sound { IfOk result IsSoundMachine }
{
    if is_in_call(&core, seat) {
        let event = next_step(&core, seat, key);
        step(alloc, core, event)
    } else {
        Ok(core)
    }
}

/// Two seats look for a key in alternate steps, until both calls have ended.
fn find_or_make(
    alloc: Global,
    core: Core,
    first: u32,
    second: u32,
    key: Key,
) -> Result<Core, Memory>
    requires sized { IsSized core }
    requires sound { IsSoundMachine core }
    ensures sized { IfOk result IsSized }
    ensures sound { IfOk result IsSoundMachine }
{
    let core = step(alloc, core, Event::LoadBucket { seat: first, key })?;
    let mut core = step(alloc, core, Event::LoadBucket { seat: second, key })?;
    for _round in 0..1000 {
        core = go_on(alloc, core, first, key)?;
        core = go_on(alloc, core, second, key)?;
    }
    Ok(core)
}

/// A part of a schedule.
#[derive(Clone, Copy, Debug)]
enum Part {
    /// These two seats look for the keys from one number to another, in alternate steps. A seat that runs alone is both.
    Keys(u32, u32, u32, u32),
    Split,
    Join,
}

fn make_all(
    alloc: Global,
    core: Core,
    first: u32,
    second: u32,
    from: u32,
    to: u32,
) -> Result<Core, Memory>
    requires sized { IsSized core }
    requires sound { IsSoundMachine core }
    ensures sized { IfOk result IsSized }
    ensures sound { IfOk result IsSoundMachine }
{
    let mut core = core;
    for number in from..to {
        core = find_or_make(alloc, core, first, second, Key::Num(i128::from(number)))?;
    }
    Ok(core)
}

fn play(alloc: Global, core: Core, parts: &[Part]) -> Result<Core, Memory>
    requires sized { IsSized core }
    requires sound { IsSoundMachine core }
    ensures sized { IfOk result IsSized }
    ensures sound { IfOk result IsSoundMachine }
{
    let mut core = core;
    for part in parts {
        core = match *part {
            Part::Keys(first, second, from, to) => {
                make_all(alloc, core, first, second, from, to)?
            }
            Part::Split => step(alloc, core, Event::Split { seat: 0 })?,
            Part::Join => step(alloc, core, Event::Join { seat: 0, other: 1 })?,
        };
    }
    Ok(core)
}

/// What a schedule leaves: of the table, and of seat 0.
#[derive(Clone, Copy, PartialEq, Eq, Debug)]
struct Counts {
    claims: u64,
    filled: usize,
    knows: usize,
    published: usize,
    spare: Option<Entry>,
    unpublished: u32,
    ended: bool,
    last: Last,
}

fn filled(core: &Core) -> usize {
    core.buckets.iter().filter(|bucket| **bucket != 0).count()
}

fn counts_of(core: &Core) -> Option<Counts> {
    let mind = core.seats.get(0)?;
    Some(Counts {
        claims: core.claims,
        filled: filled(core),
        knows: mind.knows.len(),
        published: mind.published.len(),
        spare: mind.spare,
        unpublished: mind.unpublished,
        ended: mind.ended,
        last: mind.last,
    })
}

fn schedule(
    alloc: Global,
    limit: u32,
    seats: u32,
    parts: &[Part],
) -> Result<Option<Counts>, Memory> {
    if limit < 16 || limit > 64 || seats < 1 || seats > 2 {
        return Ok(None);
    }
    let core = Core::new(alloc, limit, seats)?;
    let core = play(alloc, core, parts)?;
    Ok(counts_of(&core))
}

/// What a schedule shows, the limit and the seats of its table, its parts, and what it leaves.
type Schedule = (&'static str, u32, u32, &'static [Part], Counts);

const SCHEDULES: &[Schedule] = &[
    (
        "Two seats make the same 40 keys: each key is published once, and costs the seat that has no spare left a claim.",
        64,
        2,
        &[Part::Split, Part::Keys(0, 1, 0, 40), Part::Join],
        Counts {
            claims: 41,
            filled: 40,
            knows: 40,
            published: 40,
            spare: Some(Entry(40)),
            unpublished: 1,
            ended: false,
            last: Last::Got(Entry(39)),
        },
    ),
    (
        "A seat meets the end of the claims.",
        16,
        1,
        &[Part::Keys(0, 0, 0, 18)],
        Counts {
            claims: 18,
            filled: 17,
            knows: 17,
            published: 17,
            spare: None,
            unpublished: 0,
            ended: true,
            last: Last::Full,
        },
    ),
    (
        "It still finds a published key.",
        16,
        1,
        &[Part::Keys(0, 0, 0, 18), Part::Keys(0, 0, 3, 4)],
        Counts {
            claims: 18,
            filled: 17,
            knows: 17,
            published: 17,
            spare: None,
            unpublished: 0,
            ended: true,
            last: Last::Got(Entry(3)),
        },
    ),
    (
        "A lost exchange: its spare becomes the next key's entry, without a claim.",
        16,
        2,
        &[
            Part::Split,
            Part::Keys(0, 1, 7, 8),
            Part::Keys(1, 1, 8, 9),
            Part::Keys(0, 0, 8, 9),
        ],
        Counts {
            claims: 2,
            filled: 2,
            knows: 2,
            published: 1,
            spare: None,
            unpublished: 0,
            ended: false,
            last: Last::Got(Entry(1)),
        },
    ),
    (
        "A split in mid-run, and a join at its end.",
        16,
        2,
        &[
            Part::Keys(0, 0, 0, 5),
            Part::Split,
            Part::Keys(1, 1, 3, 8),
            Part::Keys(0, 0, 5, 10),
            Part::Join,
        ],
        Counts {
            claims: 10,
            filled: 10,
            knows: 10,
            published: 10,
            spare: None,
            unpublished: 0,
            ended: false,
            last: Last::Got(Entry(9)),
        },
    ),
];

#[test]
fn counts_of_schedules(rt: HostRuntime) -> Result<(), Fail> {
    for (what, limit, seats, parts, left) in SCHEDULES {
        let counts = schedule(rt.alloc(), *limit, *seats, parts)?;
        assert_eq!(rt; counts, Some(*left), "{what}");
    }
    Ok(())
}

/// The key that both seats look for. Its start bucket is 25.
const KEY: Key = Key::Num(7);

/// What one seat shows.
#[derive(Clone, Copy, PartialEq, Eq, Debug)]
struct Shown {
    live: bool,
    knows: usize,
    published: Option<Entry>,
    spare: Option<Entry>,
    unpublished: u32,
    stands: u32,
    splits: u32,
    in_call: bool,
    last: Last,
}

fn view_of(core: &Core, seat: u32) -> Option<Shown> {
    let mind = core.seats.get(seat as usize)?;
    Some(Shown {
        live: mind.live,
        knows: mind.knows.len(),
        published: mind.published.first().copied(),
        spare: mind.spare,
        unpublished: mind.unpublished,
        stands: mind.stands,
        splits: mind.splits,
        in_call: mind.call.is_some(),
        last: mind.last,
    })
}

/// What the machine shows: the table's counts, the start bucket of the key, the words of its first two entries, and both seats, where they are made.
#[derive(Clone, Copy, PartialEq, Eq, Debug)]
struct Seen {
    claims: u64,
    filled: usize,
    bucket: u64,
    words: [[u64; 5]; 2],
    seat: Option<Shown>,
    other: Option<Shown>,
}

fn look_at(core: &Core) -> Option<Seen> {
    Some(Seen {
        claims: core.claims,
        filled: filled(core),
        bucket: core.buckets.get(start_bucket(&KEY, 6) as usize).copied()?,
        words: [core.entries.first()?.0, core.entries.get(1)?.0],
        seat: view_of(core, 0),
        other: view_of(core, 1),
    })
}

/// A seat that is made with the table.
const FRESH: Shown = Shown {
    live: true,
    knows: 0,
    published: None,
    spare: None,
    unpublished: 0,
    stands: 1,
    splits: 1,
    in_call: false,
    last: Last::Nothing,
};

/// It when it was split once, and the other one.
const SPLIT: Shown = Shown { splits: 0, ..FRESH };

/// A seat that has ended.
const ENDED: Shown = Shown {
    live: false,
    stands: 0,
    ..SPLIT
};

/// The first seat in its call, which has claimed an entry.
const FIRST: Shown = Shown {
    spare: Some(Entry(0)),
    unpublished: 1,
    in_call: true,
    ..SPLIT
};

/// The second one.
const SECOND: Shown = Shown {
    spare: Some(Entry(1)),
    ..FIRST
};

/// The seat that published its entry.
const WINNER: Shown = Shown {
    knows: 1,
    published: Some(Entry(0)),
    last: Last::Got(Entry(0)),
    ..SPLIT
};

/// The seat that found that entry.
const LOSER: Shown = Shown {
    knows: 1,
    spare: Some(Entry(1)),
    unpublished: 1,
    last: Last::Got(Entry(0)),
    ..SPLIT
};

/// The first seat when the other one has ended: it has its spare.
const JOINED: Shown = Shown {
    spare: Some(Entry(1)),
    unpublished: 1,
    stands: 2,
    ..WINNER
};

const NEW: Seen = Seen {
    claims: 0,
    filled: 0,
    bucket: 0,
    words: [[0; 5], [0; 5]],
    seat: Some(FRESH),
    other: None,
};

const CLAIMED: Seen = Seen {
    claims: 2,
    seat: Some(FIRST),
    other: Some(SECOND),
    ..NEW
};

const STORED: Seen = Seen {
    words: [[2, 7, 0, 0, 0], [2, 7, 0, 0, 0]],
    ..CLAIMED
};

const PUBLISHED: Seen = Seen {
    filled: 1,
    bucket: 1,
    seat: Some(WINNER),
    other: Some(SECOND),
    ..STORED
};

/// The machine's steps in order: what some of them show, and what is seen after them.
const PHASES: &[(&str, Seen)] = &[
    ("a new table", NEW),
    (
        "a split",
        Seen {
            seat: Some(SPLIT),
            other: Some(SPLIT),
            ..NEW
        },
    ),
    ("both seats claim", CLAIMED),
    (
        "the first one stores",
        Seen {
            words: [[2, 7, 0, 0, 0], [0; 5]],
            ..CLAIMED
        },
    ),
    ("the second one stores", STORED),
    ("the first one publishes", PUBLISHED),
    ("the second one loses its exchange", PUBLISHED),
    (
        "it compares, and finds the first one's entry",
        Seen {
            seat: Some(WINNER),
            other: Some(LOSER),
            ..PUBLISHED
        },
    ),
    (
        "a join",
        Seen {
            seat: Some(JOINED),
            other: Some(ENDED),
            ..PUBLISHED
        },
    ),
];

/// A seat's step that stores a word of its key.
fn store(seat: u32, word: u8) -> Event {
    Event::StoreContent { seat, word }
}

/// The second seat's step that compares a word of the first entry.
fn load(word: u8) -> Event {
    Event::LoadContent {
        seat: 1,
        entry: Entry(0),
        word,
    }
}

/// The steps of a phase.
fn steps_of(alloc: Global, phase: usize) -> Result<Vec<Event>, Memory> {
    let words = [0, 1, 2, 3, 4];
    match phase {
        1 => [Event::Split { seat: 0 }].to_vec(alloc),
        2 => [
            Event::LoadBucket { seat: 0, key: KEY },
            Event::LoadBucket { seat: 1, key: KEY },
            Event::Claim { seat: 0 },
            Event::Claim { seat: 1 },
        ]
        .to_vec(alloc),
        3 => words.map(|word| store(0, word)).to_vec(alloc),
        4 => words.map(|word| store(1, word)).to_vec(alloc),
        5 => [Event::ExchangeBucket { seat: 0 }].to_vec(alloc),
        6 => [Event::ExchangeBucket { seat: 1 }].to_vec(alloc),
        7 => words.map(|word| load(word)).to_vec(alloc),
        8 => [Event::Join { seat: 0, other: 1 }].to_vec(alloc),
        _ => Ok(Vec::new(alloc)),
    }
}

/// Two seats make one key, step by step.
#[test]
fn two_seats_make_one_key(rt: HostRuntime) -> Result<(), Fail> {
    let mut core = Core::new(rt.alloc(), 16, 2)?;
    assert_eq!(rt; core.buckets.len(), 64);
    assert_eq!(rt; core.entries.len(), 18);
    for (phase, (what, after)) in PHASES.iter().enumerate() {
        core = run(rt.alloc(), core, &steps_of(rt.alloc(), phase)?)?;
        assert_eq!(rt; look_at(&core), Some(*after), "{what}");
    }
    Ok(())
}

/// Words and start buckets, calculated apart from this code.
#[test]
fn keys_are_spelled(rt: HostRuntime) {
    let test = Key::Test {
        level: 5,
        yes: Entry(3),
        no: Entry(4),
    };
    assert_eq!(rt; words_of(&test), Words([81, 3, 4, 0, 0]));
    assert_eq!(rt;
        words_of(&Key::Num(-2)),
        Words([
            2,
            18_446_744_073_709_551_614,
            18_446_744_073_709_551_615,
            0,
            0
        ])
    );
    assert_eq!(rt;
        words_of(&Key::Pair(-2, 5)),
        Words([
            3,
            18_446_744_073_709_551_614,
            18_446_744_073_709_551_615,
            5,
            0
        ])
    );
    assert_eq!(rt; words_of(&Key::Act(9)), Words([4, 9, 0, 0, 0]));
    assert_eq!(rt; start_bucket(&test, 6), 4);
    assert_eq!(rt; start_bucket(&Key::Num(7), 6), 25);
    assert_eq!(rt; start_bucket(&Key::Num(7), 1), 0);
    assert_eq!(rt; start_bucket(&Key::Num(-1), 63), 9_044_048_387_941_068_689);
    assert_eq!(rt; start_bucket(&Key::Pair(-2, 5), 6), 1);
    assert_eq!(rt; start_bucket(&Key::Act(9), 6), 59);
}
