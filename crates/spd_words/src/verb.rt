//! The commands, and the operands and options that each takes.

ghost use Rattle.std.specs.Prelude.{◌≡◌, ◌<◌, OnSome};
ghost use Rattle.spd_words.specs.Verbs.{verb_named, key_named, takes, role_of, is_role};

/// A command.
#[derive(Clone, Copy, PartialEq, Eq, Debug)]
pub(crate) enum Verb {
    Solve,
    Ask,
    Check,
    Plain,
    Gen,
    Ring,
    Upgrade,
    Horizon,
    Evaluate,
    Bounded,
}

/// An option.
#[derive(Clone, Copy, PartialEq, Eq, Debug)]
pub(crate) enum Key {
    Workers,
    Nodes,
    Turns,
    Span,
    Memo,
    Steps,
    Rounds,
    Sweeps,
}

/// What an operand is.
#[derive(Clone, Copy, PartialEq, Eq, Debug)]
pub(crate) enum Role {
    /// A file that is read: FILE, CERT, UPPER or QUERIES.
    Input,
    /// A file that is written: ANSWERS.
    Output,
    /// The number of variables of a ring.
    Size,
}

/// The command of this word.
#[tactic(auto, unfolding(crate::specs::Verbs::verb_named))]
pub(crate) fn verb_named(word: &[u8]) -> Option<Verb>
    ensures { result ≡ verb_named word.now }
{
    if word == b"solve".as_slice() {
        Some(Verb::Solve)
    } else if word == b"ask".as_slice() {
        Some(Verb::Ask)
    } else if word == b"check".as_slice() {
        Some(Verb::Check)
    } else if word == b"plain".as_slice() {
        Some(Verb::Plain)
    } else if word == b"gen".as_slice() {
        Some(Verb::Gen)
    } else if word == b"ring".as_slice() {
        Some(Verb::Ring)
    } else if word == b"upgrade".as_slice() {
        Some(Verb::Upgrade)
    } else if word == b"horizon".as_slice() {
        Some(Verb::Horizon)
    } else if word == b"evaluate".as_slice() {
        Some(Verb::Evaluate)
    } else if word == b"bounded".as_slice() {
        Some(Verb::Bounded)
    } else {
        None
    }
}

/// The option of this word.
#[tactic(auto, unfolding(crate::specs::Verbs::key_named))]
pub(crate) fn key_named(word: &[u8]) -> Option<Key>
    ensures { result ≡ key_named word.now }
{
    if word == b"--workers".as_slice() {
        Some(Key::Workers)
    } else if word == b"--nodes".as_slice() {
        Some(Key::Nodes)
    } else if word == b"--turns".as_slice() {
        Some(Key::Turns)
    } else if word == b"--span".as_slice() {
        Some(Key::Span)
    } else if word == b"--memo".as_slice() {
        Some(Key::Memo)
    } else if word == b"--steps".as_slice() {
        Some(Key::Steps)
    } else if word == b"--rounds".as_slice() {
        Some(Key::Rounds)
    } else if word == b"--sweeps".as_slice() {
        Some(Key::Sweeps)
    } else {
        None
    }
}

impl Verb {
    /// Whether the command takes the option.
    pub(crate) fn takes(self, key: Key) -> bool
        ensures { result ≡ takes self key }
    {
        match self {
            Verb::Solve | Verb::Ask | Verb::Ring => matches!(
                key,
                Key::Workers | Key::Nodes | Key::Turns | Key::Span | Key::Memo
            ),
            Verb::Check | Verb::Upgrade => matches!(key, Key::Nodes | Key::Memo),
            Verb::Plain => matches!(key, Key::Turns | Key::Span),
            Verb::Gen => false,
            Verb::Horizon => matches!(key, Key::Steps | Key::Nodes | Key::Memo),
            Verb::Evaluate => matches!(
                key,
                Key::Rounds | Key::Sweeps | Key::Turns | Key::Nodes | Key::Memo
            ),
            Verb::Bounded => matches!(key, Key::Turns | Key::Nodes | Key::Memo),
        }
    }

    /// What an operand is behind so many others, or nothing where it is one too many.
    pub(crate) fn role_of(self, before: usize) -> Option<Role>
        ensures role { result ≡ role_of self before }
        ensures few { OnSome result (before < 129) }
    {
        match self {
            Verb::Solve | Verb::Plain | Verb::Horizon if before < 1 => Some(Role::Input),
            Verb::Check | Verb::Upgrade | Verb::Evaluate | Verb::Bounded if before < 2 => {
                Some(Role::Input)
            }
            Verb::Gen | Verb::Ring if before < 1 => Some(Role::Size),
            Verb::Ask if before == 0 => Some(Role::Input),
            Verb::Ask if before > 128 => None,
            Verb::Ask if before % 2 == 1 => Some(Role::Input),
            Verb::Ask => Some(Role::Output),
            _ => None,
        }
    }

    /// Whether an operand behind so many others has this role.
    pub(crate) fn has_role(self, before: usize, role: Role) -> bool
        ensures { result ≡ is_role (role_of self before) role }
    {
        match self.role_of(before) {
            None => false,
            Some(Role::Input) => matches!(role, Role::Input),
            Some(Role::Output) => matches!(role, Role::Output),
            Some(Role::Size) => matches!(role, Role::Size),
        }
    }
}
