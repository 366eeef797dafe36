//! What a person is told of words that can't be run.

use crate::names::add_name;
use crate::nearest::is_near;
use crate::screen::Screen;
use spd_model::Word;
use std::alloc::AllocError;

/// The commands that can be run.
const COMMANDS: [&[u8]; 8] = [
    b"solve", b"plain", b"check", b"upgrade", b"gen", b"ring", b"help", b"version",
];

/// The commands that are planned.
const PLANNED: [&[u8]; 4] = [b"ask", b"horizon", b"evaluate", b"bounded"];

/// The options.
const OPTIONS: [&[u8]; 5] = [b"--turns", b"--span", b"--workers", b"--nodes", b"--memo"];

/// What a word is, by those before it.
#[derive(Clone, Copy)]
enum Role {
    /// An operand or an option.
    Any,
    /// The value of the option at the word of this number.
    Value(usize),
    /// An operand: `--` stands before.
    Operand,
}

/// The bytes of the word of a number, or none.
fn text(words: &[Word], number: usize) -> &[u8] {
    match words.get(number) {
        Some(word) => word.as_slice(),
        None => &[],
    }
}

/// Whether a word before `--` is an option.
fn is_option(word: &[u8]) -> bool {
    matches!(word, [b'-', _, ..])
}

/// What the word of a number is.
fn role_of(words: &[Word], number: usize) -> Role {
    let mut role = Role::Any;
    for before in 1..number.min(words.len()).max(1) {
        let word = text(words, before);
        role = match role {
            Role::Operand => Role::Operand,
            Role::Value(_) => Role::Any,
            Role::Any if word == b"--".as_slice() => Role::Operand,
            Role::Any if is_option(word) && !word.contains(&b'=') => Role::Value(before),
            Role::Any => Role::Any,
        };
    }
    role
}

/// The values that an option takes.
fn values_of(option: &[u8]) -> Option<&'static [u8]> {
    if option == b"--turns".as_slice() {
        Some(b"0 to 1000000")
    } else if option == b"--span".as_slice() {
        Some(b"a decimal from 0 to 10^21 with at most 9 places")
    } else if option == b"--workers".as_slice() {
        Some(b"1 to 64")
    } else if option == b"--nodes".as_slice() {
        Some(b"16 to 8388608")
    } else if option == b"--memo".as_slice() {
        Some(b"1 to 8388608")
    } else {
        None
    }
}

/// Whether a command's operand is a number of machines.
fn is_of_ring(command: &[u8]) -> bool {
    command == b"gen".as_slice() || command == b"ring".as_slice()
}

/// Whether a command's operands are a model file and a certificate.
fn is_of_cert(command: &[u8]) -> bool {
    command == b"check".as_slice() || command == b"upgrade".as_slice()
}

/// Whether a command takes an option.
fn takes(command: &[u8], option: &[u8]) -> bool {
    if command == b"gen".as_slice() {
        return false;
    }
    if is_of_cert(command) {
        return option == b"--nodes".as_slice() || option == b"--memo".as_slice();
    }
    command != b"plain".as_slice()
        || option == b"--turns".as_slice()
        || option == b"--span".as_slice()
}

/// The number of the first operand of a command, before the word of a number.
fn first_operand(words: &[Word], number: usize) -> Option<usize> {
    for before in 1..number.min(words.len()).max(1) {
        let word = text(words, before);
        match role_of(words, before) {
            Role::Operand => return Some(before),
            Role::Any if !is_option(word) && word != b"--".as_slice() => return Some(before),
            _ => {}
        }
    }
    None
}

/// The name of an option, without a value in the same word.
fn name_of(word: &[u8]) -> &[u8] {
    for i in 0..word.len() {
        if word[i] == b'=' {
            return &word[..i];
        }
    }
    word
}

/// The first of some words that a word may be meant to be.
fn near_word(word: &[u8], words: &[&'static [u8]]) -> Option<&'static [u8]> {
    for other in words {
        if is_near(word, other) {
            return Some(*other);
        }
    }
    None
}

/// Adds a line that says what a word isn't, and which of some words may be meant.
fn tell_unknown(
    screen: &mut Screen,
    word: &[u8],
    what: &[u8],
    words: &[&'static [u8]],
) -> Result<(), AllocError> {
    screen.add(b"  ")?;
    add_name(screen, word)?;
    screen.add(what)?;
    if let Some(other) = near_word(word, words) {
        screen.add(b" Is ")?;
        add_name(screen, other)?;
        screen.add(b" meant?")?;
    }
    screen.end_line()
}

/// Tells of a first word that is no command.
fn tell_command(screen: &mut Screen, words: &[Word]) -> Result<(), AllocError> {
    let word = text(words, 0);
    if words.is_empty() {
        screen.line(&[b"  A command is missing."])
    } else if PLANNED.iter().any(|other| *other == word) {
        screen.line(&[b"  `", word, b"` can't be run yet."])
    } else {
        tell_unknown(screen, word, b" is no command.", &COMMANDS)
    }
}

/// Tells of an option that can't stand.
fn tell_option(screen: &mut Screen, command: &[u8], word: &[u8]) -> Result<(), AllocError> {
    let name = name_of(word);
    match values_of(name) {
        Some(_) if !takes(command, name) => {
            screen.add(b"  ")?;
            add_name(screen, name)?;
            screen.add(b" is no option of ")?;
            add_name(screen, command)?;
            screen.add(b".")?;
            screen.end_line()
        }
        Some(values) => {
            screen.add(b"  ")?;
            add_name(screen, name)?;
            screen.add(b" stands once, and takes ")?;
            screen.add(values)?;
            screen.add(b".")?;
            screen.end_line()
        }
        None if word.starts_with(b"--") => tell_unknown(screen, name, b" is no option.", &OPTIONS),
        None => {
            screen.line(&[b"  `", word, b"` is no option."])?;
            screen.line(&[b"  A file whose name begins with `-` is given behind the word `--`."])
        }
    }
}

/// Tells of the value of an option, where it can't stand or is missing.
fn tell_value(screen: &mut Screen, option: &[u8], word: Option<&[u8]>) -> Result<(), AllocError> {
    let values = values_of(option).unwrap_or(b"a value");
    screen.add(b"  ")?;
    match word {
        Some(word) => {
            add_name(screen, word)?;
            screen.add(b" is no value of ")?;
            add_name(screen, option)?;
            screen.add(b", which takes ")?;
        }
        None => {
            add_name(screen, option)?;
            screen.add(b" takes a value: ")?;
        }
    }
    screen.add(values)?;
    screen.add(b".")?;
    screen.end_line()
}

/// Tells of an operand that can't stand.
fn tell_operand(screen: &mut Screen, words: &[Word], number: usize) -> Result<(), AllocError> {
    let word = text(words, number);
    if word.is_empty() {
        return screen.line(&[b"  The name of a file isn't empty."]);
    }
    match first_operand(words, number) {
        Some(first) if is_of_cert(text(words, 0)) && text(words, first) == word => screen.line(&[
            b"  `",
            word,
            b"` stands twice: the model file and the certificate are two files.",
        ]),
        _ => screen.line(&[b"  `", word, b"` is one operand too many."]),
    }
}

/// Tells of a word behind the command that can't stand.
fn tell_word(screen: &mut Screen, words: &[Word], number: usize) -> Result<(), AllocError> {
    let word = text(words, number);
    match role_of(words, number) {
        Role::Value(option) => tell_value(screen, text(words, option), Some(word)),
        Role::Any if is_option(word) => tell_option(screen, text(words, 0), word),
        _ if is_of_ring(text(words, 0)) => screen.line(&[
            b"  `",
            word,
            b"` can't stand here: the one operand is a number of machines from 2 to 63.",
        ]),
        _ => tell_operand(screen, words, number),
    }
}

/// Tells which word is missing at the end.
fn tell_missing(screen: &mut Screen, words: &[Word]) -> Result<(), AllocError> {
    match role_of(words, words.len()) {
        Role::Value(option) => tell_value(screen, text(words, option), None),
        _ if is_of_ring(text(words, 0)) => {
            screen.line(&[b"  N is missing: a number of machines from 2 to 63."])
        }
        _ if is_of_cert(text(words, 0)) && first_operand(words, words.len()).is_some() =>
            screen.line(&[
                b"  A CERT is missing: the name of a certificate, or `-` for standard input.",
            ]),
        _ => screen.line(&[
            b"  A FILE is missing: the name of a model file, or `-` for standard input.",
        ]),
    }
}

/// Adds which word of a command can't stand, by its number, and why.
pub fn tell_usage(screen: &mut Screen, words: &[Word], number: usize) -> Result<(), AllocError> {
    if number == 0 {
        tell_command(screen, words)?;
    } else if number >= words.len() {
        tell_missing(screen, words)?;
    } else {
        tell_word(screen, words, number)?;
    }
    screen.line(&[b"  To see what can stand, try 'spudd --help'."])
}
