//! Reading the words of a command.

ghost use Rattle.std.specs.Prelude.{◌≡◌, ◌<◌, ◌≤◌, ◌⊎◌, ℕ, List, Ok, Err, drop, slice_index, IfOk, IfErr, length};
ghost use Rattle.spd_words.specs.Commands.{IsCommand, IsUsage, IsFault, IsWithinLimits, pairs_of, size_of, command_from};
ghost use Rattle.spd_words.specs.declared.command.Command.{Command as CommandValue};
ghost use Rattle.spd_words.specs.Inner.Judging.{Reads};

use crate::command::{Command, Pair, Pairs};
use crate::expects::Expects;
use crate::fault::WordsFault;
use crate::said::Said;
use crate::text::text_at;
use crate::value::number_in;
use crate::verb::{Verb, verb_named};
use spd_model::Word;

/// The files of the clients, two for each.
fn pairs_of(places: &[usize]) -> Pairs
    requires { length places.now ≤ 128 }
    ensures { result ≡ pairs_of places.now }
{
    let mut pairs = Pairs::new();
    let mut left = places;
    while let [queries, answers, more @ ..] = left {
        pairs.push(Pair {
            queries: *queries,
            answers: *answers,
        });
        left = more;
    }
    pairs
}

/// The files of the clients behind the first file.
fn pairs_behind(operands: &[usize]) -> Pairs
    requires { length operands.now ≤ 129 }
    ensures { result ≡ pairs_of (drop 1 operands.now) }
{
    match operands {
        [_, places @ ..] => pairs_of(places),
        [] => Pairs::new(),
    }
}

/// The operand of this number, or 0 where there is none.
fn operand_at(operands: &[usize], at: usize) -> usize
    ensures { result ≡ slice_index operands.now at }
{
    operands.get(at).copied().unwrap_or(0)
}

/// The number that the operand is.
fn size_of(words: &[Word], operands: &[usize]) -> u32
    ensures { result ≡ size_of words.now operands.now }
{
    number_in(2, 63, text_at(words, operand_at(operands, 0))).unwrap_or(0)
}

/// The command `ask` of what the words say.
fn ask(said: &Said) -> Command
    ensures { (words : List (List ℕ)) → result ≡ command_from words Verb.Ask said.now.operands said.now.given }
{
    let operands = said.operands.as_slice();
    Command::Ask {
        file: operand_at(operands, 0),
        pairs: pairs_behind(operands),
        options: said.given.options(),
    }
}

/// The command `evaluate` of what the words say.
fn evaluate(said: &Said) -> Command
    ensures { (words : List (List ℕ)) → result ≡ command_from words Verb.Evaluate said.now.operands said.now.given }
{
    let operands = said.operands.as_slice();
    Command::Evaluate {
        file: operand_at(operands, 0),
        cert: operand_at(operands, 1),
        rounds: said.given.rounds,
        sweeps: said.given.sweeps(),
        options: said.given.options(),
    }
}

/// The command of what the words say.
fn command_from(words: &[Word], verb: Verb, said: &Said) -> Command
    ensures { result ≡ command_from words.now verb said.now.operands said.now.given }
{
    let operands = said.operands.as_slice();
    let file = operand_at(operands, 0);
    let second = operand_at(operands, 1);
    let options = said.given.options();
    match verb {
        Verb::Solve => Command::Solve { file, options },
        Verb::Ask => ask(said),
        Verb::Check => Command::Check {
            file,
            cert: second,
            options,
        },
        Verb::Plain => Command::Plain { file, options },
        Verb::Gen => Command::Gen {
            n: size_of(words, operands),
        },
        Verb::Ring => Command::Ring {
            n: size_of(words, operands),
            options,
        },
        Verb::Upgrade => Command::Upgrade {
            file,
            cert: second,
            options,
        },
        Verb::Horizon => Command::Horizon {
            file,
            steps: said.given.steps,
            options,
        },
        Verb::Evaluate => evaluate(said),
        Verb::Bounded => Command::Bounded {
            file,
            upper: second,
            options,
        },
    }
}

/// What the words behind the command say, or the first word that can't stand.
fn said_by(words: &[Word], verb: Verb) -> Result<Said, WordsFault>
    requires { 0 < length words.now }
    ensures { Reads words.now verb result }
{
    let mut said = Said::nothing();
    let mut expects = Expects::Anything;
    for at in 1..words.len() {
        expects = said.add_word(words, verb, expects, at)?;
    }
    if said.is_whole(words, verb, expects) {
        Ok(said)
    } else {
        Err(WordsFault::Usage { word: words.len() })
    }
}

/// The command that the words are, or the first word that can't stand.
fn command_of(words: &[Word]) -> Result<Command, WordsFault>
    ensures command { IfOk result (IsCommand words.now) }
    ensures usage { IfErr result (IsFault words.now) }
{
    let [first, ..] = words else {
        return Err(WordsFault::Usage { word: 0 });
    };
    let Some(verb) = verb_named(first.as_slice()) else {
        return Err(WordsFault::Usage { word: 0 });
    };
    let said = said_by(words, verb)?;
    Ok(command_from(words, verb, &said))
}

/// The command that the words are, or the first word that can't stand.
pub fn read_words(words: &[Word]) -> Result<Command, WordsFault>
    ensures command { IfOk result (IsCommand words.now) }
    ensures usage { IfErr result (IsFault words.now) }

    // Words are one command or one fault, and are answered so.
    ensures every_command { (command : CommandValue) → IsCommand words.now command → result ≡ Ok command }
    ensures every_usage { (word : ℕ) → IsUsage words.now word → result ≡ Err (WordsFault.Usage word) }

    ensures limits { IfOk result IsWithinLimits }
{
    command_of(words)
}

/// Every list of words is one command, or is no command with one first word that can't stand, and not both.
pub fn law_one_answer()
    ensures some { (words : List (List ℕ)) → ((command : CommandValue) × IsCommand words command) ⊎ ((word : ℕ) × IsUsage words word) }
    ensures one_command { (words : List (List ℕ)) (a b : CommandValue) → IsCommand words a → IsCommand words b → a ≡ b }
    ensures one_usage { (words : List (List ℕ)) (v w : ℕ) → IsUsage words v → IsUsage words w → v ≡ w }
    ensures not_both { (words : List (List ℕ)) (command : CommandValue) (word : ℕ) → IsCommand words command → IsUsage words word → ⊥ }
{}
