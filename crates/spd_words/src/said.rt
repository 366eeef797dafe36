//! What the words of a command say so far.

ghost use Rattle.std.specs.Prelude.{◌≡◌, ℕ, List, IfOk, length};
ghost use Rattle.spd_words.specs.Standing.{repeats, fits, are_all, can_stand};
ghost use Rattle.spd_words.specs.Pieces.{operand, value, option_pieces, word_pieces, behind_option, behind_word, halves, last_piece};
ghost use Rattle.spd_words.specs.Standing.{text_at};
ghost use Rattle.spd_words.specs.declared.verb.Verb.{Verb as VerbValue};
ghost use Rattle.spd_words.specs.Inner.Judging.{nothing_said, judged_piece, judged, Judges, JudgesOption};

use crate::expects::Expects;
use crate::fault::WordsFault;
use crate::given::Given;
use crate::places::Places;
use crate::text::{halves, is_option, text_at};
use crate::value::number_in;
use crate::verb::{Key, Role, Verb, key_named};
use spd_model::Word;

/// What the words say so far: the operands in order, by the numbers of their words, and the values of the options.
#[derive(Debug, Drop)]
pub(crate) struct Said {
    pub operands: Places,
    pub given: Given,
}

/// Whether an operand of the same role stands before with this name.
fn repeats(words: &[Word], verb: Verb, operands: &[usize], role: Role, text: &[u8]) -> bool
    ensures { result ≡ repeats words.now verb operands.now role text.now }
{
    operands.iter().enumerate().any(|(before, at)| verb.has_role(before, role)
        && text_at(words, *at) == text)
}

/// Whether a text can stand in this role behind these operands.
fn fits(words: &[Word], verb: Verb, operands: &[usize], role: Option<Role>, text: &[u8]) -> bool
    ensures { result ≡ fits words.now verb operands.now role text.now }
{
    match role {
        None => false,
        Some(Role::Size) => number_in(2, 63, text).is_some(),
        Some(role) => !text.is_empty() && !repeats(words, verb, operands, role, text),
    }
}

/// Whether no operand is missing.
fn are_all(words: &[Word], verb: Verb, operands: &[usize]) -> bool
    ensures { result ≡ are_all words.now verb operands.now }
{
    match (verb, operands) {
        (Verb::Ask, [file]) => text_at(words, *file) != b"-".as_slice(),
        (Verb::Ask, _) => operands.len() % 2 == 1,
        (Verb::Check | Verb::Upgrade | Verb::Evaluate | Verb::Bounded, _) => operands.len() == 2,
        _ => operands.len() == 1,
    }
}

impl Said {
    /// Nothing.
    pub(crate) fn nothing() -> Said
        ensures { result ≡ nothing_said }
    {
        Said {
            operands: Places::new(),
            given: Given::nothing(),
        }
    }

    /// Takes an operand, where it can stand.
    pub(crate) fn add_operand(
        &mut self,
        words: &[Word],
        verb: Verb,
        at: usize,
    ) -> Result<(), WordsFault>
        ensures { Judges (judged_piece words.now verb (operand at) self.old) result self.new }
    {
        let operands = self.operands.as_slice();
        let role = verb.role_of(operands.len());
        if !fits(words, verb, operands, role, text_at(words, at)) {
            return Err(WordsFault::Usage { word: at });
        }
        self.operands.push(at);
        Ok(())
    }

    /// The option of this name, where it can stand.
    pub(crate) fn option(&self, verb: Verb, name: &[u8], at: usize) -> Result<Key, WordsFault>
        ensures { (words : List (List ℕ)) → JudgesOption words verb at name.now self.now result }
    {
        match key_named(name) {
            Some(key) if verb.takes(key) && !self.given.has(key) => Ok(key),
            _ => Err(WordsFault::Usage { word: at }),
        }
    }

    /// Takes the value of an option, where it can stand.
    pub(crate) fn add_value(&mut self, key: Key, text: &[u8], at: usize) -> Result<(), WordsFault>
        ensures { (words : List (List ℕ)) (verb : VerbValue) → Judges (judged_piece words verb (value at key text.now) self.old) result self.new }
    {
        if self.given.set(key, text) {
            Ok(())
        } else {
            Err(WordsFault::Usage { word: at })
        }
    }

    /// Takes an option, with its value where that is in the same word, and says what the next word is.
    fn add_option(&mut self, verb: Verb, word: &[u8], at: usize) -> Result<Expects, WordsFault>
        ensures said { (words : List (List ℕ)) → Judges (judged words verb (option_pieces at word.now (halves word.now)) self.old) result self.new }
        ensures next { IfOk result (λ next. next ≡ behind_option word.now (halves word.now)) }
    {
        match halves(word) {
            None => {
                let key = self.option(verb, word, at)?;
                Ok(Expects::Value(key))
            }
            Some((name, text)) => {
                let key = self.option(verb, name, at)?;
                self.add_value(key, text, at)?;
                Ok(Expects::Anything)
            }
        }
    }

    /// Takes the pieces of a word, where they can stand, and says what the next word is.
    pub(crate) fn add_word(
        &mut self,
        words: &[Word],
        verb: Verb,
        expects: Expects,
        at: usize,
    ) -> Result<Expects, WordsFault>
        ensures said { Judges (judged words.now verb (word_pieces expects at (text_at words.now at)) self.old) result self.new }
        ensures next { IfOk result (λ next. next ≡ behind_word expects (text_at words.now at)) }
    {
        let word = text_at(words, at);
        match expects {
            Expects::Value(key) => {
                self.add_value(key, word, at)?;
                Ok(Expects::Anything)
            }
            Expects::Anything if is_option(word) => {
                if word == b"--".as_slice() {
                    return Ok(Expects::Operands);
                }
                self.add_option(verb, word, at)
            }
            _ => {
                self.add_operand(words, verb, at)?;
                Ok(expects)
            }
        }
    }

    /// Whether no word is missing behind these.
    pub(crate) fn is_whole(&self, words: &[Word], verb: Verb, expects: Expects) -> bool
        ensures { result ≡ can_stand words.now verb self.now.operands self.now.given (last_piece expects (length words.now)) }
    {
        match expects {
            Expects::Value(_) => false,
            _ => are_all(words, verb, self.operands.as_slice()),
        }
    }
}
