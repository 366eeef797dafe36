//! Reading a line.

ghost use Rattle.std.specs.Prelude.{◌≡◌, ◌<◌, ◌≤◌, All, length, map, Ok, Err, IfSome, IfOk, MatchResult};
ghost use Rattle.spd_model.specs.declared.process.Var.{Var as Variable};
ghost use Rattle.spd_model.specs.States.{sizes, IsState};
ghost use Rattle.spd_query.specs.declared.line.Query.TheVariants.{State as AtState};
ghost use Rattle.spd_query.specs.inner.Places.{AreVars, FitsQuery, IsAtWord, Stands};
ghost use Rattle.spd_query.specs.Lines.{words_of, with_pair, with_word, with_words, gathered, state_of_words, query_of};

use crate::line::{Query, Reason};
use crate::names::{Hints, numbers};
use crate::pair::{pair_at, sides};
use crate::words::{all_may_stand, first_word, split_word, without_blank, without_blanks};
use spd_model::{Model, State, Var};

/// A line has at most so many bytes.
const MOST: usize = 4096;

/// Gives a variable a value.
fn give(given: &mut [Option<u8>], var: usize, value: u8) -> Result<(), Reason>
    requires { var < length given.old }
    ensures { MatchResult result (λ _. with_pair given.old (var, value) ≡ Ok given.new) (λ reason. with_pair given.old (var, value) ≡ Err reason) }
{
    if given[var].is_some() {
        return Err(Reason::Twice);
    }
    given[var] = Some(value);
    Ok(())
}

/// Takes the value that a word gives a variable.
fn take_word(vars: &[Var], given: &mut [Option<u8>], word: &[u8]) -> Result<(), Reason>
    requires vars { AreVars vars.now }
    requires one_each { length given.old ≡ length vars.now }
    ensures { MatchResult result (λ _. with_word vars.now given.old word.now ≡ Ok given.new) (λ reason. with_word vars.now given.old word.now ≡ Err reason) }
{
    let Some((name, value)) = sides(word) else {
        return Err(Reason::Pair);
    };
    let Some((var, value)) = numbers(vars, name, value) else {
        return Err(Reason::Unknown);
    };
    give(given, var, value)
}

/// Takes the value that the first word of a line gives a variable, and returns what stands behind the word. A word that the hints don't lead
/// to is at fault, so that all names are searched at most once for a line.
fn take_first<'a>(
    vars: &[Var],
    hints: &mut Hints,
    given: &mut [Option<u8>],
    line: &'a [u8],
) -> Result<&'a [u8], Reason>
    requires vars { AreVars vars.now }
    requires one_each { length given.old ≡ length vars.now }
    requires some { 0 < length line.now }
    requires at_word { IsAtWord line.now }
    ensures words { MatchResult result (λ behind. with_words vars.now given.old (words_of line.now) ≡ with_words vars.now given.new (words_of behind.now)) (λ reason. with_words vars.now given.old (words_of line.now) ≡ Err reason) }
    ensures shorter { IfOk result (λ behind. length behind.now < length line.now) }
{
    if let Some((var, value, behind)) = hints.pair(vars, line) {
        give(given, var, value)?;
        return Ok(behind);
    }
    let (word, behind) = first_word(line);
    take_word(vars, given, word)?;
    Ok(behind)
}

/// Takes the values that the words of a line give the variables.
fn take_words(vars: &[Var], given: &mut [Option<u8>], line: &[u8]) -> Result<(), Reason>
    requires vars { AreVars vars.now }
    requires one_each { length given.old ≡ length vars.now }
    ensures { MatchResult result (λ _. with_words vars.now given.old (words_of line.now) ≡ Ok given.new) (λ reason. with_words vars.now given.old (words_of line.now) ≡ Err reason) }
{
    let mut hints = Hints::new();
    let mut rest = without_blanks(line);
    while !rest.is_empty() {
        let behind = take_first(vars, &mut hints, given, rest)?;
        rest = without_blanks(behind);
    }
    Ok(())
}

/// The state of these values, where there is one for each variable.
fn gather(given: &[Option<u8>]) -> Option<State>
    requires { length given.now ≤ 100 }
    ensures { result ≡ gathered given.now }
{
    let mut values = [0; 100];
    for (var, value) in given.iter().enumerate() {
        match value {
            Some(value) => values[var] = *value,
            None => return None,
        }
    }
    Some(State::of(&values[..given.len()]))
}

/// The state of a line whose pairs stand in the order of the variables, with one blank between two of them: so most clients write. Any other line is
/// read word by word.
#[inline(never)]
fn state_in_order(vars: &[Var], line: &[u8]) -> Option<State>
    requires { AreVars vars.now }
    ensures read { IfSome result (λ state. state_of_words vars.now (words_of line.now) ≡ Ok state) }
    ensures stands { IfSome result (λ _. All Stands (words_of line.now)) }
{
    let mut values = [0; 100];
    let mut rest = without_blank(line);
    for number in 0..vars.len() {
        let (value, behind) = pair_at(vars, number, rest)?;
        values[number] = value;
        rest = without_blank(behind);
    }
    if rest.is_empty() {
        Some(State::of(&values[..vars.len()]))
    } else {
        None
    }
}

/// The same for a line that begins with `state`. Names hold no byte that may not stand, so no further look at the bytes is needed.
fn line_in_order(vars: &[Var], line: &[u8]) -> Option<State>
    requires vars { AreVars vars.now }
    requires short { length line.now ≤ 4096 }
    ensures read { IfSome result (λ state. query_of vars.now line.now ≡ Ok (AtState state)) }
    ensures fits { IfSome result (IsState (map (λ (x : Variable). length x.values) vars.now)) }
{
    let (word, rest) = split_word(line)?;
    if word != b"state".as_slice() {
        return None;
    }
    state_in_order(vars, rest)
}

/// The state that the words of a line name.
fn read_state(vars: &[Var], line: &[u8]) -> Result<State, Reason>
    requires { AreVars vars.now }
    ensures read { result ≡ state_of_words vars.now (words_of line.now) }
    ensures fits { IfOk result (IsState (map (λ (x : Variable). length x.values) vars.now)) }
{
    let mut given = [None; 100];
    let given = &mut given[..vars.len()];
    match take_words(vars, given, line) {
        Ok(()) => gather(given).ok_or(Reason::Missing),
        Err(reason) => Err(reason),
    }
}

/// What a line asks for, or why it is refused.
pub(crate) fn read_line(line: &[u8], model: &Model) -> Result<Query, Reason>
    ensures read { result ≡ query_of model.now.vars line.now }
    ensures fits { IfOk result (FitsQuery (sizes model.now)) }
{
    if line.len() > MOST {
        return Err(Reason::Long);
    }
    if let Some(state) = line_in_order(model.vars.as_slice(), line) {
        return Ok(Query::State(state));
    }
    if !all_may_stand(line) {
        return Err(Reason::Byte);
    }
    let Some((word, rest)) = split_word(line) else {
        return Err(Reason::Word);
    };
    if word == b"state".as_slice() {
        return match read_state(model.vars.as_slice(), rest) {
            Ok(state) => Ok(Query::State(state)),
            Err(reason) => Err(reason),
        };
    }
    if word == b"status".as_slice() && split_word(rest).is_none() {
        return Ok(Query::Status);
    }
    Err(Reason::Word)
}
