//! The variables of a file, and names that are declared.

ghost use Rattle.std.specs.Prelude.{◌≡◌, ℕ, List, ◌∷◌, [], ◌<◌, ◌≤◌, ◌+◌, ◌-◌, length, IfOk, IfErr, MatchOption, None};
ghost use Rattle.spd_lex.specs.declared.token.Token.{Token as TokenValue};
ghost use Rattle.spd_syntax.specs.declared.file.Counts.{Counts as CountsValue};
ghost use Rattle.spd_syntax.specs.Words.{text_of};
ghost use Rattle.spd_syntax.specs.Positions.{Position, first_variable, first_value, variable_name, none_yet, one_variable};
ghost use Rattle.spd_syntax.specs.Grammar.{One, AWord};
ghost use Rattle.spd_syntax.specs.Files.{Each, AName, AValue, HasValues, AVariable, AreVariables, after_variable};
ghost use Rattle.spd_syntax.specs.Reading.{Faults, Fails, Lacks, NamesAt, value_judged};

use crate::file::{Counts, Variable, Word};
use crate::reader::{Reader, behind};
use crate::refusal::{Refusal, Want, What};
use crate::unread::Unread;
use crate::words::{name_passes, value_passes};
use spd_lex::{Kind, Token};
use sqlite_items::Items;

/// Before anything was read.
fn none_yet() -> Counts
    ensures { result ≡ none_yet }
{
    Counts {
        vars: 0,
        tests: 0,
        dds: 0,
        actions: 0,
        reward: false,
        discount: false,
        stop: false,
    }
}

/// Behind the name of one variable more.
fn one_variable(counts: Counts) -> Counts
    requires { counts.vars < 100 }
    ensures { result ≡ one_variable counts }
{
    Counts {
        vars: counts.vars + 1,
        ..counts
    }
}

/// Behind a variable.
fn after_variable(counts: Counts, variable: &Variable) -> Counts
    requires vars { counts.vars < 100 }
    requires tests { counts.tests + (length variable.now.values - 1) ≤ 256 }
    requires some { 0 < length variable.now.values }
    ensures { result ≡ after_variable counts variable.now }
{
    let more = variable.values.as_slice().len() - 1;
    Counts {
        vars: counts.vars + 1,
        tests: counts.tests + more as u32,
        ..counts
    }
}

/// The word that stands first, where one does, and the tokens behind it.
pub(crate) fn next_word(tokens: &[Token]) -> Option<(Word, &[Token])>
    ensures { MatchOption result (Lacks Kind.Word tokens.now) (λ x. AWord x.0 tokens.now x.1.now) }
{
    match tokens {
        [first, rest @ ..] if first.kind == Kind::Word => Some((
            Word {
                from: first.from,
                to: first.to,
            },
            rest,
        )),
        _ => None,
    }
}

impl Reader<'_> {
    /// A name that is declared, of which there are `count` where at most `most` may be.
    pub(crate) fn declared<'t>(
        &self,
        what: What,
        most: u32,
        count: u32,
        tokens: &'t [Token],
    ) -> Result<(Word, &'t [Token]), Refusal>
        ensures ok { IfOk result (λ x. AName self.now.file.now x.0 tokens.now x.1.now) }
        ensures room { IfOk result (λ x. count < most) }
        ensures err { IfErr result (λ f. (p : Position) (qs : List Position) → NamesAt p what most count qs → Faults self.now.file.now (p ∷ []) tokens.now f) }
    {
        let (word, rest) = self.word(Want::Name, tokens)?;
        name_passes(Want::Name, word.from as usize, self.text(word))?;
        if count >= most {
            return Err(Refusal::TooMany {
                at: word.from as usize,
                what,
            });
        }
        Ok((word, rest))
    }

    /// The first value of a variable.
    fn first_value<'t>(&self, tokens: &'t [Token]) -> Result<(Word, &'t [Token]), Refusal>
        ensures ok { IfOk result (λ x. AValue self.now.file.now x.0 tokens.now x.1.now) }
        ensures err { IfErr result (λ f. (c : CountsValue) → Faults self.now.file.now (first_value c ∷ []) tokens.now f) }
    {
        let (word, rest) = self.word(Want::Value, tokens)?;
        value_passes(Want::Value, word.from as usize, self.text(word))?;
        Ok((word, rest))
    }

    /// Judges a further value of a variable, of which so many values and tests were read.
    fn further_value(&self, count: usize, tests: u32, word: Word) -> Result<(), Refusal>
        ensures { result ≡ value_judged count tests word.from (text_of self.now.file.now word) }
    {
        let at = word.from as usize;
        value_passes(Want::Close, at, self.text(word))?;
        if count >= 64 {
            return Err(Refusal::TooMany {
                at,
                what: What::Values,
            });
        }
        if tests >= 256 {
            return Err(Refusal::TooMany {
                at,
                what: What::Tests,
            });
        }
        Ok(())
    }

    /// The values of a variable, and the end of it.
    fn values<'t>(
        &self,
        counts: Counts,
        tokens: &'t [Token],
    ) -> Result<(Items<Word>, &'t [Token]), Unread>
        requires { counts.tests ≤ 256 }
        ensures ok { IfOk result (λ x. HasValues self.now.file.now counts x.0 tokens.now x.1.now) }
        ensures err { IfErr result (Fails self.now.file.now (first_value counts ∷ []) tokens.now) }
        ensures shorter { IfOk result (λ x. length x.1.now < length tokens.now) }
    {
        let (first, mut rest) = self.first_value(tokens)?;
        let mut values = Items::new(self.alloc);
        values.push(first)?;
        while let Some((word, after)) = next_word(rest) {
            let count = values.as_slice().len();
            self.further_value(count, counts.tests + (count - 1) as u32, word)?;
            values.push(word)?;
            rest = after;
        }
        let rest = self.bracket(Kind::Close, Want::Close, rest)?;
        Ok((values, rest))
    }

    /// A variable behind its `(`.
    fn variable<'t>(
        &self,
        counts: Counts,
        tokens: &'t [Token],
    ) -> Result<(Variable, &'t [Token]), Unread>
        requires { counts.tests ≤ 256 }
        ensures ok { IfOk result (λ x. AVariable self.now.file.now counts x.0 tokens.now x.1.now) }
        ensures err { IfErr result (Fails self.now.file.now (variable_name counts ∷ []) tokens.now) }
        ensures shorter { IfOk result (λ x. length x.1.now < length tokens.now) }
    {
        let (name, rest) = self.declared(What::Variables, 100, counts.vars, tokens)?;
        let (values, rest) = self.values(one_variable(counts), rest)?;
        Ok((Variable { name, values }, rest))
    }

    /// The variables of a file, and the `)` behind them.
    pub(crate) fn variables<'t>(
        &self,
        tokens: &'t [Token],
    ) -> Result<(Items<Variable>, Counts, &'t [Token]), Unread>
        ensures ok { IfOk result (λ x. (b : List TokenValue) × AreVariables self.now.file.now none_yet x.0 x.1 tokens.now b × One Kind.Close b x.2.now × (0 < length x.0)) }
        ensures err { IfErr result (Fails self.now.file.now (first_variable ∷ []) tokens.now) }
    {
        let mut rest = tokens;
        let mut counts = none_yet();
        let mut variables = Items::new(self.alloc);
        while let Some(inside) = behind(Kind::Open, rest) {
            let (variable, after) = self.variable(counts, inside)?;
            counts = after_variable(counts, &variable);
            variables.push(variable)?;
            rest = after;
        }
        if variables.as_slice().is_empty() {
            return Err(Unread::Refused(self.expected(Want::Open, rest)));
        }
        let rest = self.bracket(Kind::Close, Want::Close, rest)?;
        Ok((variables, counts, rest))
    }
}
