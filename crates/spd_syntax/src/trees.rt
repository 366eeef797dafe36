//! Trees as they are written.

ghost use Rattle.std.specs.Prelude.{◌≡◌, List, ◌∷◌, [], ◌<◌, ◌+◌, length, IfOk, IfErr, if◌then◌else◌, false};
ghost use Rattle.spd_lex.specs.declared.token.Token.{Token as TokenValue};
ghost use Rattle.spd_syntax.specs.declared.file.Branch.{Branch as BranchValue};
ghost use Rattle.spd_syntax.specs.Words.{unmarked};
ghost use Rattle.spd_syntax.specs.Positions.{tree, inside, more_branches, branch_value, after_primed};
ghost use Rattle.spd_syntax.specs.Grammar.{One, IsTree, IsInside, HaveBranches, IsBranch, IsHead};
ghost use Rattle.spd_syntax.specs.Reading.{Fails, Lacks, behind_head};

use crate::file::{Branch, Quantity, Shape, Word};
use crate::numbers::number_of;
use crate::reader::{Reader, behind};
use crate::refusal::{Refusal, Want, What};
use crate::unread::Unread;
use crate::words::{front_of, is_number_word, is_primed, name_passes, unmarked, value_passes};
use spd_lex::{Kind, Token};
use sqlite_items::Items;

/// What is wanted behind the name of a choice.
fn behind_name(primed: bool) -> Want
    ensures { result ≡ (if primed then Want.Open else Want.Close) }
{
    if primed { Want::Open } else { Want::Close }
}

impl Reader<'_> {
    /// A tree with n trees round it, and the tokens behind it.
    #[cycle(nest)]
    pub(crate) fn tree<'t>(
        &self,
        quantity: Quantity,
        n: u32,
        tokens: &'t [Token],
    ) -> Result<(Shape, &'t [Token]), Unread>
        ensures ok { IfOk result (λ x. IsTree self.now.file.now quantity n x.0 tokens.now x.1.now) }
        ensures err { IfErr result (Fails self.now.file.now (tree quantity n ∷ []) tokens.now) }
        ensures shorter { IfOk result (λ x. length x.1.now < length tokens.now) }
    {
        let rest = self.bracket(Kind::Open, Want::Open, tokens)?;
        if n >= 300 {
            return Err(Unread::Refused(Refusal::TooMany {
                at: tokens[0].from as usize,
                what: What::Nesting,
            }));
        }
        self.inside(quantity, n, rest)
    }

    /// What stands behind the `(` of a tree.
    #[cycle(nest)]
    pub(crate) fn inside<'t>(
        &self,
        quantity: Quantity,
        n: u32,
        tokens: &'t [Token],
    ) -> Result<(Shape, &'t [Token]), Unread>
        requires { n < 300 }
        ensures ok { IfOk result (λ x. IsInside self.now.file.now quantity n x.0 tokens.now x.1.now) }
        ensures err { IfErr result (Fails self.now.file.now (inside quantity n ∷ []) tokens.now) }
        ensures shorter { IfOk result (λ x. length x.1.now < length tokens.now) }
    {
        let (word, rest) = self.word(Want::Name, tokens)?;
        let text = self.text(word);
        if is_number_word(text) {
            let units = number_of(quantity, word.from as usize, text)?;
            let rest = self.bracket(Kind::Close, Want::Close, rest)?;
            return Ok((Shape::Number { word, units }, rest));
        }
        if is_primed(text) {
            name_passes(Want::Name, word.from as usize, front_of(text))?;
            return self.choice(quantity, n, word, true, rest);
        }
        name_passes(Want::Name, word.from as usize, text)?;
        if let Some(rest) = behind(Kind::Close, rest) {
            return Ok((Shape::Use { name: word }, rest));
        }
        self.choice(quantity, n, word, false, rest)
    }

    /// The branches of a choice whose name was read, and the end of its tree.
    #[cycle(nest)]
    fn choice<'t>(
        &self,
        quantity: Quantity,
        n: u32,
        head: Word,
        primed: bool,
        tokens: &'t [Token],
    ) -> Result<(Shape, &'t [Token]), Unread>
        requires shallow { n < 300 }
        requires other { primed ≡ false → Lacks Kind.Close tokens.now }
        ensures ok { IfOk result (λ x. (branches : List BranchValue) × (b : List TokenValue) × (x.0 ≡ Shape.Choice (unmarked primed head) primed branches)
            × HaveBranches self.now.file.now quantity n branches tokens.now b × One Kind.Close b x.1.now × (0 < length branches)) }
        ensures err { IfErr result (Fails self.now.file.now (behind_head quantity n primed ∷ []) tokens.now) }
        ensures shorter { IfOk result (λ x. length x.1.now < length tokens.now) }
    {
        let mut rest = tokens;
        let mut branches = Items::new(self.alloc);
        while let Some(inside) = behind(Kind::Open, rest) {
            let (branch, after) = self.branch(quantity, n, inside)?;
            branches.push(branch)?;
            rest = after;
        }
        if branches.as_slice().is_empty() {
            return Err(Unread::Refused(self.expected(behind_name(primed), rest)));
        }
        let after = self.bracket(Kind::Close, Want::Close, rest)?;
        Ok((
            Shape::Choice {
                name: unmarked(primed, head),
                primed,
                branches,
            },
            after,
        ))
    }

    /// A branch behind its `(`, and the tokens behind it.
    #[cycle(nest)]
    fn branch<'t>(
        &self,
        quantity: Quantity,
        n: u32,
        tokens: &'t [Token],
    ) -> Result<(Branch, &'t [Token]), Unread>
        requires { n < 300 }
        ensures ok { IfOk result (λ x. IsBranch self.now.file.now quantity n x.0 tokens.now x.1.now) }
        ensures err { IfErr result (Fails self.now.file.now (branch_value quantity n ∷ []) tokens.now) }
        ensures shorter { IfOk result (λ x. length x.1.now < length tokens.now) }
    {
        let (value, rest) = self.word(Want::Value, tokens)?;
        value_passes(Want::Value, value.from as usize, self.text(value))?;
        let (tree, rest) = self.tree(quantity, n + 1, rest)?;
        let after = self.bracket(Kind::Close, Want::Close, rest)?;
        Ok((Branch { value, tree }, after))
    }
}
