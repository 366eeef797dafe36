//! What names stand for where a tree stands.

ghost use Rattle.std.specs.Prelude.{◌≡◌, ◌<◌, ◌≤◌, length, map, slice_index_or, OnOk};
ghost use Rattle.spd_syntax.specs.Words.{text_of};
ghost use Rattle.spd_reader.specs.declared.dd.Dd.{Dd as DdValue};
ghost use Rattle.spd_reader.specs.Faults.{least};
ghost use Rattle.spd_reader.specs.Trees.{number_in, var_number, values_of, dd_parts, dd_nesting, name_faults, use_faults};
ghost use Rattle.spd_reader.specs.Facts.{facts_of, no_facts};
ghost use Rattle.spd_reader.specs.Models.{with_dd};
ghost use Rattle.spd_reader.specs.Scopes.{scope_of};

use crate::dd::Dd;
use crate::facts::Facts;
use crate::faults::{note, note_if};
use crate::names::Names;
use crate::purpose::Purpose;
use spd_model::Tree;
use spd_syntax::{Refusal, What, Word, text_of};
use std::alloc::AllocError;

/// Notes the faults of the name of a choice.
#[tactic(auto, unfolding(crate::specs::Faults::least))]
pub(crate) fn note_name(
    found: &mut Option<Refusal>,
    purpose: Purpose,
    primed: bool,
    at: usize,
    var: Option<u32>,
)
    ensures { found.new ≡ least found.old (name_faults purpose primed at var) }
{
    match var {
        None => note(found, Refusal::Unknown { at }),
        Some(var) => note_if(
            found,
            primed && !purpose.may_prime(var),
            Refusal::Primed { at },
        ),
    }
}

impl<'f> Names<'f> {
    pub(crate) fn text(&self, word: Word) -> &'f [u8]
        ensures { result.now ≡ text_of self.now.file.now word }
    {
        text_of(self.file, word)
    }

    /// The number of a variable, where it is declared.
    pub(crate) fn variable(&self, word: Word) -> Option<u32>
        ensures { result ≡ var_number (scope_of self.now) (text_of self.now.file.now word) }
    {
        self.var_index.number(self.text(word))
    }

    /// How many values a variable has.
    pub(crate) fn count_of_values(&self, var: Option<u32>) -> u32
        ensures { result ≡ length (values_of (scope_of self.now) var) }
    {
        match var {
            Some(var) if (var as usize) < self.value_indexes.len() => {
                self.value_indexes[var as usize].len()
            }
            _ => 0,
        }
    }

    /// The number of a value of a variable, where it is declared.
    pub(crate) fn value(&self, var: Option<u32>, word: Word) -> Option<u32>
        ensures { result ≡ number_in (values_of (scope_of self.now) var) (text_of self.now.file.now word) }
    {
        match var {
            Some(var) if (var as usize) < self.value_indexes.len() => {
                self.value_indexes[var as usize].number(self.text(word))
            }
            _ => None,
        }
    }

    /// What a use of a decision diagram asks.
    pub(crate) fn facts_of(&self, dd: u32) -> Facts
        ensures kept { result ≡ slice_index_or (map (λ (d : DdValue). d.facts) self.now.dds.items) dd no_facts }
        ensures told { result ≡ facts_of (dd_parts (scope_of self.now) dd) (dd_nesting (scope_of self.now) dd) }
    {
        if (dd as usize) < self.dds.len() {
            self.dds[dd as usize].facts
        } else {
            Facts::none()
        }
    }

    /// Notes the faults of a use of a decision diagram where a tree may nest `depth` deep.
    pub(crate) fn note_use(
        &self,
        found: &mut Option<Refusal>,
        purpose: Purpose,
        depth: u32,
        at: usize,
        dd: Option<u32>,
    )
        requires { depth ≤ 300 }
        ensures { found.new ≡ least found.old (use_faults (scope_of self.now) purpose depth at dd) }
    {
        match dd {
            None => note(found, Refusal::Unknown { at }),
            Some(dd) => {
                let facts = self.facts_of(dd);
                note_if(found, facts.primes_wrong(purpose), Refusal::Primed { at });
                note_if(
                    found,
                    facts.negative_wrong(purpose),
                    Refusal::Negative { at },
                );
                note_if(found, facts.fine_wrong(purpose), Refusal::TooFine { at });
                let what = What::Nesting;
                note_if(found, depth < facts.nesting, Refusal::TooMany { at, what });
            }
        }
    }

    /// Declares a decision diagram, which counts once.
    pub(crate) fn declare(&mut self, name: &'f [u8], tree: Tree) -> Result<(), AllocError>
        ensures file { self.new.file.now ≡ self.old.file.now }
        ensures means { OnOk result (scope_of self.new ≡ with_dd (scope_of self.old) name.now tree) }
    {
        if self.dd_index.contains(name) {
            return Ok(());
        }
        let facts = self.facts(&tree);
        self.dd_index.declare(name)?;
        self.dds.push(Dd { tree, facts })?;
        Ok(())
    }
}
