//! The names of sections, and the model that they make.

ghost use Rattle.std.specs.Prelude.{◌≡◌, ◌<◌, ◌^◌, map, IfOk, IfSome, OnOk, Some, is_some, unsigned_abs};
ghost use Rattle.std.specs.Option.{option_map};
ghost use Rattle.spd_reader.specs.declared.dd.Dd.{Dd as DdValue};
ghost use Rattle.spd_model.specs.Lawful.{IsLawful};
ghost use Rattle.spd_reader.specs.Faults.{least, when};
ghost use Rattle.spd_reader.specs.Models.{action_names, with_section, section_faults, sections_of, sections_faults, process_of};
ghost use Rattle.spd_reader.specs.Scopes.{scope_of};
ghost use Rattle.spd_reader.specs.Saying.{said_by, before_sections, KeepsFile};

use crate::actions::MOST_NESTING;
use crate::dd::Dd;
use crate::faults::note_if;
use crate::index::Index;
use crate::names::Names;
use crate::purpose::Purpose;
use crate::said::Said;
use spd_model::{Model, Tree};
use spd_syntax::{Item, Quantity, Refusal, Section, Shape, Word};
use sqlite_items::Items;
use std::alloc::{AllocError, Global};

/// A setting stands: a second one is noted, and the last one counts.
fn set(setting: &mut Option<i128>, at: usize, units: i128, found: &mut Option<Refusal>)
    ensures means { setting.new ≡ Some units }
    ensures notes { found.new ≡ least found.old (when (is_some setting.old) (Refusal.Twice at)) }
{
    note_if(found, setting.is_some(), Refusal::Twice { at });
    *setting = Some(units);
}

/// The trees of decision diagrams.
fn trees_of(alloc: Global, dds: Vec<Dd>) -> Result<Items<Tree>, AllocError>
    ensures { IfOk result (λ trees. trees ≡ map (λ (d : DdValue). d.tree) dds.items) }
{
    let mut trees = Items::new(alloc);
    for dd in dds {
        trees.push(dd.tree)?;
    }
    Ok(trees)
}

/// A number of steps.
fn steps(horizon: Option<i128>) -> Option<u32>
    requires { IfSome (option_map unsigned_abs horizon) (λ steps. steps < 2 ^ 32) }
    ensures { result ≡ option_map unsigned_abs horizon }
{
    match horizon {
        Some(steps) => Some(steps.unsigned_abs() as u32),
        None => None,
    }
}

impl Said<'_> {
    /// A decision diagram.
    fn dd(
        &mut self,
        name: Word,
        shape: &Shape,
        found: &mut Option<Refusal>,
    ) -> Result<(), AllocError>
        requires { self.old.action_index ≡ action_names self.old.actions }
        ensures kept { OnOk result (KeepsFile self.old self.new) }
        ensures means { OnOk result (said_by self.new ≡ with_section self.old.names.file.now (said_by self.old) (Section.Dd name shape.now)) }
        ensures notes { OnOk result (found.new ≡ least found.old (section_faults self.old.names.file.now (said_by self.old) (Section.Dd name shape.now))) }
    {
        let text = self.names.text(name);
        let twice = self.names.dd_index.contains(text);
        note_if(
            found,
            twice,
            Refusal::Twice {
                at: name.from as usize,
            },
        );
        let tree = self
            .names
            .tree(Purpose::Diagram, MOST_NESTING, shape, found)?;
        self.names.declare(text, tree)?;
        Ok(())
    }

    /// An action, whose `endaction` is the word at its end.
    fn action(
        &mut self,
        name: Word,
        items: &[Item],
        end: Word,
        found: &mut Option<Refusal>,
    ) -> Result<(), AllocError>
        requires { self.old.action_index ≡ action_names self.old.actions }
        ensures kept { OnOk result (KeepsFile self.old self.new) }
        ensures means { OnOk result (said_by self.new ≡ with_section self.old.names.file.now (said_by self.old) (Section.Action name items.now end)) }
        ensures notes { OnOk result (found.new ≡ least found.old (section_faults self.old.names.file.now (said_by self.old) (Section.Action name items.now end))) }
    {
        let text = self.names.text(name);
        let twice = self.action_index.contains(text);
        note_if(
            found,
            twice,
            Refusal::Twice {
                at: name.from as usize,
            },
        );
        let action = self.names.action(name, items, end, found)?;
        if !twice {
            self.action_index.declare(text)?;
            self.actions.push(action)?;
        }
        Ok(())
    }

    /// A reward.
    fn reward(
        &mut self,
        word: Word,
        parts: &[Shape],
        found: &mut Option<Refusal>,
    ) -> Result<(), AllocError>
        requires { self.old.action_index ≡ action_names self.old.actions }
        ensures kept { OnOk result (KeepsFile self.old self.new) }
        ensures means { OnOk result (said_by self.new ≡ with_section self.old.names.file.now (said_by self.old) (Section.Reward word parts.now)) }
        ensures notes { OnOk result (found.new ≡ least found.old (section_faults self.old.names.file.now (said_by self.old) (Section.Reward word parts.now))) }
    {
        let twice = self.reward.is_some();
        note_if(
            found,
            twice,
            Refusal::Twice {
                at: word.from as usize,
            },
        );
        self.reward = Some(self.names.amounts(parts, found)?);
        Ok(())
    }

    /// A discount, a tolerance or a horizon.
    #[tactic(auto, unfolding(crate::specs::Faults::least))]
    fn setting(&mut self, word: Word, quantity: Quantity, units: i128, found: &mut Option<Refusal>)
        requires { self.old.action_index ≡ action_names self.old.actions }
        ensures kept { KeepsFile self.old self.new }
        ensures means { said_by self.new ≡ with_section self.old.names.file.now (said_by self.old) (Section.Setting word quantity units) }
        ensures notes { found.new ≡ least found.old (section_faults self.old.names.file.now (said_by self.old) (Section.Setting word quantity units)) }
    {
        let at = word.from as usize;
        match quantity {
            Quantity::Discount => set(&mut self.discount, at, units, found),
            Quantity::Tolerance => set(&mut self.tolerance, at, units, found),
            Quantity::Horizon => set(&mut self.horizon, at, units, found),
            Quantity::Diagram | Quantity::Table | Quantity::Reward => {}
        }
    }

    /// A section.
    fn section(&mut self, section: &Section, found: &mut Option<Refusal>) -> Result<(), AllocError>
        requires { self.old.action_index ≡ action_names self.old.actions }
        ensures kept { OnOk result (KeepsFile self.old self.new) }
        ensures means { OnOk result (said_by self.new ≡ with_section self.old.names.file.now (said_by self.old) section.now) }
        ensures notes { OnOk result (found.new ≡ least found.old (section_faults self.old.names.file.now (said_by self.old) section.now)) }
    {
        match section {
            Section::Dd { name, tree } => self.dd(*name, tree, found)?,
            Section::Action { name, items, end } => {
                self.action(*name, items.as_slice(), *end, found)?;
            }
            Section::Reward { word, parts } => self.reward(*word, parts.as_slice(), found)?,
            Section::Setting {
                word,
                quantity,
                units,
            } => {
                self.setting(*word, *quantity, *units, found);
            }
        }
        Ok(())
    }

    /// The model that was said.
    pub(crate) fn into_model(self, alloc: Global) -> Result<Model, AllocError>
        requires { IsLawful (process_of (said_by self)) }
        ensures { IfOk result (λ m. m ≡ process_of (said_by self.entry)) }
    {
        let Said {
            names,
            actions,
            reward,
            discount,
            tolerance,
            horizon,
            ..
        } = self;
        let Names { vars, dds, .. } = names;
        Ok(Model {
            vars,
            dds: trees_of(alloc, dds)?,
            actions,
            reward: reward.unwrap_or(Items::new(alloc)),
            discount: discount.unwrap_or(0).unsigned_abs() as u32,
            tolerance: tolerance.unwrap_or(0),
            horizon: steps(horizon),
        })
    }
}

/// The sections of a file.
pub(crate) fn sections<'f>(
    names: Names<'f>,
    sections: &[Section],
    found: &mut Option<Refusal>,
) -> Result<Said<'f>, AllocError>
    ensures means { IfOk result (λ said. said_by said ≡ sections_of names.entry.file.now (before_sections (scope_of names.entry)) sections.now) }
    ensures notes { OnOk result (found.new ≡ least found.old (sections_faults names.entry.file.now (before_sections (scope_of names.entry)) sections.now)) }
{
    let alloc = names.alloc;
    let mut said = Said {
        names,
        action_index: Index::new(alloc),
        actions: Items::new(alloc),
        reward: None,
        discount: None,
        tolerance: None,
        horizon: None,
    };
    for section in sections {
        said.section(section, found)?;
    }
    Ok(said)
}
