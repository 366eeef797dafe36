//! The names of actions.

ghost use Rattle.std.specs.Prelude.{◌≡◌, ◌<◌, ◌^◌, length, IfOk, IfSome, OnOk};
ghost use Rattle.spd_reader.specs.Faults.{least};
ghost use Rattle.spd_reader.specs.Models.{amounts_of, amounts_faults, no_items, with_item, item_faults, items_of, items_faults, missing_faults, action_of, action_faults};
ghost use Rattle.spd_reader.specs.Scopes.{scope_of, filled_of};

use crate::faults::{note, note_if};
use crate::names::Names;
use crate::places::{first_gap, no_trees, note_place, put, trees_of};
use crate::purpose::Purpose;
use crate::tables::Tables;
use spd_model::{Action, Tree};
use spd_syntax::{Item, Refusal, Shape, Word};
use sqlite_items::Items;
use std::alloc::AllocError;

/// How deep a tree may nest.
pub(crate) const MOST_NESTING: u32 = 300;

/// Notes the first variable without a table.
#[tactic(auto, unfolding(crate::specs::Faults::least))]
fn note_missing(found: &mut Option<Refusal>, at: usize, gap: Option<usize>)
    requires { IfSome gap (λ var. var < 2 ^ 32) }
    ensures { found.new ≡ least found.old (missing_faults at gap) }
{
    if let Some(var) = gap {
        note(
            found,
            Refusal::MissingVariable {
                at,
                var: var as u32,
            },
        );
    }
}

impl Names<'_> {
    /// The parts of a reward or of a cost.
    pub(crate) fn amounts(
        &self,
        trees: &[Shape],
        found: &mut Option<Refusal>,
    ) -> Result<Items<Tree>, AllocError>
        ensures means { IfOk result (λ amounts. amounts ≡ amounts_of self.now.file.now (scope_of self.now) trees.now) }
        ensures notes { OnOk result (found.new ≡ least found.old (amounts_faults self.now.file.now (scope_of self.now) trees.now)) }
    {
        let mut amounts = Items::new(self.alloc);
        for shape in trees {
            let tree = self.tree(Purpose::Reward, MOST_NESTING, shape, found)?;
            amounts.push(tree)?;
        }
        Ok(amounts)
    }

    /// Puts an item of an action in its place.
    fn item(
        &self,
        item: &Item,
        filled: &mut Tables,
        found: &mut Option<Refusal>,
    ) -> Result<(), AllocError>
        ensures means { OnOk result (filled_of filled.new ≡ with_item self.now.file.now (scope_of self.now) (filled_of filled.old) item.now) }
        ensures notes { OnOk result (found.new ≡ least found.old (item_faults self.now.file.now (scope_of self.now) (filled_of filled.old) item.now)) }
    {
        match item {
            Item::Table { name, tree } => {
                let var = self.variable(*name);
                note_place(found, filled.tables.as_slice(), name.from as usize, var);
                let purpose = Purpose::Table(var.unwrap_or(0));
                let table = self.tree(purpose, MOST_NESTING, tree, found)?;
                put(&mut filled.tables, var, table);
            }
            Item::Cost { word, parts } => {
                let twice = filled.cost.is_some();
                note_if(
                    found,
                    twice,
                    Refusal::Twice {
                        at: word.from as usize,
                    },
                );
                filled.cost = Some(self.amounts(parts.as_slice(), found)?);
            }
        }
        Ok(())
    }

    /// The items of an action.
    fn items(&self, items: &[Item], found: &mut Option<Refusal>) -> Result<Tables, AllocError>
        ensures means { IfOk result (λ t. filled_of t ≡ items_of self.now.file.now (scope_of self.now) (no_items (scope_of self.now)) items.now) }
        ensures notes { OnOk result (found.new ≡ least found.old (items_faults self.now.file.now (scope_of self.now) (no_items (scope_of self.now)) items.now)) }
        ensures count { IfOk result (λ t. length t.tables.items < 2 ^ 32) }
    {
        let count = self.var_index.len();
        let mut filled = Tables {
            tables: no_trees(self.alloc, count)?,
            cost: None,
        };
        for item in items {
            self.item(item, &mut filled, found)?;
        }
        Ok(filled)
    }

    /// An action, whose `endaction` is the word at its end.
    pub(crate) fn action(
        &self,
        name: Word,
        items: &[Item],
        end: Word,
        found: &mut Option<Refusal>,
    ) -> Result<Action, AllocError>
        ensures means { IfOk result (λ action. action ≡ action_of self.now.file.now (scope_of self.now) name items.now) }
        ensures notes { OnOk result (found.new ≡ least found.old (action_faults self.now.file.now (scope_of self.now) items.now end)) }
    {
        let Tables { tables, cost } = self.items(items, found)?;
        note_missing(found, end.from as usize, first_gap(tables.as_slice()));
        Ok(Action {
            name: Items::from_slice(self.alloc, self.text(name))?,
            tables: trees_of(self.alloc, tables)?,
            cost: cost.unwrap_or(Items::new(self.alloc)),
        })
    }
}
