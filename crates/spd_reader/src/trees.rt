//! The names of trees.

ghost use Rattle.std.specs.Prelude.{◌≡◌, ◌≤◌, length, map, IfOk, OnOk};
ghost use Rattle.spd_model.specs.Trees.{read_tree};
ghost use Rattle.spd_reader.specs.declared.dd.Dd.{Dd as DdValue};
ghost use Rattle.spd_reader.specs.Facts.{facts};
ghost use Rattle.spd_reader.specs.Faults.{least};
ghost use Rattle.spd_reader.specs.Trees.{no_trees, values_of, meaning, tree_faults};
ghost use Rattle.spd_reader.specs.Scopes.{scope_of, branches_by, faults_by};

use crate::facts::Facts;
use crate::faults::note_if;
use crate::lookups::note_name;
use crate::names::Names;
use crate::places::{has_gap, no_trees, note_place, put, trees_of};
use crate::purpose::Purpose;
use spd_model::Tree;
use spd_syntax::{Branch, Refusal, Shape};
use std::alloc::AllocError;

fn leaf(units: &i128) -> Tree
    ensures { result ≡ Tree.Leaf units.now }
{
    Tree::Leaf(*units)
}

impl Names<'_> {
    /// What a tree means. The faults of its names are noted, where it may nest `depth` deep.
    #[cycle(walk)]
    pub(crate) fn tree(
        &self,
        purpose: Purpose,
        depth: u32,
        shape: &Shape,
        found: &mut Option<Refusal>,
    ) -> Result<Tree, AllocError>
        requires { depth ≤ 300 }
        ensures means { IfOk result (λ tree. tree ≡ meaning self.now.file.now (scope_of self.now) shape.now) }
        ensures notes { OnOk result (found.new ≡ least found.old (tree_faults self.now.file.now (scope_of self.now) purpose depth shape.now)) }
    {
        match shape {
            Shape::Number { units, .. } => Ok(leaf(units)),
            Shape::Use { name } => {
                let dd = self.dd_index.number(self.text(*name));
                self.note_use(found, purpose, depth, name.from as usize, dd);
                Ok(Tree::Named(dd.unwrap_or(0)))
            }
            Shape::Choice {
                name,
                primed,
                branches,
            } => {
                let at = name.from as usize;
                let var = self.variable(*name);
                note_name(found, purpose, *primed, at, var);
                let inside = depth.saturating_sub(1);
                let places = self.branches(purpose, inside, var, branches.as_slice(), found)?;
                let missing = has_gap(places.as_slice());
                note_if(found, missing, Refusal::MissingBranch { at });
                let kids = trees_of(self.alloc, places)?;
                let var = var.unwrap_or(0);
                Ok(Tree::Branch {
                    var,
                    primed: *primed,
                    kids,
                })
            }
        }
    }

    /// The trees of branches, each in the place of its value. The faults of their names are noted.
    #[cycle(walk)]
    fn branches(
        &self,
        purpose: Purpose,
        depth: u32,
        var: Option<u32>,
        branches: &[Branch],
        found: &mut Option<Refusal>,
    ) -> Result<Vec<Option<Tree>>, AllocError>
        requires { depth ≤ 300 }
        ensures means { IfOk result (λ places. places.items ≡ branches_by self.now.file.now (scope_of self.now) (values_of (scope_of self.now) var) (no_trees (length (values_of (scope_of self.now) var))) branches.now) }
        ensures notes { OnOk result (found.new ≡ least found.old (faults_by self.now.file.now (scope_of self.now) purpose depth (values_of (scope_of self.now) var) (no_trees (length (values_of (scope_of self.now) var))) branches.now)) }
    {
        let mut places = no_trees(self.alloc, self.count_of_values(var))?;
        for branch in branches {
            let value = self.value(var, branch.value);
            note_place(found, places.as_slice(), branch.value.from as usize, value);
            let tree = self.tree(purpose, depth, &branch.tree, found)?;
            put(&mut places, value, tree);
        }
        Ok(places)
    }

    /// What a use of a decision diagram with this tree asks.
    pub(crate) fn facts(&self, tree: &Tree) -> Facts
        ensures { result ≡ read_tree facts (map (λ (d : DdValue). d.facts) self.now.dds.items) tree.now }
    {
        match tree {
            Tree::Leaf(units) => Facts::of_leaf(*units),
            Tree::Named(dd) => self.facts_of(*dd),
            Tree::Branch { var, primed, kids } => {
                let mut all = Facts::of_branch(*var, *primed);
                for kid in kids.as_slice() {
                    all = all.together(self.facts(kid));
                }
                all.deeper()
            }
        }
    }
}
