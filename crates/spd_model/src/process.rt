//! The factored process, and the numbers that its trees come to.

ghost use Rattle.std.specs.Prelude.{◌≡◌, if◌then◌else◌, All};
ghost use Rattle.spd_model.specs.Lawful.{Fits};
ghost use Rattle.spd_model.specs.States.{sizes, IsState};
ghost use Rattle.spd_model.specs.Trees.{parts_of, value_of};

use crate::{Name, State, Tree};
use sqlite_items::Items;

/// A variable: its name, and the names of its values in order.
#[derive(Debug, Drop)]
pub struct Var {
    pub name: Name,
    pub values: Items<Name>,
}

/// An action: its name, one table of probabilities per variable in order, and the parts of its cost.
#[derive(Debug, Drop)]
pub struct Action {
    pub name: Name,
    pub tables: Items<Tree>,
    pub cost: Items<Tree>,
}

/// A factored Markov decision process.
///
/// The discount counts in units of 10^-6, the tolerance in units of 10^-9. The horizon is a number of steps, where one is stated.
/// Variables, values, actions and decision diagrams are numbered from 0 in the order of the file.
#[derive(Debug, Drop)]
pub struct Model {
    pub vars: Items<Var>,
    pub dds: Items<Tree>,
    pub actions: Items<Action>,
    pub reward: Items<Tree>,
    pub discount: u32,
    pub tolerance: i128,
    pub horizon: Option<u32>,
}

impl std::marker::Model for Model {
    ghost use Rattle.spd_model.specs.Process.{Process};
    ghost use Rattle.spd_model.specs.contracts.tree.Tree as tree;
    ghost use Rattle.std.specs.Coded.{codes};

    ghost Value = { Process };

    ghost coded = { Prim.hlevel (codes, tree.the_row.coded) };

    ghost use Rattle.spd_model.specs.Lawful.{process_of, IsKept};

    ghost view = { process_of };

    ghost invariant = { IsKept };
}

/// The state that a branch follows: the next one, `t`, where it is primed, else the present one, `s`.
fn followed<'a>(primed: bool, s: &'a State, t: &'a State) -> &'a State
    ensures { result.now ≡ (if primed then t.now else s.now) }
{
    if primed { t } else { s }
}

impl Model {
    /// The number that is reached in a tree by following `s` at plain names and `t` at primed names, in units of 10^-12.
    pub fn value(&self, tree: &Tree, s: &State, t: &State) -> i128
        requires fits { All (Fits self.now) (parts_of self.now tree.now) }
        requires present { IsState (sizes self.now) s.now }
        requires next { IsState (sizes self.now) t.now }
        ensures { result ≡ value_of self.now tree.now s.now t.now }
    {
        let mut reached = tree;
        loop {
            match reached {
                Tree::Leaf(number) => return *number,
                Tree::Named(diagram) => reached = &self.dds.as_slice()[*diagram as usize],
                Tree::Branch { var, primed, kids } => {
                    let value = followed(*primed, s, t).get(*var as usize);
                    reached = &kids.as_slice()[value as usize];
                }
            }
        }
    }
}
