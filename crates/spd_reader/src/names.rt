//! What is declared in a file, as far as it was read.

ghost use Rattle.std.specs.Prelude.{◌≡◌, [], map};
ghost use Rattle.spd_model.specs.declared.process.Var.{Var as VarValue};
ghost use Rattle.spd_model.specs.Trees.{read_diagrams};
ghost use Rattle.spd_reader.specs.declared.dd.Dd.{Dd as DdValue};
ghost use Rattle.spd_reader.specs.Trees.{var_names};
ghost use Rattle.spd_reader.specs.Facts.{facts};

use crate::dd::Dd;
use crate::index::Index;
use spd_model::Var;
use sqlite_items::Items;
use std::alloc::Global;

/// The variables of a file, and its decision diagrams so far.
#[derive(Drop)]
pub(crate) struct Names<'f> {
    pub alloc: Global,
    pub file: &'f [u8],
    pub vars: Items<Var>,
    /// The names of the variables.
    pub var_index: Index<'f>,
    /// The names of the values of each variable.
    pub value_indexes: Vec<Index<'f>>,
    /// The names of the decision diagrams.
    pub dd_index: Index<'f>,
    pub dds: Vec<Dd>,
    ghost named: { var_index ≡ var_names vars },
    ghost valued: { value_indexes.items ≡ map (λ (v : VarValue). v.values) vars },
    ghost known: { map (λ (d : DdValue). d.facts) dds.items ≡ read_diagrams facts [] (map (λ (d : DdValue). d.tree) dds.items) },
}
