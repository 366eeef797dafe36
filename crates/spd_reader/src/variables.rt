//! The variables of a file.

ghost use Rattle.std.specs.Prelude.{◌≡◌, [], IfOk, OnOk};
ghost use Rattle.spd_reader.specs.Faults.{least};
ghost use Rattle.spd_reader.specs.Models.{value_names, value_faults, var_of, variables_of, variables_faults};
ghost use Rattle.spd_reader.specs.Scopes.{scope_of, with_variables};

use crate::faults::note_if;
use crate::index::Index;
use crate::names::Names;
use spd_model::Var;
use spd_syntax::{Refusal, Variable, Word, text_of};
use sqlite_items::Items;
use std::alloc::{AllocError, Global};

/// The names of values. A value that is declared a second time is noted.
fn value_names<'f>(
    alloc: Global,
    file: &'f [u8],
    words: &[Word],
    found: &mut Option<Refusal>,
) -> Result<Index<'f>, AllocError>
    ensures means { IfOk result (λ names. names ≡ value_names file.now [] words.now) }
    ensures notes { OnOk result (found.new ≡ least found.old (value_faults file.now [] words.now)) }
{
    let mut names = Index::new(alloc);
    for word in words {
        let name = text_of(file, *word);
        let twice = names.contains(name);
        note_if(
            found,
            twice,
            Refusal::Twice {
                at: word.from as usize,
            },
        );
        names.declare(name)?;
    }
    Ok(names)
}

/// A variable, with the numbers of its values.
fn variable<'f>(
    alloc: Global,
    file: &'f [u8],
    variable: &Variable,
    found: &mut Option<Refusal>,
) -> Result<(Var, Index<'f>), AllocError>
    ensures means { IfOk result (λ x. x.0 ≡ var_of file.now variable.now) }
    ensures values { IfOk result (λ x. x.1 ≡ x.0.values) }
    ensures notes { OnOk result (found.new ≡ least found.old (value_faults file.now [] variable.now.values)) }
{
    let index = value_names(alloc, file, variable.values.as_slice(), found)?;
    let name = Items::from_slice(alloc, text_of(file, variable.name))?;
    let values = index.names(alloc)?;
    Ok((Var { name, values }, index))
}

/// The variables of a file. A variable or a value that is declared a second time is noted.
pub(crate) fn variables<'f>(
    alloc: Global,
    file: &'f [u8],
    variables: &[Variable],
    found: &mut Option<Refusal>,
) -> Result<Names<'f>, AllocError>
    ensures file { IfOk result (λ names. names.file.now ≡ file.now) }
    ensures means { IfOk result (λ names. scope_of names ≡ with_variables (variables_of file.now [] variables.now)) }
    ensures notes { OnOk result (found.new ≡ least found.old (variables_faults file.now [] variables.now)) }
{
    let mut vars = Items::new(alloc);
    let mut var_index = Index::new(alloc);
    let mut value_indexes = Vec::new(alloc);
    for declared in variables {
        let name = text_of(file, declared.name);
        let twice = var_index.contains(name);
        note_if(
            found,
            twice,
            Refusal::Twice {
                at: declared.name.from as usize,
            },
        );
        let (var, values) = variable(alloc, file, declared, found)?;
        if !twice {
            var_index.declare(name)?;
            vars.push(var)?;
            value_indexes.push(values)?;
        }
    }
    Ok(Names {
        alloc,
        file,
        vars,
        var_index,
        value_indexes,
        dd_index: Index::new(alloc),
        dds: Vec::new(alloc),
    })
}
