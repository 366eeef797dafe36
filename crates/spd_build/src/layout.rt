//! The layout of a model's variables.

ghost use Rattle.std.specs.Prelude.{◌≡◌, IfOk};
ghost use Rattle.spd_model.specs.States.{sizes};

use spd_frozen::Memory;
use spd_model::Model;
use spd_nodes::Layout;
use std::alloc::Global;

/// The layout of a forest for a model's diagrams: one over the model's variables. It fails only for want of memory.
pub fn layout_of(alloc: Global, model: &Model) -> Result<Layout, Memory>
    ensures { IfOk result (λ layout. layout ≡ sizes model.now) }
{
    let vars = model.vars.as_slice();
    let mut sizes = Vec::with_capacity(alloc, vars.len())?;
    for var in vars {
        sizes.push(var.values.as_slice().len() as u8)?;
    }
    Layout::new(alloc, sizes.as_slice())
}
