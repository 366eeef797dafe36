//! Lists of Refs, which want memory.

ghost use Rattle.std.specs.Prelude.{◌≡◌, [], ◌∷◌, ◌++◌, IfOk, IfErr, OnOk};
ghost use Rattle.spd_nodes.specs.declared.forest.StoreFault.TheVariants as Fault;

use spd_apply::OpFault;
use spd_nodes::Ref;
use std::alloc::Global;

/// A list with room for so many Refs.
pub(crate) fn with_room(alloc: Global, count: usize) -> Result<Vec<Ref>, OpFault>
    ensures empty { IfOk result (λ refs. refs.items ≡ []) }
    ensures memory { IfErr result (λ e. e ≡ Fault.Memory) }
{
    match Vec::with_capacity(alloc, count) {
        Ok(refs) => Ok(refs),
        Err(_) => Err(OpFault::Memory),
    }
}

/// Puts a Ref in the last place.
pub(crate) fn push(refs: &mut Vec<Ref>, r: Ref) -> Result<(), OpFault>
    ensures items { OnOk result (refs.new.items ≡ refs.old.items ++ r ∷ []) }
    ensures memory { IfErr result (λ e. e ≡ Fault.Memory) }
{
    match refs.push(r) {
        Ok(()) => Ok(()),
        Err(_) => Err(OpFault::Memory),
    }
}
