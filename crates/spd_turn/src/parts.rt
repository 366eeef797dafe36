//! The diagrams with which a turn begins.

ghost use Rattle.std.specs.Prelude.{◌≡◌, ℕ, List, ℤ};
ghost use Rattle.spd_model.specs.Chances.{IsValid};
ghost use Rattle.spd_model.specs.States.{sizes};
ghost use Rattle.spd_build.specs.Built.{IsBuilt};
ghost use Rattle.spd_turn.specs.Parts.{IsValueList, IsSomeValue, MakesParts};

use spd_apply::OpFault;
use spd_backup::{Thawed, thaw_built};
use spd_build::Built;
use spd_frozen::{Frozen, thaw};
use spd_model::Model;
use spd_nodes::{Forest, Ref, Steps};
use std::alloc::Global;
use std::sync::ledger::Ledger;

/// A process's parts and the value of a turn as diagrams of a forest.
#[derive(Debug, Drop)]
pub struct TurnParts {
    /// The process's parts.
    pub thawed: Thawed,
    /// The value, in units of 10^-9.
    pub w: Ref,
}

/// Makes what a valid model was built into, and a value, diagrams of a forest over the model's variables.
///
/// It makes only nodes of these diagrams. Full comes only where a call of the forest answered Full in this call.
pub fn thaw_parts<F: Forest, L: Ledger>(
    alloc: Global,
    model: &Model,
    built: &Built,
    value: &Frozen,
    forest: &mut F,
    steps: &mut Steps<L>,
) -> Result<TurnParts, OpFault>
    requires valid { IsValid model.now }
    requires built { IsBuilt model.now built.now }
    requires layout { (F.shows forest.old).sizes ≡ sizes model.now }
    requires value { IsSomeValue model.now value.now }
    ensures made { (v : List ℕ → ℤ) → IsValueList model.now v value.now → MakesParts model.now v (F.shows forest.old) (F.shows forest.new) result }
    ensures keeps { F.kept forest.new ≡ F.kept forest.old }
{
    // Reading a field tells the proof what every model keeps, and the layout that the forest is sound.
    let _vars = &model.vars;
    let _ = forest.layout();
    let thawed = thaw_built(alloc, built, forest, steps)?;
    let w = thaw(alloc, forest, value, steps)?;
    Ok(TurnParts { thawed, w })
}
