//! The diagrams with which a check begins.

ghost use Rattle.std.specs.Prelude.{◌≡◌};
ghost use Rattle.spd_model.specs.Chances.{IsValid};
ghost use Rattle.spd_model.specs.States.{sizes};
ghost use Rattle.spd_build.specs.Built.{IsBuilt};
ghost use Rattle.spd_check.specs.Certificates.{AreOf, value_by, policy_by};
ghost use Rattle.spd_check.specs.inner.Judging.{MakesGiven};

use spd_apply::OpFault;
use spd_backup::{Thawed, thaw_built};
use spd_build::Built;
use spd_frozen::{Frozen, thaw};
use spd_model::Model;
use spd_nodes::{Forest, Ref, Steps};
use std::alloc::Global;
use std::sync::ledger::Ledger;

/// A process's parts, and the value and the policy of a certificate, as diagrams of a forest.
#[derive(Debug, Drop)]
pub(crate) struct Given {
    /// The process's parts.
    pub thawed: Thawed,
    /// The value, in units of 10^-9.
    pub w: Ref,
    /// The policy, as an action at each state.
    pub act: Ref,
}

/// Makes what a valid model was built into, and a value and a policy that fit it, diagrams of a forest over the model's variables.
pub(crate) fn thaw_given<F: Forest, L: Ledger>(
    alloc: Global,
    model: &Model,
    built: &Built,
    value: &Frozen,
    policy: &Frozen,
    forest: &mut F,
    steps: &mut Steps<L>,
) -> Result<Given, OpFault>
    requires valid { IsValid model.now }
    requires built { IsBuilt model.now built.now }
    requires fit { AreOf model.now value.now policy.now }
    requires layout { (F.shows forest.old).sizes ≡ sizes model.now }
    ensures made { MakesGiven model.now (value_by value.now) (policy_by policy.now) (F.shows forest.old) (F.shows forest.new) result }
    ensures keeps { F.kept forest.new ≡ F.kept forest.old }
{
    // Reading a field tells the proof what every model keeps, the nodes what every list keeps, and the layout that the forest is sound.
    let _vars = &model.vars;
    let _ = value.nodes();
    let _ = policy.nodes();
    let _ = forest.layout();
    let thawed = thaw_built(alloc, built, forest, steps)?;
    let w = thaw(alloc, forest, value, steps)?;
    let act = thaw(alloc, forest, policy, steps)?;
    Ok(Given { thawed, w, act })
}
