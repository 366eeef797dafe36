//! Whether a certificate holds.

ghost use Rattle.std.specs.Prelude.{◌≡◌, ◌↔◌, ◌<◌, IfOk};
ghost use Rattle.spd_model.specs.Chances.{IsValid};
ghost use Rattle.spd_model.specs.States.{sizes};
ghost use Rattle.spd_nodes.specs.Made.{MakesAll};
ghost use Rattle.spd_nodes.specs.Shown.{Shown};
ghost use Rattle.spd_build.specs.Built.{IsBuilt};
ghost use Rattle.spd_bellman.specs.Bound.{IsBoundAbove, IsBoundBelow};
ghost use Rattle.spd_bellman.specs.Certificate.{Holds};
ghost use Rattle.spd_check.specs.Certificates.{AreOf, value_by, policy_by, first_failure, verdict_of};
ghost use Rattle.spd_check.specs.Functions.{check_functions};
ghost use Rattle.spd_check.specs.declared.verdict.Verdict.TheVariants.{Yes};

use crate::gaps::gaps_of;
use crate::given::thaw_given;
use crate::highest::highest;
use crate::judging::judge;
use crate::own::own_lower;
use crate::verdict::Verdict;
use spd_apply::OpFault;
use spd_backup::Tables;
use spd_bellman::law_courses;
use spd_build::Built;
use spd_frozen::Frozen;
use spd_model::Model;
use spd_nodes::{Forest, Steps};
use spd_turn::backup_all;
use std::alloc::Global;
use std::sync::ledger::Ledger;

/// Whether a certificate of a valid model holds: a value in units of 10^-9 and a policy, as lists of nodes, and a residual in units of
/// 10^-9. Yes comes exactly where at each state no action's upper bound lies more than the residual above the value, nor the lower bound of
/// the policy's own action more than it below. Otherwise it is No with the first state, in the order of the states, at which it fails:
/// above before below, with the first action that has the greatest upper bound, or below the policy's action.
///
/// `built` is what the model was built into, and `forest` one over its variables. The lists fit the model, and needn't be reduced. It makes
/// only nodes of the functions of the check. Full comes only where a call of the forest answered Full in this call, and Memory where the
/// heap gave none. Each of its tables keeps at most `memo_size` answers.
pub fn check_in<F: Forest, L: Ledger>(
    alloc: Global,
    model: &Model,
    built: &Built,
    value: &Frozen,
    policy: &Frozen,
    residual: i128,
    forest: &mut F,
    memo_size: usize,
    steps: &mut Steps<L>,
) -> Result<Verdict, OpFault>
    requires valid { IsValid model.now }
    requires built { IsBuilt model.now built.now }
    requires fit { AreOf model.now value.now policy.now }
    requires layout { (F.shows forest.old).sizes ≡ sizes model.now }
    requires memo_size { 0 < memo_size }

    ensures made { MakesAll (F.shows forest.old) (F.shows forest.new) (check_functions model.now (value_by value.now) (policy_by policy.now)) result }
    ensures verdict { IfOk result (λ v. v ≡ verdict_of (first_failure model.now (value_by value.now) (policy_by policy.now) residual)) }
    ensures exact { IfOk result (λ v. (v ≡ Yes) ↔ Holds model.now (value_by value.now) (policy_by policy.now) residual) }
    // No course of action returns more than the value plus the residual over one minus the discount, whatever the number of steps, and the
    // policy returns no less than the value minus as much.
    ensures above { IfOk result (λ v. v ≡ Yes → IsBoundAbove model.now (value_by value.now) residual) }
    ensures below { IfOk result (λ v. v ≡ Yes → IsBoundBelow model.now (value_by value.now) (policy_by policy.now) residual) }
    ensures keeps { F.kept forest.new ≡ F.kept forest.old }
{
    // Reading a field tells the proof what every model keeps, the nodes what every list keeps, and the layout that the forest is sound.
    let _vars = &model.vars;
    let _ = value.nodes();
    let _ = policy.nodes();
    let _ = forest.layout();
    law_courses();
    let given = thaw_given(alloc, model, built, value, policy, forest, steps)?;
    let mut tables = match Tables::new(alloc, given.thawed.sizes.as_slice(), memo_size) {
        Ok(tables) => tables,
        Err(_) => return Err(OpFault::Memory),
    };
    let bounds = backup_all(alloc, &given.thawed, forest, given.w, &mut tables, steps)?;
    let all = bounds.as_slice();
    let high = highest(alloc, forest, all, memo_size, steps)?;
    let own = own_lower(alloc, forest, given.act, all, memo_size, steps)?;
    let gaps = gaps_of(alloc, forest, given.w, high, own, memo_size, steps)?;
    match judge(alloc, forest, all, high, &gaps, policy, residual) {
        Ok(verdict) => Ok(verdict),
        Err(_) => Err(OpFault::Memory),
    }
}
