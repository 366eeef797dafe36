//! A check in forests of its own.

ghost use Rattle.std.specs.Prelude.{◌≡◌, ◌↔◌, ◌<◌, ℕ, List, ℤ, IfOk, IfErr};
ghost use Rattle.spd_model.specs.Chances.{IsValid};
ghost use Rattle.spd_model.specs.States.{sizes};
ghost use Rattle.spd_nodes.specs.Made.{MakesAll};
ghost use Rattle.spd_nodes.specs.Shown.{Shown};
ghost use Rattle.spd_nodes.specs.Store.{shown};
ghost use Rattle.spd_build.specs.Built.{Builds, IsBuilt, IsBuiltWhole};
ghost use Rattle.spd_frozen.specs.Fits.{FitsModel};
ghost use Rattle.spd_cert.specs.Certificates.{iterate_of};
ghost use Rattle.spd_bellman.specs.Bound.{IsBoundAbove, IsBoundBelow};
ghost use Rattle.spd_bellman.specs.Certificate.{Holds};
ghost use Rattle.spd_check.specs.Certificates.{AreOf, value_by, policy_by, first_failure, verdict_of};
ghost use Rattle.spd_check.specs.Functions.{check_functions};
ghost use Rattle.spd_check.specs.Faults.{IsFaultOf};
ghost use Rattle.spd_check.specs.inner.Judging.{told_build_fault};
ghost use Rattle.spd_check.specs.declared.verdict.Verdict.TheVariants.{Yes};

use crate::checking::check_in;
use crate::verdict::{CheckFault, Verdict};
use spd_apply::OpFault;
use spd_build::{BuildFault, Built, build, layout_of};
use spd_cert::Cert;
use spd_frozen::Frozen;
use spd_model::Model;
use spd_nodes::{Alone, Forest, Steps};
use std::alloc::Global;
use std::marker::Brand;
use std::sync::ledger::{Blank, Ledger};

/// The same as `build`, where no step is counted.
fn build_uncounted<L: Ledger>(
    alloc: Global,
    model: &Model,
    forest: &mut Alone,
    memo_size: usize,
    blank: Blank,
) -> Result<Built, BuildFault>
    requires name { blank.name ≡ L.name }
    requires parts { blank.parts ≡ L.parts }
    requires one { 0 < blank.parts }
    requires layout { forest.old.sizes ≡ sizes model.now }
    requires memo_size { 0 < memo_size }
    ensures built { Builds model.now (shown forest.old) (shown forest.new) result }
    ensures limit { forest.new.limit ≡ forest.old.limit }
{
    let mut steps = Steps::<L>::new(blank);
    build(alloc, model, forest, memo_size, &mut steps)
}

/// A fault of building with room for so many nodes.
fn told_build_fault(fault: BuildFault, node_limit: u32) -> CheckFault
    ensures { result ≡ told_build_fault node_limit fault }
{
    match fault {
        BuildFault::Sum {
            action,
            var,
            state,
            sum,
        } => CheckFault::Sum {
            action,
            var,
            state,
            sum,
        },
        BuildFault::Range {
            action,
            state,
            value,
        } => CheckFault::Range {
            action,
            state,
            value,
        },
        BuildFault::Full => CheckFault::NodeLimit {
            building: true,
            limit: node_limit,
        },
        BuildFault::Memory => CheckFault::Memory,
    }
}

/// What a model is built into, in a forest of its own.
fn build_alone(
    alloc: Global,
    model: &Model,
    node_limit: u32,
    memo_size: usize,
) -> Result<Built, CheckFault>
    requires memo_size { 0 < memo_size }
    ensures built { IfOk result (IsBuiltWhole model.now) }
    ensures fault { (w : List ℕ → ℤ) (policy : List ℕ → ℕ) → IfErr result (IsFaultOf model.now w policy node_limit) }
{
    let layout = layout_of(alloc, model)?;
    let mut forest = Alone::new(alloc, layout, node_limit)?;
    match build_uncounted::<Brand>(alloc, model, &mut forest, memo_size, Blank::new(1)) {
        Ok(built) => Ok(built),
        Err(fault) => Err(told_build_fault(fault, node_limit)),
    }
}

/// The same as `check_in`, where no step is counted.
fn check_uncounted<F: Forest, L: Ledger>(
    alloc: Global,
    model: &Model,
    built: &Built,
    value: &Frozen,
    policy: &Frozen,
    residual: i128,
    forest: &mut F,
    memo_size: usize,
    blank: Blank,
) -> Result<Verdict, OpFault>
    requires name { blank.name ≡ L.name }
    requires parts { blank.parts ≡ L.parts }
    requires one { 0 < blank.parts }
    requires valid { IsValid model.now }
    requires built { IsBuilt model.now built.now }
    requires fit { AreOf model.now value.now policy.now }
    requires layout { (F.shows forest.old).sizes ≡ sizes model.now }
    requires memo_size { 0 < memo_size }
    ensures made { MakesAll (F.shows forest.old) (F.shows forest.new) (check_functions model.now (value_by value.now) (policy_by policy.now)) result }
    ensures verdict { IfOk result (λ v. v ≡ verdict_of (first_failure model.now (value_by value.now) (policy_by policy.now) residual)) }
    ensures exact { IfOk result (λ v. (v ≡ Yes) ↔ Holds model.now (value_by value.now) (policy_by policy.now) residual) }
    ensures above { IfOk result (λ v. v ≡ Yes → IsBoundAbove model.now (value_by value.now) residual) }
    ensures below { IfOk result (λ v. v ≡ Yes → IsBoundBelow model.now (value_by value.now) (policy_by policy.now) residual) }
    ensures keeps { F.kept forest.new ≡ F.kept forest.old }
{
    let mut steps = Steps::<L>::new(blank);
    check_in(
        alloc, model, built, value, policy, residual, forest, memo_size, &mut steps,
    )
}

/// Whether a certificate of a valid model, which is built, holds, in a forest of its own.
fn check_alone(
    alloc: Global,
    model: &Model,
    built: &Built,
    value: &Frozen,
    policy: &Frozen,
    residual: i128,
    node_limit: u32,
    memo_size: usize,
) -> Result<Verdict, CheckFault>
    requires valid { IsValid model.now }
    requires built { IsBuilt model.now built.now }
    requires fit { AreOf model.now value.now policy.now }
    requires memo_size { 0 < memo_size }

    ensures verdict { IfOk result (λ v. v ≡ verdict_of (first_failure model.now (value_by value.now) (policy_by policy.now) residual)) }
    ensures exact { IfOk result (λ v. (v ≡ Yes) ↔ Holds model.now (value_by value.now) (policy_by policy.now) residual) }
    ensures above { IfOk result (λ v. v ≡ Yes → IsBoundAbove model.now (value_by value.now) residual) }
    ensures below { IfOk result (λ v. v ≡ Yes → IsBoundBelow model.now (value_by value.now) (policy_by policy.now) residual) }
    ensures fault { IfErr result (IsFaultOf model.now (value_by value.now) (policy_by policy.now) node_limit) }
{
    let layout = layout_of(alloc, model)?;
    let mut forest = Alone::new(alloc, layout, node_limit)?;
    match check_uncounted::<_, Brand>(
        alloc,
        model,
        built,
        value,
        policy,
        residual,
        &mut forest,
        memo_size,
        Blank::new(1),
    ) {
        Ok(verdict) => Ok(verdict),
        Err(OpFault::Full) => Err(CheckFault::NodeLimit {
            building: false,
            limit: node_limit,
        }),
        Err(OpFault::Memory) => Err(CheckFault::Memory),
    }
}

/// Whether a certificate holds: its value, its policy and its residual, as `check_in` judges them. The other lines of the certificate
/// aren't judged. The model is built, and the certificate checked, in a forest each of at most `node_limit` nodes, with tables of at most
/// `memo_size` answers each.
///
/// # Errors
///
/// `Sum` exactly where a sum of probabilities isn't one, and `Range` exactly where all are and a reward passes its limit: the first of them.
/// `NodeLimit` only where building, or the check of a valid model, has more nodes than that. `Memory` where the heap gave none.
pub fn check(
    alloc: Global,
    model: &Model,
    cert: &Cert,
    node_limit: u32,
    memo_size: usize,
) -> Result<Verdict, CheckFault>
    requires fit { FitsModel model.now (iterate_of cert.now) }
    requires memo_size { 0 < memo_size }

    ensures valid { IfOk result (λ _. IsValid model.now) }
    ensures verdict { IfOk result (λ v. v ≡ verdict_of (first_failure model.now (value_by cert.now.value) (policy_by cert.now.policy) cert.now.residual)) }
    ensures exact { IfOk result (λ v. (v ≡ Yes) ↔ Holds model.now (value_by cert.now.value) (policy_by cert.now.policy) cert.now.residual) }
    // No course of action returns more than the value plus the residual over one minus the discount, whatever the number of steps, and the
    // policy returns no less than the value minus as much.
    ensures above { IfOk result (λ v. v ≡ Yes → IsBoundAbove model.now (value_by cert.now.value) cert.now.residual) }
    ensures below { IfOk result (λ v. v ≡ Yes → IsBoundBelow model.now (value_by cert.now.value) (policy_by cert.now.policy) cert.now.residual) }
    ensures fault { IfErr result (IsFaultOf model.now (value_by cert.now.value) (policy_by cert.now.policy) node_limit) }
{
    // Reading a field tells the proof what every model keeps.
    let _vars = &model.vars;
    let built = build_alone(alloc, model, node_limit, memo_size)?;
    check_alone(
        alloc,
        model,
        &built,
        &cert.value,
        &cert.policy,
        cert.residual,
        node_limit,
        memo_size,
    )
}
