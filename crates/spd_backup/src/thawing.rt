//! From a built process's lists of nodes to diagrams of a forest.

ghost use Rattle.std.specs.Prelude.{◌≡◌, ℕ, ◌<◌, List, length, map, take, All, IfOk, IfErr, IfSome, OnOk, IsTrue, [], ◌∷◌, ◌++◌};
ghost use Rattle.std.specs.List.{AllZip};
ghost use Rattle.spd_model.specs.Chances.{IsValid};
ghost use Rattle.spd_model.specs.Lawful.{IsLawful};
ghost use Rattle.spd_model.specs.Process.{Process};
ghost use Rattle.spd_model.specs.Reduced.{Node as N};
ghost use Rattle.spd_model.specs.States.{sizes};
ghost use Rattle.spd_nodes.specs.declared.forest.StoreFault.TheVariants as Fault;
ghost use Rattle.spd_nodes.specs.declared.leaf.Leaf.{Leaf as L};
ghost use Rattle.spd_nodes.specs.Levels.{slots};
ghost use Rattle.spd_nodes.specs.Made.{MakesAll};
ghost use Rattle.spd_nodes.specs.Shown.{Shown, MakesDiagram, StandsFor};
ghost use Rattle.spd_nodes.specs.States.{Function};
ghost use Rattle.spd_restrict.specs.Chosen.{function_at};
ghost use Rattle.spd_frozen.specs.Fits.{FitsSizes};
ghost use Rattle.spd_frozen.specs.Mixed.{slotted};
ghost use Rattle.spd_frozen.specs.Nodes.{shown};
ghost use Rattle.spd_frozen.specs.Thawing.{frozen_function, mixed_function};
ghost use Rattle.spd_build.specs.Built.{IsBuilt};
ghost use Rattle.spd_backup.specs.FromBuilt.{IsThawedFrom, ThawsProcess, thaw_functions};

use crate::thawed::{Thawed, count_of};
use spd_apply::OpFault;
use spd_build::Built;
use spd_frozen::{Frozen, Mixed, MixedNode, Node, thaw, thaw_mixed};
use spd_nodes::{Forest, Ref, Steps};
use std::alloc::Global;
use std::sync::ledger::Ledger;

/// With how many earlier lists one is compared at most. A process has no more actions.
const MOST_COMPARED: usize = 64;

/// A node of a list.
trait ListNode {
    ghost seen: { Self → N L };

    /// Whether another node is the same.
    fn is_same(&self, other: &Self) -> bool
        ensures { IsTrue result → seen self.now ≡ seen other.now };
}

impl ListNode for Node {
    ghost seen = { shown };

    fn is_same(&self, other: &Node) -> bool {
        self == other
    }
}

impl ListNode for MixedNode {
    ghost seen = { slotted };

    fn is_same(&self, other: &MixedNode) -> bool {
        self == other
    }
}

/// Whether two lists have the same nodes.
fn same_nodes<M: ListNode>(a: &[M], b: &[M]) -> bool
    ensures { IsTrue result → map M.seen a.now ≡ map M.seen b.now }
{
    if a.len() != b.len() {
        return false;
    }
    for i in 0..a.len() {
        if !a[i].is_same(&b[i]) {
            return false;
        }
    }
    true
}

/// A list of nodes that stands for a function.
trait Listed {
    ghost function: { Self → Function };

    /// It fits variables with these numbers of values.
    ghost fits: { Self → List ℕ → Type 0 };

    /// Whether another list is the same.
    fn is_same(&self, other: &Self) -> bool
        ensures { IsTrue result → function self.now ≡ function other.now };

    /// Its function's diagram.
    fn thaw_in<F: Forest, L: Ledger>(
        &self,
        alloc: Global,
        forest: &mut F,
        steps: &mut Steps<L>,
    ) -> Result<Ref, OpFault>
        requires { fits self.now (F.shows forest.old).sizes }
        ensures made { MakesDiagram (F.shows forest.old) (F.shows forest.new) (function self.now) result }
        ensures keeps { F.kept forest.new ≡ F.kept forest.old };
}

impl Listed for Mixed {
    ghost function = { mixed_function };

    ghost fits = { λ f sizes. FitsSizes (slots sizes) f };

    fn is_same(&self, other: &Mixed) -> bool {
        same_nodes(self.nodes(), other.nodes())
    }

    fn thaw_in<F: Forest, L: Ledger>(
        &self,
        alloc: Global,
        forest: &mut F,
        steps: &mut Steps<L>,
    ) -> Result<Ref, OpFault> {
        thaw_mixed(alloc, forest, self, steps)
    }
}

impl Listed for Frozen {
    ghost function = { frozen_function };

    ghost fits = { λ f sizes. FitsSizes sizes f };

    fn is_same(&self, other: &Frozen) -> bool {
        same_nodes(self.nodes(), other.nodes())
    }

    fn thaw_in<F: Forest, L: Ledger>(
        &self,
        alloc: Global,
        forest: &mut F,
        steps: &mut Steps<L>,
    ) -> Result<Ref, OpFault> {
        thaw(alloc, forest, self, steps)
    }
}

/// The nearest of the lists that stand `apart`, twice `apart` and so on before one, and are the same.
fn same_before<P: Listed>(parts: &[P], at: usize, apart: usize) -> Option<usize>
    requires { at < length parts.now }
    ensures before { IfSome result (λ i. i < at) }
    ensures same { IfSome result (λ i. function_at (map P.function parts.now) i ≡ function_at (map P.function parts.now) at) }
{
    let mut before = at;
    for _ in 0..MOST_COMPARED {
        if apart == 0 || before < apart {
            return None;
        }
        before -= apart;
        if parts[before].is_same(&parts[at]) {
            return Some(before);
        }
    }
    None
}

/// The diagram of one of some lists, where `refs` has those of the lists before it. Nothing is made where one of these is the same.
fn thaw_part<F: Forest, P: Listed, L: Ledger>(
    alloc: Global,
    forest: &mut F,
    parts: &[P],
    at: usize,
    apart: usize,
    refs: &[Ref],
    steps: &mut Steps<L>,
) -> Result<Ref, OpFault>
    requires at { at < length parts.now }
    requires fit { All (λ p. P.fits p (F.shows forest.old).sizes) parts.now }
    requires stand { AllZip (StandsFor (F.shows forest.old)) refs.now (take at (map P.function parts.now)) }
    ensures made { MakesDiagram (F.shows forest.old) (F.shows forest.new) (function_at (map P.function parts.now) at) result }
    ensures keeps { F.kept forest.new ≡ F.kept forest.old }
{
    let _ = forest.layout();
    match same_before(parts, at, apart) {
        Some(before) => Ok(refs[before]),
        None => parts[at].thaw_in(alloc, forest, steps),
    }
}

/// A list with room for so many Refs.
fn with_room(alloc: Global, count: usize) -> Result<Vec<Ref>, OpFault>
    ensures empty { IfOk result (λ refs. refs.items ≡ []) }
    ensures memory { IfErr result (λ e. e ≡ Fault.Memory) }
{
    match Vec::with_capacity(alloc, count) {
        Ok(refs) => Ok(refs),
        Err(_) => Err(OpFault::Memory),
    }
}

/// Puts a Ref in the last place.
fn push(refs: &mut Vec<Ref>, r: Ref) -> Result<(), OpFault>
    ensures items { OnOk result (refs.new.items ≡ refs.old.items ++ r ∷ []) }
    ensures memory { IfErr result (λ e. e ≡ Fault.Memory) }
{
    match refs.push(r) {
        Ok(()) => Ok(()),
        Err(_) => Err(OpFault::Memory),
    }
}

/// A copy of variables' numbers of values.
fn copy_of(alloc: Global, sizes: &[u8]) -> Result<Vec<u8>, OpFault>
    ensures same { IfOk result (λ v. v.items ≡ sizes.now) }
    ensures memory { IfErr result (λ e. e ≡ Fault.Memory) }
{
    let mut copy = Vec::new(alloc);
    match copy.extend_from_slice(sizes) {
        Ok(()) => Ok(copy),
        Err(_) => Err(OpFault::Memory),
    }
}

/// The diagrams of some lists, in order. A list is compared with those that stand `apart`, twice `apart` and so on before it.
fn thaw_parts<F: Forest, P: Listed, L: Ledger>(
    alloc: Global,
    forest: &mut F,
    parts: &[P],
    apart: usize,
    steps: &mut Steps<L>,
) -> Result<Vec<Ref>, OpFault>
    requires fit { All (λ p. P.fits p (F.shows forest.old).sizes) parts.now }
    ensures made { MakesAll (F.shows forest.old) (F.shows forest.new) (map P.function parts.now) result }
    ensures stand { IfOk result (λ refs. AllZip (StandsFor (F.shows forest.new)) refs.items (map P.function parts.now)) }
    ensures keeps { F.kept forest.new ≡ F.kept forest.old }
{
    let _ = forest.layout();
    let mut refs = with_room(alloc, parts.len())?;
    for at in 0..parts.len() {
        let made = thaw_part(alloc, forest, parts, at, apart, &refs, steps)?;
        push(&mut refs, made)?;
    }
    Ok(refs)
}

/// A built process as diagrams of a forest: each weight and each reward as the diagram of its list's function, with the same variables and
/// the same discount. Each list fits the forest's variables.
///
/// It makes only nodes of these diagrams. A weight is compared with those that earlier actions have of the same variable and value, from
/// the nearest on, of up to 64 actions, and a reward with the 64 before it: where one has the same list, its diagram is taken and nothing is
/// computed. Full comes only where a call of the forest answered Full in this call.
pub fn thaw_built<F: Forest, L: Ledger>(
    alloc: Global,
    built: &Built,
    forest: &mut F,
    steps: &mut Steps<L>,
) -> Result<Thawed, OpFault>
    requires weights { All (FitsSizes (slots (F.shows forest.old).sizes)) built.now.weights.items }
    requires rewards { All (FitsSizes (F.shows forest.old).sizes) built.now.rewards.items }

    ensures made { MakesAll (F.shows forest.old) (F.shows forest.new) (thaw_functions built.now) result }
    ensures ok { IfOk result (IsThawedFrom built.now (F.shows forest.new)) }
    ensures process { (m : Process) → IsLawful m → IsValid m → IsBuilt m built.now → (F.shows forest.old).sizes ≡ sizes m → ThawsProcess m (F.shows forest.old) (F.shows forest.new) result }
    ensures keeps { F.kept forest.new ≡ F.kept forest.old }
{
    let values = count_of(forest.layout().sizes());
    let sizes = copy_of(alloc, built.sizes.as_slice())?;
    let weights = thaw_parts(alloc, forest, built.weights.as_slice(), values, steps)?;
    let rewards = thaw_parts(alloc, forest, built.rewards.as_slice(), 1, steps)?;
    Ok(Thawed {
        weights,
        rewards,
        sizes,
        g: built.g,
    })
}
