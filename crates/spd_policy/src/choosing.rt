//! The greatest bounds over all actions and the policy.

ghost use Rattle.std.specs.Prelude.{◌≡◌, ℕ, ◌<◌, ◌≤◌, List, ℤ, All, IfOk, length, map};
ghost use Rattle.spd_model.specs.Process.{Process};
ghost use Rattle.spd_nodes.specs.Shown.{Shown, meaning};
ghost use Rattle.spd_policy.specs.Best.{lows_of, highs_of, lows_in, highs_in, IsNumeric, AreNumeric, MakesBestOf, AreBoundsOf, MakesPolicy};
ghost use Rattle.spd_policy.specs.Choosing.{HoldBest};

use crate::chosen::Best;
use crate::highest::greatest_bound;
use crate::placing::first_greatest;
use crate::tables::BestTables;
use spd_apply::OpFault;
use spd_backup::Bounds;
use spd_nodes::{Forest, Ref, Steps};
use std::alloc::{AllocError, Global};
use std::sync::ledger::Ledger;

/// The lower bounds.
fn lower(alloc: Global, bounds: &[Bounds]) -> Result<Vec<Ref>, AllocError>
    ensures { IfOk result (λ v. v.items ≡ lows_of bounds.now) }
{
    bounds.iter().map(|b| b.lo).collect(alloc)
}

/// The upper bounds.
fn upper(alloc: Global, bounds: &[Bounds]) -> Result<Vec<Ref>, AllocError>
    ensures { IfOk result (λ v. v.items ≡ highs_of bounds.now) }
{
    bounds.iter().map(|b| b.hi).collect(alloc)
}

/// Both.
fn sides(alloc: Global, bounds: &[Bounds]) -> Result<(Vec<Ref>, Vec<Ref>), AllocError>
    ensures lows { IfOk result (λ v. v.0.items ≡ lows_of bounds.now) }
    ensures highs { IfOk result (λ v. v.1.items ≡ highs_of bounds.now) }
{
    Ok((lower(alloc, bounds)?, upper(alloc, bounds)?))
}

/// The best of lower and upper bounds, one of each for each action.
fn choose<F: Forest, L: Ledger>(
    alloc: Global,
    forest: &mut F,
    lows: &[Ref],
    highs: &[Ref],
    tables: &mut BestTables,
    steps: &mut Steps<L>,
) -> Result<Best, OpFault>
    requires lower { All (λ r. IsNumeric (F.shows forest.old) r) lows.now }
    requires upper { All (λ r. IsNumeric (F.shows forest.old) r) highs.now }
    requires some { 0 < length lows.now }
    requires few { length lows.now ≤ 64 }
    requires beside { length highs.now ≡ length lows.now }
    requires tables { HoldBest (F.shows forest.old) tables.old }
    ensures made { MakesBestOf (map (meaning (F.shows forest.old)) lows.now) (map (meaning (F.shows forest.old)) highs.now) (F.shows forest.old) (F.shows forest.new) result }
    ensures keeps { F.kept forest.new ≡ F.kept forest.old }
    ensures tables { HoldBest (F.shows forest.new) tables.new }
{
    let _ = forest.layout();
    let low = greatest_bound(alloc, forest, lows, &mut tables.greatest, steps)?;
    let high = greatest_bound(alloc, forest, highs, &mut tables.greatest, steps)?;
    let act = first_greatest(alloc, forest, low, lows, &mut tables.places, steps)?;
    Ok(Best { low, high, act })
}

/// The same as `best` with tables that the caller keeps, which hold answers of choosing the best alone: before, and afterwards too,
/// also where the call fails. They keep answers only for as many actions as they were made for.
pub fn best_with<F: Forest, L: Ledger>(
    alloc: Global,
    forest: &mut F,
    bounds: &[Bounds],
    tables: &mut BestTables,
    steps: &mut Steps<L>,
) -> Result<Best, OpFault>
    requires bounds { All (λ b. AreNumeric (F.shows forest.old) b) bounds.now }
    requires some { 0 < length bounds.now }
    requires few { length bounds.now ≤ 64 }
    requires tables { HoldBest (F.shows forest.old) tables.old }

    ensures made { MakesBestOf (lows_in (F.shows forest.old) bounds.now) (highs_in (F.shows forest.old) bounds.now) (F.shows forest.old) (F.shows forest.new) result }
    // Where they are the bounds of a process, the answers are its best bounds and its policy.
    ensures policy { (m : Process) (w : List ℕ → ℤ) → AreBoundsOf m w (F.shows forest.old) bounds.now → MakesPolicy m w (F.shows forest.old) (F.shows forest.new) result }
    ensures keeps { F.kept forest.new ≡ F.kept forest.old }
    ensures tables { HoldBest (F.shows forest.new) tables.new }
{
    let _ = forest.layout();
    match sides(alloc, bounds) {
        Ok((lows, highs)) => choose(
            alloc,
            forest,
            lows.as_slice(),
            highs.as_slice(),
            tables,
            steps,
        ),
        Err(_) => Err(OpFault::Memory),
    }
}

/// The best of the bounds of all actions, in file order: at each state the greatest lower bound, the greatest upper bound, and, as an
/// `Act`, the number of the first action that has the greatest lower bound (SPUDD, UAI 1999).
///
/// There are 1 to 64 actions, and all bounds are numbers. It makes only nodes of its three answers. Full comes only where a call of the
/// forest answered Full in this call. Each of its tables keeps at most `memo_size` answers. Calls nest at most two deep a level, and
/// there are at most 512 levels.
pub fn best<F: Forest, L: Ledger>(
    alloc: Global,
    forest: &mut F,
    bounds: &[Bounds],
    memo_size: usize,
    steps: &mut Steps<L>,
) -> Result<Best, OpFault>
    requires bounds { All (λ b. AreNumeric (F.shows forest.old) b) bounds.now }
    requires some { 0 < length bounds.now }
    requires few { length bounds.now ≤ 64 }

    ensures made { MakesBestOf (lows_in (F.shows forest.old) bounds.now) (highs_in (F.shows forest.old) bounds.now) (F.shows forest.old) (F.shows forest.new) result }
    // Where they are the bounds of a process, the answers are its best bounds and its policy.
    ensures policy { (m : Process) (w : List ℕ → ℤ) → AreBoundsOf m w (F.shows forest.old) bounds.now → MakesPolicy m w (F.shows forest.old) (F.shows forest.new) result }
    ensures keeps { F.kept forest.new ≡ F.kept forest.old }
{
    let mut tables = BestTables::new(alloc, bounds.len(), memo_size);
    best_with(alloc, forest, bounds, &mut tables, steps)
}
