//! The value at the start.

ghost use Rattle.std.specs.Prelude.{◌≡◌, map, length};
ghost use Rattle.std.specs.List.{AllZip};
ghost use Rattle.spd_model.specs.Process.{Process};
ghost use Rattle.spd_nodes.specs.Shown.{Shown, StandsFor, MakesAmong};
ghost use Rattle.spd_build.specs.Building.{HoldMaxima, AreRewardsOfSome};
ghost use Rattle.spd_build.specs.Functions.{reward, start, start_functions};

use spd_apply::{Max, OpFault, apply};
use spd_memo::Memo;
use spd_nodes::{Forest, Ref, Steps};
use std::sync::ledger::Ledger;

/// The diagram of the greatest reward over all actions, in units of 10^-9, of the diagrams of their rewards.
pub(crate) fn greatest_of<F: Forest, L: Ledger>(
    forest: &mut F,
    rewards: &[Ref],
    maxima: &mut Memo,
    steps: &mut Steps<L>,
) -> Result<Ref, OpFault>
    requires rewards { AreRewardsOfSome (F.shows forest.old) rewards.now }
    requires maxima { HoldMaxima (F.shows forest.old) maxima.old }
    ensures made { (m : Process) → AllZip (StandsFor (F.shows forest.old)) rewards.now (map (reward m) m.actions) → MakesAmong (F.shows forest.old) (F.shows forest.new) (start m) (start_functions m) result }
    ensures keeps { F.kept forest.new ≡ F.kept forest.old }
{
    let _ = forest.layout();
    let mut greatest = rewards[0];
    for number in 1..rewards.len() {
        greatest = apply(forest, &Max, greatest, rewards[number], maxima, steps)?;
    }
    Ok(greatest)
}
