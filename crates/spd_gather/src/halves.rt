//! Where several diagrams go on at the lowest of their levels.

ghost use Rattle.std.specs.Prelude.{◌≡◌, ◌↔◌, ℕ, ◌<◌, ◌++◌, ◌∷◌, [], IfOk, IfSome, OnOk, All, map, take, length, slice_index_or, true, Some, IsTrue};
ghost use Rattle.spd_cons_core.specs.declared.key.Entry.{Entry};
ghost use Rattle.spd_nodes.specs.Shown.{Shown, IsViewOf};
ghost use Rattle.spd_apply.specs.Halves.{yes_at, no_at};
ghost use Rattle.spd_gather.specs.Lists.{trees_of, AreKnown, IsBefore, IsSame, IsLowOf, IsSplit};

use crate::pool::Pool;
use spd_nodes::{Forest, Level, Ref, View};
use std::alloc::AllocError;

/// The Refs of a list on both sides of the lowest level that one of them tests.
#[derive(Drop)]
pub struct Sides {
    /// The lowest level that some of the Refs test first. None comes exactly where all are leaves.
    pub low: Option<Level>,
    /// Each Ref where that level's test holds.
    pub yes: Vec<Ref>,
    /// Each Ref where it doesn't.
    pub no: Vec<Ref>,
}

/// Whether a level comes before the lowest one so far, if any.
fn is_before(level: Level, low: Option<Level>) -> bool
    ensures { IsTrue result ↔ IsBefore level low }
{
    match low {
        None => true,
        Some(lowest) => level.0 < lowest.0,
    }
}

/// Whether a level is the lowest one so far.
fn is_lowest(level: Level, low: Option<Level>) -> bool
    ensures { IsTrue result ↔ IsSame level low }
{
    match low {
        None => false,
        Some(lowest) => level.0 == lowest.0,
    }
}

/// The place of one of the last two Refs before a place that is the one there.
fn seen_before(list: &[Ref], i: usize) -> Option<usize>
    requires { i < length list.now }
    ensures before { IfSome result (λ j. j < i) }
    ensures same { IfSome result (λ j. (d : Entry) → slice_index_or list.now j d ≡ slice_index_or list.now i d) }
{
    if i >= 1 && list[i - 1] == list[i] {
        return Some(i - 1);
    }
    if i >= 2 && list[i - 2] == list[i] {
        return Some(i - 2);
    }
    None
}

impl Sides {
    /// One more Ref on each side.
    fn push(&mut self, yes: Ref, no: Ref) -> Result<(), AllocError>
        ensures low { self.new.low ≡ self.old.low }
        ensures sides { OnOk result ((self.new.yes.items ≡ self.old.yes.items ++ yes ∷ []) × (self.new.no.items ≡ self.old.no.items ++ no ∷ [])) }
    {
        self.yes.push(yes)?;
        self.no.push(no)?;
        Ok(())
    }

    /// Goes on at a level before all that were tested so far: there the Refs so far are their own halves.
    fn restart(&mut self, before: &[Ref], level: Level) -> Result<(), AllocError>
        ensures low { self.new.low ≡ Some level }
        ensures yes { OnOk result (self.new.yes.items ≡ before.now) }
        ensures no { OnOk result (self.new.no.items ≡ before.now) }
    {
        self.low = Some(level);
        self.yes.clear();
        self.no.clear();
        self.yes.extend_from_slice(before)?;
        self.no.extend_from_slice(before)
    }

    /// One more Ref, whose root this is, after those before it.
    fn add<F: Forest>(
        &mut self,
        forest: &F,
        before: &[Ref],
        name: Ref,
        root: View,
    ) -> Result<(), AllocError>
        requires known { (F.shows forest.now).knows name ≡ true }
        requires before_known { AreKnown (F.shows forest.now) before.now }
        requires root { IsViewOf (F.shows forest.now) name root }
        requires split { IsSplit (F.shows forest.now) before.now self.old }
        ensures { OnOk result (IsSplit (F.shows forest.now) (before.now ++ name ∷ []) self.new) }
    {
        match root {
            View::Leaf(_) => self.push(name, name),
            View::Test { level, yes, no } => {
                if is_before(level, self.low) {
                    self.restart(before, level)?;
                    self.push(yes, no)
                } else if is_lowest(level, self.low) {
                    self.push(yes, no)
                } else {
                    self.push(name, name)
                }
            }
        }
    }

    /// A Ref that stands at a place already once more.
    fn add_again<F: Forest>(
        &mut self,
        forest: &F,
        before: &[Ref],
        name: Ref,
        j: usize,
    ) -> Result<(), AllocError>
        requires before_known { AreKnown (F.shows forest.now) before.now }
        requires j { j < length before.now }
        requires name { name ≡ slice_index_or before.now j name }
        requires split { IsSplit (F.shows forest.now) before.now self.old }
        ensures { OnOk result (IsSplit (F.shows forest.now) (before.now ++ name ∷ []) self.new) }
    {
        let yes = self.yes[j];
        let no = self.no[j];
        self.push(yes, no)
    }
}

/// The Refs of a list on both sides of their lowest level. A Ref that is one of the two before it isn't viewed again.
pub fn split<F: Forest>(forest: &mut F, list: &[Ref], pool: &mut Pool) -> Result<Sides, AllocError>
    requires known { AreKnown (F.shows forest.old) list.now }
    ensures same { F.shows forest.new ≡ F.shows forest.old }
    ensures keeps { F.kept forest.new ≡ F.kept forest.old }
    ensures low { IfOk result (λ v. IsLowOf (F.shows forest.old) v.low list.now) }
    ensures known_yes { IfOk result (λ v. AreKnown (F.shows forest.old) v.yes.items) }
    ensures known_no { IfOk result (λ v. AreKnown (F.shows forest.old) v.no.items) }
    ensures yes { IfOk result (λ v. IfSome v.low (λ level. trees_of (F.shows forest.old) v.yes.items ≡ map (yes_at level.0) (trees_of (F.shows forest.old) list.now))) }
    ensures no { IfOk result (λ v. IfSome v.low (λ level. trees_of (F.shows forest.old) v.no.items ≡ map (no_at level.0) (trees_of (F.shows forest.old) list.now))) }
{
    let mut sides = Sides {
        low: None,
        yes: pool.take(),
        no: pool.take(),
    };
    for i in 0..list.len() {
        let name = list[i];
        match seen_before(list, i) {
            Some(j) => sides.add_again(forest, &list[..i], name, j)?,
            None => {
                let root = forest.view(name);
                sides.add(forest, &list[..i], name, root)?;
            }
        }
    }
    Ok(sides)
}
