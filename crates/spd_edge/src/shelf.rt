//! One direction of a place in memory: what was put there, opened and closed under names.
ghost use Rattle.std.specs.Prelude.{◌≡◌, ◌^◌, ◌<◌, None, Some, IsSome, position, option_copied, OnOk, OnErr, if◌then◌else◌};
ghost use Rattle.std.specs.Str.{bytes_eq};
ghost use Rattle.spd_edge.specs.Counts.{AllInRange};
ghost use Rattle.spd_edge.specs.Names.{is_among, updated};
ghost use Rattle.spd_edge.specs.declared.outside.Stage.TheVariants as Stage;

use crate::names::Names;
use crate::outside::{Memory, Stage};
use std::alloc::Global;
use std::marker::Model;

/// What was put under a name and what was closed under it, with the stage of the name and its count of faults.
#[derive(Drop)]
struct Put<T> {
    name: Vec<u8>,
    object: T,
    closed: Option<T>,
    stage: Option<Stage>,
    faults: u64,
}

/// The place in the list of what was put under a name.
fn find_put<T>(puts: &[Put<T>], name: &[u8]) -> Option<usize>
    ensures { result ≡ position (λ put. bytes_eq put.name.items name.now) puts.now }
{
    puts.iter().position(|put| put.name.as_slice() == name)
}

/// The stage of a name under which nothing was put.
fn refused_stage(refused: &Names, name: &[u8]) -> Option<Stage>
    ensures { result ≡ if is_among refused.now name.now then Some Stage.Unopened else None }
{
    if refused.contains(name) {
        Some(Stage::Unopened)
    } else {
        None
    }
}

/// One direction of a place in memory. All names under which nothing was put share one count of faults.
#[derive(Drop)]
pub(crate) struct Shelf<T> {
    alloc: Global,
    puts: Vec<Put<T>>,
    refused: Names,
    faults: u64,
}

impl<T> Model for Shelf<T> {
    ghost use Rattle.std.specs.Prelude.{◌^◌, ◌<◌, All};
    ghost use Rattle.spd_edge.specs.MemoryPlace.{Kept};

    ghost Value = { Kept T };

    ghost view = { λ shelf. record { puts = shelf.puts.items; refused = shelf.refused; faults = shelf.faults } };

    ghost invariant = { λ shelf. All (λ put. put.faults < 2 ^ 64) shelf.puts.items × (shelf.faults < 2 ^ 64) };
}

impl<T: Drop> Shelf<T> {
    ghost use Rattle.spd_edge.specs.MemoryPlace.{closed_on, empty_shelf, opened_on, refused_on, shelf_of};

    pub(crate) fn new(alloc: Global) -> Shelf<T>
        ensures { shelf_of result ≡ empty_shelf }
    {
        Shelf {
            alloc,
            puts: Vec::new(alloc),
            refused: Names::new(alloc),
            faults: 0,
        }
    }

    /// What was put under a name.
    pub(crate) fn object(&self, name: &[u8]) -> Option<&T>
        ensures value { option_copied result ≡ (shelf_of self.now).put name.now }
        ensures in_range { AllInRange (shelf_of self.now).faults }
    {
        match find_put(&self.puts, name) {
            Some(at) => Some(&self.puts[at].object),
            None => None,
        }
    }

    /// What was closed under a name.
    pub(crate) fn closed(&self, name: &[u8]) -> Option<&T>
        ensures { option_copied result ≡ (shelf_of self.now).closed name.now }
    {
        match find_put(&self.puts, name) {
            Some(at) => self.puts[at].closed.as_ref(),
            None => None,
        }
    }

    /// Puts an object under a name. The stage and the count of the name stay as they were.
    pub(crate) fn put(&mut self, name: &[u8], object: T) -> Result<(), Memory>
        requires { (shelf_of self.old).put name.now ≡ None }
        ensures ok { OnOk result (shelf_of self.new ≡ record (shelf_of self.old) { put = updated (shelf_of self.old).put name.now (Some object) }) }
        ensures err { OnErr result (self.new ≡ self.old) }
    {
        let stage = refused_stage(&self.refused, name);
        let name = name.to_vec(self.alloc)?;
        self.puts.push(Put {
            name,
            object,
            closed: None,
            stage,
            faults: self.faults,
        })?;
        Ok(())
    }

    /// Refuses to open a name under which nothing was put, and counts a fault.
    pub(crate) fn refuse(&mut self, name: &[u8]) -> Result<(), Memory>
        requires { (shelf_of self.old).put name.now ≡ None }
        ensures ok { OnOk result (shelf_of self.new ≡ refused_on (shelf_of self.old) name.now) }
        ensures err { OnErr result (self.new ≡ self.old) }
        ensures in_range { AllInRange (shelf_of self.new).faults }
    {
        self.refused.push(name)?;
        self.faults = self.faults.saturating_add(1);
        Ok(())
    }

    /// Notes that what was put under a name is open.
    pub(crate) fn mark_open(&mut self, name: &[u8])
        requires { IsSome ((shelf_of self.old).put name.now) }
        ensures opened { shelf_of self.new ≡ opened_on (shelf_of self.old) name.now }
        ensures in_range { AllInRange (shelf_of self.new).faults }
    {
        match find_put(&self.puts, name) {
            Some(at) => {
                let put = &mut self.puts[at];
                put.stage = Some(Stage::Open);
            }
            None => unreachable!(),
        }
    }

    /// Closes an object under a name that is open, and adds faults to the name's count.
    pub(crate) fn close(&mut self, name: &[u8], object: T, faults: u64)
        requires { (shelf_of self.old).stage name.now ≡ Some Stage.Open }
        ensures closed { shelf_of self.new ≡ closed_on (shelf_of self.old) name.now object faults }
        ensures in_range { AllInRange (shelf_of self.new).faults }
        ensures in_range_before { AllInRange (shelf_of self.old).faults }
    {
        match find_put(&self.puts, name) {
            Some(at) => {
                let put = &mut self.puts[at];
                put.closed = Some(object);
                put.stage = Some(Stage::Closed);
                put.faults = put.faults.saturating_add(faults);
            }
            None => unreachable!(),
        }
    }
}
