//! A place in memory: inputs and outputs that were put there under names.
ghost use Rattle.std.specs.Prelude.{◌≡◌, [], None, Some, IfOk, OnOk, OnErr, option_map, option_copied};
ghost use Rattle.spd_edge.specs.Counts.{AllInRange, NoneFalls};
ghost use Rattle.spd_edge.specs.Direction.{AfterOpen, Closes};
ghost use Rattle.spd_edge.specs.Names.{SameButFor, updated};
ghost use Rattle.spd_edge.specs.MemoryPlace.{AllPut, IsUnread, IsUnwritten, MemoryPlace, OpensOn, closed_on, empty_shelf, inputs_of, outputs_of, input_direction, output_direction, shelf_of};
ghost use Rattle.spd_edge.specs.declared.outside.Stage.TheVariants as Stage;

use crate::in_memory::{MemIn, MemOut};
use crate::outside::{Memory, Open, Place};
use crate::shelf::Shelf;
use std::alloc::Global;
use std::marker::Model;

/// A place in memory: inputs and outputs are put there under names, and are opened by them. In each
/// direction opens of other names fail, and all these names share one count of faults.
#[derive(Drop)]
pub struct MemPlace {
    inputs: Shelf<MemIn>,
    outputs: Shelf<MemOut>,
}

impl Model for MemPlace {
    ghost Value = { MemoryPlace };

    ghost view = { λ place. record { inputs = place.inputs; outputs = place.outputs } };

    ghost invariant = { λ place. AllPut IsUnread (shelf_of place.inputs) × AllPut IsUnwritten (shelf_of place.outputs) };
}

impl MemPlace {
    /// A place with no inputs and no outputs.
    pub fn new(alloc: Global) -> MemPlace
        ensures inputs { inputs_of result ≡ empty_shelf }
        ensures outputs { outputs_of result ≡ empty_shelf }
    {
        MemPlace {
            inputs: Shelf::new(alloc),
            outputs: Shelf::new(alloc),
        }
    }

    /// Puts an input there, which shows the name from then on. The count of the name begins at that
    /// of the names under which nothing was put.
    pub fn put_in(&mut self, name: &[u8], input: MemIn) -> Result<(), Memory>
        requires new_name { (inputs_of self.old).put name.now ≡ None }
        requires no_fault_yet { input.faults ≡ 0 }

        ensures ok { OnOk result (inputs_of self.new ≡ record (inputs_of self.old) { put = updated (inputs_of self.old).put name.now (Some (record input { name = name.now })) }) }
        ensures outputs { outputs_of self.new ≡ outputs_of self.old }
        ensures err { OnErr result (self.new ≡ self.old) }
    {
        let input = input.named(name)?;
        self.inputs.put(name, input)?;
        Ok(())
    }

    /// Puts an output there, which shows the name from then on. The count of the name begins at that
    /// of the names under which nothing was put.
    pub fn put_out(&mut self, name: &[u8], output: MemOut) -> Result<(), Memory>
        requires new_name { (outputs_of self.old).put name.now ≡ None }
        requires no_fault_yet { output.faults ≡ 0 }
        requires empty { output.taken ≡ [] }

        ensures ok { OnOk result (outputs_of self.new ≡ record (outputs_of self.old) { put = updated (outputs_of self.old).put name.now (Some (record output { name = name.now })) }) }
        ensures inputs { inputs_of self.new ≡ inputs_of self.old }
        ensures err { OnErr result (self.new ≡ self.old) }
    {
        let output = output.named(name)?;
        self.outputs.put(name, output)?;
        Ok(())
    }

    /// The bytes that a closed output took. `None` exactly where no output of that name was closed.
    pub fn taken(&self, name: &[u8]) -> Option<&[u8]>
        ensures { option_copied result ≡ option_map (λ output. output.taken) ((outputs_of self.now).closed name.now) }
    {
        match self.outputs.closed(name) {
            Some(output) => Some(output.taken()),
            None => None,
        }
    }
}

impl Place for MemPlace {
    type In = MemIn;

    type Out = MemOut;

    ghost inputs = { λ place. input_direction (inputs_of place) };

    ghost outputs = { λ place. output_direction (outputs_of place) };

    fn open_in(&mut self, name: &[u8]) -> Result<MemIn, Open>
        requires { (inputs_of self.old).stage name.now ≡ None }
        ensures opens { OpensOn (inputs_of self.old) (inputs_of self.new) name.now result }
        ensures outputs { outputs_of self.new ≡ outputs_of self.old }

        // Of the trait's clauses, those that do not follow.
        ensures named { IfOk result (λ input. input.name ≡ name.now) }
        ensures no_fault_yet { IfOk result (λ input. input.faults ≡ 0) }
        ensures inputs { AfterOpen (input_direction (inputs_of self.old)) (input_direction (inputs_of self.new)) name.now result }
        ensures never_falls { NoneFalls (inputs_of self.old).faults (inputs_of self.new).faults }
        ensures in_range { AllInRange (inputs_of self.new).faults }
    {
        match self.inputs.object(name) {
            Some(input) => {
                let input = input.copied()?;
                self.inputs.mark_open(name);
                Ok(input)
            }
            None => {
                self.inputs.refuse(name)?;
                Err(Open::Failed)
            }
        }
    }

    fn open_out(&mut self, name: &[u8]) -> Result<MemOut, Open>
        requires { (outputs_of self.old).stage name.now ≡ None }
        ensures opens { OpensOn (outputs_of self.old) (outputs_of self.new) name.now result }
        ensures inputs { inputs_of self.new ≡ inputs_of self.old }

        // Of the trait's clauses, those that do not follow.
        ensures named { IfOk result (λ output. output.name ≡ name.now) }
        ensures no_fault_yet { IfOk result (λ output. output.faults ≡ 0) }
        ensures empty { IfOk result (λ output. output.taken ≡ []) }
        ensures outputs { AfterOpen (output_direction (outputs_of self.old)) (output_direction (outputs_of self.new)) name.now result }
        ensures never_falls { NoneFalls (outputs_of self.old).faults (outputs_of self.new).faults }
        ensures in_range { AllInRange (outputs_of self.new).faults }
    {
        match self.outputs.object(name) {
            Some(output) => {
                let output = output.copied()?;
                self.outputs.mark_open(name);
                Ok(output)
            }
            None => {
                self.outputs.refuse(name)?;
                Err(Open::Failed)
            }
        }
    }

    fn close_in(&mut self, name: &[u8], input: MemIn)
        requires named { input.name ≡ name.now }
        requires is_open { (inputs_of self.old).stage name.now ≡ Some Stage.Open }
        ensures closes { inputs_of self.new ≡ closed_on (inputs_of self.old) name.now input input.faults }
        ensures outputs { outputs_of self.new ≡ outputs_of self.old }

        // Of the trait's clauses, those that do not follow.
        ensures holds { (input_direction (inputs_of self.new)).holds ≡ (input_direction (inputs_of self.old)).holds }
        ensures inputs { Closes (input_direction (inputs_of self.old)) (input_direction (inputs_of self.new)) name.now input.faults }
        ensures never_falls { NoneFalls (inputs_of self.old).faults (inputs_of self.new).faults }
        ensures in_range { AllInRange (inputs_of self.new).faults }
    {
        let faults = input.faults();
        self.inputs.close(name, input, faults);
    }

    fn close_out(&mut self, name: &[u8], output: MemOut)
        requires named { output.name ≡ name.now }
        requires is_open { (outputs_of self.old).stage name.now ≡ Some Stage.Open }
        ensures closes { outputs_of self.new ≡ closed_on (outputs_of self.old) name.now output output.faults }
        ensures inputs { inputs_of self.new ≡ inputs_of self.old }

        // Of the trait's clauses, those that do not follow.
        ensures holds { (output_direction (outputs_of self.new)).holds name.now ≡ Some output.taken }
        ensures other_holds { SameButFor (output_direction (outputs_of self.old)).holds (output_direction (outputs_of self.new)).holds name.now }
        ensures outputs { Closes (output_direction (outputs_of self.old)) (output_direction (outputs_of self.new)) name.now output.faults }
        ensures never_falls { NoneFalls (outputs_of self.old).faults (outputs_of self.new).faults }
        ensures in_range { AllInRange (outputs_of self.new).faults }
    {
        let faults = output.faults();
        self.outputs.close(name, output, faults);
    }
}
