//! The names that a place was asked to open in one direction, each with its stage.
ghost use Rattle.std.specs.Prelude.{◌≡◌, [], None, Some, IsSome, position, OnOk, OnErr};
ghost use Rattle.std.specs.Str.{bytes_eq};
ghost use Rattle.spd_edge.specs.Names.{updated};
ghost use Rattle.spd_edge.specs.declared.outside.Stage.TheVariants as Stage;

use crate::outside::{Memory, Stage};
use std::alloc::Global;
use std::marker::Model;

/// A name and its stage.
#[derive(Drop)]
struct Opening {
    name: Vec<u8>,
    stage: Stage,
}

/// The first place in the list at which a name stands.
fn find_opening(openings: &[Opening], name: &[u8]) -> Option<usize>
    ensures { result ≡ position (λ opening. bytes_eq opening.name.items name.now) openings.now }
{
    openings
        .iter()
        .position(|opening| opening.name.as_slice() == name)
}

/// The names that a place was asked to open in one direction.
#[derive(Drop)]
pub(crate) struct Openings {
    alloc: Global,
    openings: Vec<Opening>,
}

impl Model for Openings {
    ghost use Rattle.std.specs.Prelude.{List};
    ghost use Rattle.spd_edge.specs.declared.openings.Opening.{Opening};

    ghost Value = { List Opening };

    ghost view = { λ openings. openings.openings.items };
}

impl Openings {
    ghost use Rattle.spd_edge.specs.Openings.{stage_among};

    pub(crate) fn new(alloc: Global) -> Openings
        ensures { result ≡ [] }
    {
        Openings {
            alloc,
            openings: Vec::new(alloc),
        }
    }

    /// Notes that the place is asked to open a name.
    pub(crate) fn ask(&mut self, name: &[u8]) -> Result<(), Memory>
        requires { stage_among self.old name.now ≡ None }
        ensures ok { OnOk result (stage_among self.new ≡ updated (stage_among self.old) name.now (Some Stage.Unopened)) }
        ensures err { OnErr result (self.new ≡ self.old) }
    {
        let name = name.to_vec(self.alloc)?;
        self.openings.push(Opening {
            name,
            stage: Stage::Unopened,
        })?;
        Ok(())
    }

    /// Sets the stage of a name that the place was asked to open.
    pub(crate) fn set(&mut self, name: &[u8], stage: Stage)
        requires { IsSome (stage_among self.old name.now) }
        ensures { stage_among self.new ≡ updated (stage_among self.old) name.now (Some stage) }
    {
        match find_opening(&self.openings, name) {
            Some(at) => {
                let opening = &mut self.openings[at];
                opening.stage = stage;
            }
            None => unreachable!(),
        }
    }
}
