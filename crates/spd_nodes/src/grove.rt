//! The forest over a table that threads share.

ghost use Rattle.std.specs.Prelude.{◌≡◌, ◌+◌, ◌<◌, [], ◌∷◌, IfOk, IfErr, true, length};
ghost use Rattle.spd_cons.specs.Values.{IsSeatOf};
ghost use Rattle.spd_nodes.specs.Levels.{levels_of, slots};
ghost use Rattle.spd_nodes.specs.Trees.{Ends, join, CanTest};
ghost use Rattle.spd_nodes.specs.Shown.{IsSound, Grows, MakesOnly, KnowsAs, Faults, MakesTree, test_steps};
ghost use Rattle.spd_nodes.specs.KnownTrees.{AllFitIn, CanBeMade};
ghost use Rattle.spd_nodes.specs.Grove.{shown_of, standing_of, FindsKey, Splits, Joins};

use crate::alone::{key_of, view_of};
use crate::forest::{Forest, Ref, StoreFault, View};
use crate::layout::{Layout, Level};
use crate::leaf::Leaf;
use spd_cons::{Cons, Seat};
use spd_cons_core::{Key, Steps};
use std::marker::Model;
use std::sync::ledger::Ledger;

/// What no call of a grove changes: its table, the seats that its seat stands for, and its splits left. No value of it is
/// made.
pub struct Standing;

impl Model for Standing {
    ghost use Rattle.spd_nodes.specs.Grove.{StandingValue, no_standing};

    ghost Value = { StandingValue };

    ghost view = { λ s. no_standing };
}

/// A forest over a table that threads share, through a seat of its own. It never answers Memory. Contracts see each
/// variable's number of values, and the seat.
#[derive(Drop)]
pub struct Grove<'a> {
    cons: &'a Cons,
    seat: Seat,
    layout: &'a Layout,
}

impl<'a> Model for Grove<'a> {
    ghost use Rattle.spd_nodes.specs.Grove.{GroveValue, IsGrove};

    ghost Value = { GroveValue };

    ghost view = { λ g. record { sizes = g.layout.now; seat = g.seat } };

    ghost invariant = { λ g. IsGrove g.cons.now (record { sizes = g.layout.now; seat = g.seat }) };
}

impl<'a> Grove<'a> {
    /// A forest over a table, through a seat of this table all of whose keys are nodes of the layout.
    pub fn new(cons: &'a Cons, seat: Seat, layout: &'a Layout) -> Grove<'a>
        requires own { seat.table ≡ cons.now }
        requires fit { AllFitIn (slots layout.now) seat.mind.knows }
        ensures grove { result ≡ record { sizes = layout.now; seat = seat } }
        ensures sound { IsSound (shown_of result) }
    {
        seat.facts();
        let _ = layout.sizes();
        Grove { cons, seat, layout }
    }

    /// The seat, with all that it knows.
    pub fn seat(self) -> Seat
        ensures seat { result ≡ self.entry.seat }
        ensures fits { AllFitIn (slots self.entry.sizes) result.mind.knows }
    {
        let Grove {
            cons: _,
            seat,
            layout: _,
        } = self;
        seat
    }

    /// How many entries its seat has published.
    pub fn published(&self) -> usize
        ensures { result ≡ length self.now.seat.mind.published }
    {
        self.seat.published()
    }

    /// What holds of every grove.
    fn facts(&self)
        ensures seat { IsSeatOf self.now.seat }
        ensures fit { AllFitIn (slots self.now.sizes) self.now.seat.mind.knows }
        ensures sound { IsSound (shown_of self.now) }
    {
        let _ = self.layout.sizes();
    }

    /// A new grove over the same table and the same variables, through a seat that is split off this one's.
    pub fn split(&mut self) -> Grove<'a>
        requires { 0 < self.old.seat.mind.splits }
        ensures sizes { (self.new.sizes ≡ self.old.sizes) × (result.sizes ≡ self.old.sizes) }
        ensures splits { Splits self.old self.new result }
        ensures sound { IsSound (shown_of result) }
    {
        let _ = self.layout.sizes();
        let seat = self.cons.split(&mut self.seat);
        self.seat.facts();
        seat.facts();
        Grove {
            cons: self.cons,
            seat,
            layout: self.layout,
        }
    }

    /// Takes over another grove of the same table and the same variables, with all that it knows and has published.
    pub fn join(&mut self, other: Grove<'a>)
        requires table { other.seat.table ≡ self.old.seat.table }
        requires sizes { other.sizes ≡ self.old.sizes }
        ensures joins { Joins self.old other.entry self.new }
        ensures sound { IsSound (shown_of self.new) }
    {
        let _ = self.layout.sizes();
        let seat = other.seat();
        self.cons.join(&mut self.seat, seat);
    }

    /// The entry of a leaf, in one step.
    fn find_leaf<L: Ledger>(&mut self, leaf: Leaf, steps: &mut Steps<L>) -> Result<Ref, StoreFault>
        ensures made { MakesTree (shown_of self.old) (shown_of self.new) (Ends leaf) result }
        ensures full { IfErr result (λ e. e ≡ StoreFault.Full) }
        ensures keeps { standing_of self.new ≡ standing_of self.old }
        ensures cost { steps.new ≡ steps.old + 1 }
    {
        self.find(key_of(leaf), steps)
    }

    /// The entry of a key, in one step.
    fn find<L: Ledger>(&mut self, key: Key, steps: &mut Steps<L>) -> Result<Ref, StoreFault>
        requires { CanBeMade (slots self.old.sizes) self.old.seat.mind.knows key }
        ensures finds { FindsKey self.old self.new key result }
        ensures cost { steps.new ≡ steps.old + 1 }
    {
        match self.cons.find_or_make(&mut self.seat, key, steps) {
            Ok(e) => Ok(e),
            Err(_) => Err(StoreFault::Full),
        }
    }
}

impl<'a> Forest for Grove<'a> {
    type Kept = Standing;

    ghost shows = { λ g. shown_of g };

    ghost kept = { λ g. standing_of g };

    fn layout(&self) -> &Layout {
        self.layout
    }

    /// It never answers Memory.
    fn leaf<L: Ledger>(&mut self, leaf: Leaf, steps: &mut Steps<L>) -> Result<Ref, StoreFault>
        ensures sound { IsSound (shown_of self.new) }
        ensures grows { Grows (shown_of self.old) (shown_of self.new) }
        ensures keeps { standing_of self.new ≡ standing_of self.old }
        ensures ok { IfOk result (λ r. KnowsAs (shown_of self.new) r (Ends leaf)) }
        ensures makes { MakesOnly (shown_of self.old) (shown_of self.new) (Ends leaf ∷ []) }
        ensures fault { IfErr result (λ e. Faults e (shown_of self.new) (Ends leaf ∷ [])) }
        ensures cost { steps.new ≡ steps.old + 1 }
        ensures full { IfErr result (λ e. e ≡ StoreFault.Full) }
    {
        self.find_leaf(leaf, steps)
    }

    /// It never answers Memory.
    fn test<L: Ledger>(
        &mut self,
        level: Level,
        yes: Ref,
        no: Ref,
        steps: &mut Steps<L>,
    ) -> Result<Ref, StoreFault>
        requires level { level.0 < levels_of (slots self.old.sizes) }
        requires yes { (shown_of self.old).knows yes ≡ true }
        requires no { (shown_of self.old).knows no ≡ true }
        requires fits { CanTest (slots self.old.sizes) level.0 ((shown_of self.old).tree yes) ((shown_of self.old).tree no) }

        ensures sound { IsSound (shown_of self.new) }
        ensures grows { Grows (shown_of self.old) (shown_of self.new) }
        ensures keeps { standing_of self.new ≡ standing_of self.old }
        ensures ok { IfOk result (λ r. KnowsAs (shown_of self.new) r (join level.0 ((shown_of self.old).tree yes) ((shown_of self.old).tree no))) }
        ensures makes { MakesOnly (shown_of self.old) (shown_of self.new) (join level.0 ((shown_of self.old).tree yes) ((shown_of self.old).tree no) ∷ []) }
        ensures fault { IfErr result (λ e. Faults e (shown_of self.new) (join level.0 ((shown_of self.old).tree yes) ((shown_of self.old).tree no) ∷ [])) }
        ensures cost { steps.new ≡ steps.old + test_steps yes no }
        ensures full { IfErr result (λ e. e ≡ StoreFault.Full) }
    {
        self.facts();
        if yes.0 == no.0 {
            return Ok(no);
        }
        self.find(
            Key::Test {
                level: level.0,
                yes,
                no,
            },
            steps,
        )
    }

    #[inline(always)]
    fn view(&mut self, r: Ref) -> View {
        view_of(self.cons.read(&mut self.seat, r))
    }
}
