//! Answers to lines.

ghost use Rattle.std.specs.Prelude.{◌≡◌, ◌<◌, ◌≤◌, ℤ, pos, length, Ok, Err, All};
ghost use Rattle.spd_model.specs.States.{sizes, IsState};
ghost use Rattle.spd_model.specs.ResultText.{action_name as action_text};
ghost use Rattle.spd_frozen.specs.Fits.{FitsModel, FitsSizes};
ghost use Rattle.spd_frozen.specs.Told.{number_of, action_of};
ghost use Rattle.spd_text.specs.Writing.{Wrote, Counted};
ghost use Rattle.spd_query.specs.declared.line.Query.TheVariants.{State as AtState, Status};
ghost use Rattle.spd_query.specs.Answers.{turn_of, reason_text, answer_to, answer_of};

use crate::line::{Query, Reason};
use crate::read::read_line;
use crate::text::Line;
use spd_edge::{Failed, Sink, write_all_of};
use spd_frozen::Iterate;
use spd_model::{Model, State};
use spd_nodes::Leaf;
use spd_text::action_name;

/// The number that a leaf of a value is.
fn number(leaf: Leaf) -> i128
    ensures { result ≡ number_of leaf }
{
    match leaf {
        Leaf::Num(number) => number,
        Leaf::Pair(_, _) | Leaf::Act(_) => 0,
    }
}

/// The action that a leaf of a policy is.
fn action(leaf: Leaf) -> u32
    ensures { result ≡ action_of leaf }
{
    match leaf {
        Leaf::Act(action) => action,
        Leaf::Num(_) | Leaf::Pair(_, _) => 0,
    }
}

/// The name of an action, which has at most 64 bytes.
fn short_name(model: &Model, action: u32) -> &[u8]
    ensures name { result.now ≡ action_text model.now action }
    ensures short { length result.now ≤ 64 }
{
    // Reading a field tells the proof what every model keeps.
    let _actions = &model.actions;
    action_name(model, action)
}

/// The word for a reason.
fn reason_word(reason: Reason) -> &'static [u8]
    ensures word { result.now ≡ reason_text reason }
    ensures short { length result.now ≤ 64 }
{
    match reason {
        Reason::Long => b"long",
        Reason::Byte => b"byte",
        Reason::Word => b"word",
        Reason::Pair => b"pair",
        Reason::Unknown => b"unknown",
        Reason::Twice => b"twice",
        Reason::Missing => b"missing",
    }
}

/// The value, the policy's action and the error at a state.
fn state_line(model: &Model, iterate: &Iterate, state: &State) -> Line
    requires fits { FitsModel model.now iterate.now }
    requires state { IsState (sizes model.now) state.now }
    ensures { result ≡ answer_to model.now (turn_of iterate.now) (Ok (AtState state.now)) }
{
    let (value, policy) = iterate.at(state);
    let mut line = Line::new();
    line.put(b"turn ");
    line.put_number(iterate.turn);
    line.put(b" value ");
    line.put_units(number(value));
    line.put(b" action ");
    line.put(short_name(model, action(policy)));
    line.put(b" error ");
    line.put_units(iterate.error);
    line.put(b"\n");
    line
}

/// How far the solver is.
fn status_line(model: &Model, iterate: &Iterate) -> Line
    ensures { result ≡ answer_to model.now (turn_of iterate.now) (Ok Status) }
{
    let mut line = Line::new();
    line.put(b"turn ");
    line.put_number(iterate.turn);
    line.put(b" residual ");
    line.put_units(iterate.residual.r);
    line.put(b" error ");
    line.put_units(iterate.error);
    line.put(b"\n");
    line
}

/// Why a line is refused.
fn refusal_line(model: &Model, iterate: &Iterate, reason: Reason) -> Line
    ensures { result ≡ answer_to model.now (turn_of iterate.now) (Err reason) }
{
    let mut line = Line::new();
    line.put(b"refused ");
    line.put(reason_word(reason));
    line.put(b"\n");
    line
}

/// Writes the line that answers a client's line, which has no LF, by a turn of value iteration. It takes no memory and writes once.
///
/// # Errors
///
/// `Failed` where a write failed: the sink then took a front of the answer.
pub fn answer<K: Sink>(
    line: &[u8],
    model: &Model,
    iterate: &Iterate,
    k: &mut K,
) -> Result<(), Failed>
    requires { FitsModel model.now iterate.now }
    ensures text { Wrote (K.taken k.old) (answer_of model.now (turn_of iterate.now) line.now) result (K.taken k.new) }
    ensures count { Counted (K.faults k.old) result (K.faults k.new) }
    ensures named { K.name k.new ≡ K.name k.old }
{
    let answer = match read_line(line, model) {
        Ok(Query::State(state)) => state_line(model, iterate, &state),
        Ok(Query::Status) => status_line(model, iterate),
        Err(reason) => refusal_line(model, iterate, reason),
    };
    write_all_of(k, answer.bytes())
}
