//! The number and the message of a status.
ghost use Rattle.std.specs.Prelude.{◌≡◌};
ghost use Rattle.spd_text.specs.Writing.{Wrote, Counted};
ghost use Rattle.spd_solver.specs.Message.{status_number, message_of};

use crate::pieces::write_pieces;
use crate::refusals::{cert_place_of, cert_words_of, place_of, words_of};
use crate::status::{Stage, Status};
use itoa::Buffer;
use spd_cert::CertRefusal;
use spd_edge::{Failed, Sink};
use spd_model::Text;
use spd_scaled::put_units;
use spd_syntax::Refusal;

/// The exit status of a program that ends so.
pub fn number(status: &Status) -> u8
    ensures { result ≡ status_number status.now }
{
    match status {
        Status::Done => 0,
        Status::Usage { .. } => 2,
        Status::OpenFault { .. } | Status::ReadFault { .. } => 3,
        Status::TooLong { .. } => 4,
        Status::Refused { .. } => 5,
        Status::Sum { .. } => 6,
        Status::Range { .. } => 7,
        Status::TurnLimit { .. } => 8,
        Status::NodeLimit { .. } => 9,
        Status::CertRefused { .. } => 10,
        Status::No => 11,
        Status::WriteFault => 12,
        Status::TooManyStates { .. } => 13,
        Status::Memory => 14,
        Status::OtherModel { .. } => 16,
    }
}

/// Writes the message of a file that is refused.
fn write_refusal<K: Sink>(k: &mut K, refusal: Refusal) -> Result<(), Failed>
    ensures text { Wrote (K.taken k.old) (message_of (Status.Refused refusal)) result (K.taken k.new) }
    ensures count { Counted (K.faults k.old) result (K.faults k.new) }
    ensures named { K.name k.new ≡ K.name k.old }
{
    let mut digits = Buffer::new();
    let place = digits.format(place_of(refusal));
    let (words, name) = words_of(refusal);
    write_pieces(
        k,
        &[
            b"refused at byte ",
            place.as_bytes(),
            b": ",
            words,
            name,
            b"\n",
        ],
    )
}

/// Writes the message of a certificate that is refused.
fn write_cert_refusal<K: Sink>(k: &mut K, refusal: CertRefusal) -> Result<(), Failed>
    ensures text { Wrote (K.taken k.old) (message_of (Status.CertRefused refusal)) result (K.taken k.new) }
    ensures count { Counted (K.faults k.old) result (K.faults k.new) }
    ensures named { K.name k.new ≡ K.name k.old }
{
    let mut digits = Buffer::new();
    let place = digits.format(cert_place_of(refusal));
    write_pieces(
        k,
        &[
            b"certificate refused at byte ",
            place.as_bytes(),
            b": ",
            cert_words_of(refusal),
            b"\n",
        ],
    )
}

/// Writes the message of words that can't be run, by the number of the first word that can't stand.
fn write_usage<K: Sink>(k: &mut K, word: usize) -> Result<(), Failed>
    ensures text { Wrote (K.taken k.old) (message_of (Status.Usage word)) result (K.taken k.new) }
    ensures count { Counted (K.faults k.old) result (K.faults k.new) }
    ensures named { K.name k.new ≡ K.name k.old }
{
    let mut digits = Buffer::new();
    let number = digits.format(word);
    write_pieces(k, &[b"usage: word ", number.as_bytes(), b"\n"])
}

/// Writes the message of a process with too many states, by the product that passes their limit.
fn write_states<K: Sink>(k: &mut K, product: u32) -> Result<(), Failed>
    ensures text { Wrote (K.taken k.old) (message_of (Status.TooManyStates product)) result (K.taken k.new) }
    ensures count { Counted (K.faults k.old) result (K.faults k.new) }
    ensures named { K.name k.new ≡ K.name k.old }
{
    let mut digits = Buffer::new();
    let number = digits.format(product);
    write_pieces(
        k,
        &[b"too many states: ", number.as_bytes(), b" or more", b"\n"],
    )
}

/// Writes the message of a sum that isn't one. The sum is in units of 10^-12.
fn write_sum<'a, K: Sink>(
    k: &mut K,
    action: &'a Text,
    var: &'a Text,
    state: &'a Text,
    sum: i128,
) -> Result<(), Failed>
    ensures text { Wrote (K.taken k.old) (message_of (Status.Sum action.now var.now state.now sum)) result (K.taken k.new) }
    ensures count { Counted (K.faults k.old) result (K.faults k.new) }
    ensures named { K.name k.new ≡ K.name k.old }
{
    let mut digits = [0; 64];
    let len = put_units(sum, 12, &mut digits);
    write_pieces(
        k,
        &[
            b"sum of action ",
            action.as_slice(),
            b", variable ",
            var.as_slice(),
            b" at ",
            state.as_slice(),
            b" is ",
            &digits[..len],
            b"\n",
        ],
    )
}

/// Writes the message of a reward that passes its limit. The reward is in units of 10^-9.
fn write_range<'a, K: Sink>(
    k: &mut K,
    action: &'a Text,
    state: &'a Text,
    value: i128,
) -> Result<(), Failed>
    ensures text { Wrote (K.taken k.old) (message_of (Status.Range action.now state.now value)) result (K.taken k.new) }
    ensures count { Counted (K.faults k.old) result (K.faults k.new) }
    ensures named { K.name k.new ≡ K.name k.old }
{
    let mut digits = [0; 64];
    let len = put_units(value, 9, &mut digits);
    write_pieces(
        k,
        &[
            b"reward of action ",
            action.as_slice(),
            b" at ",
            state.as_slice(),
            b" is ",
            &digits[..len],
            b"\n",
        ],
    )
}

/// Writes the message of a run that its turn limit ended. The residual is in units of 10^-9.
fn write_turn_limit<K: Sink>(k: &mut K, residual: i128) -> Result<(), Failed>
    ensures text { Wrote (K.taken k.old) (message_of (Status.TurnLimit residual)) result (K.taken k.new) }
    ensures count { Counted (K.faults k.old) result (K.faults k.new) }
    ensures named { K.name k.new ≡ K.name k.old }
{
    let mut digits = [0; 64];
    let len = put_units(residual, 9, &mut digits);
    write_pieces(
        k,
        &[b"turn limit reached, residual ", &digits[..len], b"\n"],
    )
}

/// Writes the message of a stage with more nodes than its limit.
fn write_node_limit<K: Sink>(k: &mut K, stage: Stage, limit: u32) -> Result<(), Failed>
    ensures text { Wrote (K.taken k.old) (message_of (Status.NodeLimit stage limit)) result (K.taken k.new) }
    ensures count { Counted (K.faults k.old) result (K.faults k.new) }
    ensures named { K.name k.new ≡ K.name k.old }
{
    let mut digits = Buffer::new();
    let nodes = digits.format(limit);
    match stage {
        Stage::Building => write_pieces(
            k,
            &[b"node limit ", nodes.as_bytes(), b" passed in building\n"],
        ),
        Stage::Turn(turn) => {
            let mut digits = Buffer::new();
            let number = digits.format(turn);
            write_pieces(
                k,
                &[
                    b"node limit ",
                    nodes.as_bytes(),
                    b" passed in turn ",
                    number.as_bytes(),
                    b"\n",
                ],
            )
        }
        Stage::Check => write_pieces(
            k,
            &[b"node limit ", nodes.as_bytes(), b" passed in check\n"],
        ),
    }
}

/// Writes the message of a status: one line, or nothing for `Done`.
///
/// # Errors
///
/// `Failed` where a write failed: the sink then took the front of the message.
pub fn write_message<K: Sink>(status: &Status, k: &mut K) -> Result<(), Failed>
    ensures text { Wrote (K.taken k.old) (message_of status.now) result (K.taken k.new) }
    ensures count { Counted (K.faults k.old) result (K.faults k.new) }
    ensures named { K.name k.new ≡ K.name k.old }
{
    match status {
        Status::Done => Ok(()),
        Status::Usage { word } => write_usage(k, *word),
        Status::OpenFault { name } => write_pieces(k, &[b"cannot open ", name.as_slice(), b"\n"]),
        Status::ReadFault { name } => write_pieces(k, &[b"cannot read ", name.as_slice(), b"\n"]),
        Status::TooLong { name } => write_pieces(k, &[name.as_slice(), b" is too long", b"\n"]),
        Status::Refused { refusal } => write_refusal(k, *refusal),
        Status::OtherModel { .. } => {
            write_pieces(k, &[b"certificate is of another model", b"\n"])
        }
        Status::CertRefused { refusal } => write_cert_refusal(k, *refusal),
        Status::TooManyStates { product } => write_states(k, *product),
        Status::Sum {
            action,
            var,
            state,
            sum,
        } => write_sum(k, action, var, state, *sum),
        Status::Range {
            action,
            state,
            value,
        } => write_range(k, action, state, *value),
        Status::TurnLimit { residual } => write_turn_limit(k, *residual),
        Status::NodeLimit { stage, limit } => write_node_limit(k, *stage, *limit),
        Status::No => write_pieces(k, &[b"certificate does not hold", b"\n"]),
        Status::WriteFault => write_pieces(k, &[b"cannot write", b"\n"]),
        Status::Memory => write_pieces(k, &[b"out of memory", b"\n"]),
    }
}
