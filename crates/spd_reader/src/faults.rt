//! The least fault of those that were found.

ghost use Rattle.std.specs.Prelude.{◌≡◌};
ghost use Rattle.spd_reader.specs.Faults.{rank, is_before, lesser, least, when};

use spd_syntax::Refusal;

/// The place of a fault, and its number among the kinds of faults.
fn rank(refusal: Refusal) -> (usize, u8)
    ensures { (result.0, result.1) ≡ rank refusal }
{
    match refusal {
        Refusal::BadByte { at } => (at, 1),
        Refusal::Expected { at, .. } => (at, 2),
        Refusal::Number { at } => (at, 3),
        Refusal::TooFine { at } => (at, 4),
        Refusal::TooLarge { at } => (at, 5),
        Refusal::Negative { at } => (at, 6),
        Refusal::TooMany { at, .. } => (at, 7),
        Refusal::LeftOut { at } => (at, 8),
        Refusal::Unknown { at } => (at, 9),
        Refusal::Twice { at } => (at, 10),
        Refusal::MissingBranch { at } => (at, 11),
        Refusal::MissingVariable { at, .. } => (at, 12),
        Refusal::Primed { at } => (at, 13),
    }
}

fn is_before(a: (usize, u8), b: (usize, u8)) -> bool
    ensures { result ≡ is_before (a.0, a.1) (b.0, b.1) }
{
    a.0 < b.0 || (a.0 == b.0 && a.1 < b.1)
}

/// Keeps the lesser of the fault that was found and this one.
pub(crate) fn note(found: &mut Option<Refusal>, refusal: Refusal)
    ensures { found.new ≡ lesser found.old refusal }
{
    match *found {
        None => *found = Some(refusal),
        Some(other) => {
            if is_before(rank(refusal), rank(other)) {
                *found = Some(refusal);
            }
        }
    }
}

/// Notes a fault, where a rule is broken.
#[tactic(auto, unfolding(crate::specs::Faults::least))]
pub(crate) fn note_if(found: &mut Option<Refusal>, broken: bool, refusal: Refusal)
    ensures { found.new ≡ least found.old (when broken refusal) }
{
    if broken {
        note(found, refusal);
    }
}
