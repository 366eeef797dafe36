//! The first of two states.

ghost use Rattle.std.specs.Prelude.{◌≡◌, ◌||◌, ℕ, Bool, List, find, length, nat_lt, Some, IfSome, option_map};
ghost use Rattle.spd_model.specs.States.{IsState, rank, states};
ghost use Rattle.spd_search.specs.declared.found.Found.{Found as F};
ghost use Rattle.spd_check.specs.inner.Judging.{first_of_both, sided};

use spd_model::{Side, State};
use spd_search::Found;

/// Where a certificate fails.
#[derive(Debug, Drop)]
pub(crate) struct Failure {
    /// The state.
    pub state: State,
    /// The side.
    pub side: Side,
}

/// Whether a state comes before another one of the same variables, in the order of the states.
#[tactic(auto, using(crate::proofs::OrderLaws::order_laws))]
fn comes_before(a: &State, b: &State) -> bool
    requires { length a.now ≡ length b.now }
    ensures { (sizes : List ℕ) → IsState sizes a.now → IsState sizes b.now → result ≡ nat_lt (rank sizes a.now) (rank sizes b.now) }
{
    for var in 0..a.len() {
        if a.get(var) != b.get(var) {
            return a.get(var) < b.get(var);
        }
    }
    false
}

/// Where a certificate fails first, by the first state at which it fails above and the first one at which it fails below. Above comes
/// before below.
pub(crate) fn first_of(above: Option<Found>, below: Option<Found>) -> Option<Failure>
    requires { (a b : F) → above ≡ Some a → below ≡ Some b → length a.state ≡ length b.state }
    ensures state { (sizes : List ℕ) → IfSome above (λ a. IsState sizes a.state) → IfSome below (λ b. IsState sizes b.state) → IfSome result (λ f. IsState sizes f.state) }
    ensures first { (sizes : List ℕ) (p q : List ℕ → Bool) → option_map (λ (x : F). x.state) above ≡ find p (states sizes) → option_map (λ (x : F). x.state) below ≡ find q (states sizes) → result ≡ first_of_both sizes p q }
{
    match (above, below) {
        (None, None) => None,
        (Some(above), None) => Some(Failure {
            state: above.state,
            side: Side::Above,
        }),
        (None, Some(below)) => Some(Failure {
            state: below.state,
            side: Side::Below,
        }),
        (Some(above), Some(below)) => {
            if comes_before(&below.state, &above.state) {
                Some(Failure {
                    state: below.state,
                    side: Side::Below,
                })
            } else {
                Some(Failure {
                    state: above.state,
                    side: Side::Above,
                })
            }
        }
    }
}
