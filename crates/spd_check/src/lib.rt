//! The judge of certificates.
//!
//! `spd_check` judges, on decision diagrams, whether a value and a policy hold with a residual: whether no action's upper bound lies more
//! than the residual above the value at any state, nor the lower bound of the policy's own action more than it below. `check_in` works in
//! any forest, `check` on a certificate and its model, which it builds, in forests of its own, and `judge_text` on a text. Where the
//! answer is yes, no course of action returns more than the value plus the residual over one minus the discount, and the policy returns no
//! less than the value minus as much, whoever wrote the certificate.
//!
//! The value is backed up by all actions as in a turn of value iteration (SPUDD, UAI 1999). The greatest upper bound and the lower bound of
//! the policy's action become two diagrams, and so do the gaps between them and the value. The first state at which a gap is too great is
//! found along each of the two, so that no state is tried on its own.
#![tactic(auto)]

mod alone;
mod checking;
mod first;
mod gaps;
mod given;
mod highest;
mod judging;
mod once;
mod own;
mod text;
mod verdict;

pub use alone::check;
pub use checking::check_in;
pub use text::{Judgement, Unjudged, judge_text};
pub use verdict::{CheckFault, Verdict};
