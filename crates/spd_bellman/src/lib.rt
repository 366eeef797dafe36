//! What a Bellman residual is worth: the bound for every state, every course of action and every number of steps.
//!
//! `spd_bellman` has no code that runs. Its public functions carry laws over the definitions: the rounded bounds enclose the
//! exact expected return, a value whose policy and residual hold bounds every course of action in every number of steps, no value
//! of any turn leaves its bound, a run stops at the first turn at which its rule holds, and how many turns are enough for that is
//! known after the first.
#![tactic(auto)]

ghost use Rattle.std.specs.Prelude.{Bool, true, All, ℕ, suc, ◌^◌, ◌<◌, ◌≤◌, ◌≡◌, length, List, Contains, ℤ, pos, ◌+ℤ◌, ◌*ℤ◌, ◌≤ℤ◌};
ghost use Rattle.spd_model.specs.declared.process.Action.{Action};
ghost use Rattle.spd_model.specs.declared.Why.TheVariants.{Done};
ghost use Rattle.spd_model.specs.Process.{Process};
ghost use Rattle.spd_model.specs.States.{sizes, IsState, sum_over_states};
ghost use Rattle.spd_model.specs.Chances.{IsValid, discount_one, joint, scale_of};
ghost use Rattle.spd_model.specs.Backup.{low_of, high_of, policy_of};
ghost use Rattle.spd_model.specs.Turns.{residual_of, turn, rule_at, stop_of, value_limit, IsBounded};
ghost use Rattle.spd_model.specs.Lawful.{IsLawful};
ghost use Rattle.spd_model.specs.Stops.{first_stop, IsFirstStop};
ghost use Rattle.spd_scaled.specs.Scaled.{IsWithin};
ghost use Rattle.spd_bellman.specs.Courses.{IsPolicy, IsAmongCourses, exact_return};
ghost use Rattle.spd_bellman.specs.Certificate.{Holds};
ghost use Rattle.spd_bellman.specs.Bound.{IsBoundAbove, IsBoundBelow, IsPolicyNear, IsNearOptimal};
ghost use Rattle.spd_bellman.specs.TurnBound.{residual_at, added_by_turn, is_enough, leaves_room};

/// The joint probabilities of all next states are at least 0, and sum to one.
///
/// They count in parts of 10^12 to the power of the number of variables.
pub fn law_joint()
    ensures nonnegative { (m : Process) → IsValid m → (a : Action) → Contains m.actions a → (s t : List ℕ)
        → IsState (sizes m) s → IsState (sizes m) t → pos 0 ≤ℤ joint m a s t }
    ensures whole { (m : Process) → IsValid m → (a : Action) → Contains m.actions a → (s : List ℕ) → IsState (sizes m) s
        → sum_over_states (sizes m) (joint m a s) ≡ pos ((10 ^ 12) ^ length m.vars) }
{}

/// The rounded bounds of an action enclose its exact expected return, whatever value follows.
pub fn law_enclosure()
    ensures below { (m : Process) → IsValid m → (w : List ℕ → ℤ) (a : Action) → Contains m.actions a → (s : List ℕ)
        → IsState (sizes m) s → (pos (scale_of m) *ℤ low_of m w a s) ≤ℤ exact_return m (joint m) (scale_of m) w a s }
    ensures above { (m : Process) → IsValid m → (w : List ℕ → ℤ) (a : Action) → Contains m.actions a → (s : List ℕ)
        → IsState (sizes m) s → exact_return m (joint m) (scale_of m) w a s ≤ℤ (pos (scale_of m) *ℤ high_of m w a s) }
{}

/// To follow a policy, or one for each number of steps left, is a course of action, so what holds of every course holds of it.
pub fn law_policy()
    ensures { (m : Process) (policy : ℕ → List ℕ → ℕ) → ((left : ℕ) → IsPolicy m (policy left)) → IsAmongCourses m policy }
{}

/// Where a certificate holds, no course of action returns more than the value plus the residual over one minus the
/// discount, and the policy returns no less than the value minus as much, for every state and number of steps.
pub fn law_courses()
    ensures above { (m : Process) → IsValid m → (w : List ℕ → ℤ) (policy : List ℕ → ℕ) (r : ℤ)
        → Holds m w policy r → IsBoundAbove m w r }
    ensures below { (m : Process) → IsValid m → (w : List ℕ → ℤ) (policy : List ℕ → ℕ) (r : ℤ)
        → Holds m w policy r → IsBoundBelow m w policy r }
{}

/// Every value, with its policy and its Bellman residual, is a certificate that holds.
pub fn law_residual()
    ensures { (m : Process) → 0 < length m.actions → (w : List ℕ → ℤ) → Holds m w (policy_of m w) (residual_of m w) }
{}

/// Every value and its policy are optimal up to the value's residual over one minus the discount.
///
/// So no course of action returns more than the policy by more than twice that.
pub fn law_bound()
    ensures value { (m : Process) → IsValid m → 0 < length m.actions → (w : List ℕ → ℤ) → IsNearOptimal m w }
    ensures policy { (m : Process) → IsValid m → 0 < length m.actions → (w : List ℕ → ℤ)
        → IsPolicyNear m w (policy_of m w) (pos 2 *ℤ residual_of m w) }
{}

/// No value of any turn of a valid model passes (10^18 + 1) * 10^6 units of 10^-9, whatever the number of its variables, where the
/// span is at least 0; and where no value of some w passes that, no bound of an action does.
///
/// So every sum and product of the rules fits 128 bits.
pub fn law_bounded()
    ensures turns { (m : Process) → IsLawful m → IsValid m → (span : ℤ) → pos 0 ≤ℤ span → (k : ℕ)
        → All (IsWithin (pos value_limit)) (turn m span k) }
    ensures below { (m : Process) → IsLawful m → IsValid m → (w : List ℕ → ℤ) → IsBounded (sizes m) w → (a : Action)
        → Contains m.actions a → IsBounded (sizes m) (low_of m w a) }
    ensures above { (m : Process) → IsLawful m → IsValid m → (w : List ℕ → ℤ) → IsBounded (sizes m) w → (a : Action)
        → Contains m.actions a → IsBounded (sizes m) (high_of m w a) }
{}

/// A run stops at the first turn at which the rule holds, and where there is none up to the limit, at the limit.
pub fn law_stop()
    ensures { (rule : ℕ → Bool) (turns : ℕ) → IsFirstStop rule turns (first_stop rule turns) }
{}

/// The residual shrinks from turn to turn by the discount, but for what merging and rounding may add. So the stop rule holds at each
/// turn that is enough, the run stops no later, and it is done unless its limit comes before. Where the tolerance leaves room for the
/// error that stays, some turn is enough.
pub fn law_turns()
    ensures shrinks { (m : Process) → IsValid m → m.discount ≤ discount_one → (span : ℤ) (k : ℕ)
        → (pos discount_one *ℤ residual_at m span (suc k)) ≤ℤ (pos m.discount *ℤ residual_at m span k +ℤ pos discount_one *ℤ added_by_turn m span) }
    ensures enough { (m : Process) → IsValid m → (span : ℤ) (k : ℕ) → is_enough m span k ≡ true → rule_at m span k ≡ true }
    ensures stops { (m : Process) → IsValid m → (span : ℤ) (k turns : ℕ) → is_enough m span k ≡ true
        → (stop_of m turns span).turn ≤ k }
    ensures done { (m : Process) → IsValid m → (span : ℤ) (k turns : ℕ) → is_enough m span k ≡ true → k ≤ turns
        → (stop_of m turns span).why ≡ Done }
    ensures some { (m : Process) → IsValid m → (span : ℤ) → leaves_room m span ≡ true → (k : ℕ) × (is_enough m span k ≡ true) }
{}
