//! Laws of the syntax: each file is written as the grammar says in just one way, or it has a first fault.

ghost use Rattle.std.specs.Prelude.{◌≡◌, ℕ, List, [], ◌∷◌, ◌++◌, Some, None, Err};
ghost use Rattle.spd_lex.specs.declared.token.Token.{Token as TokenValue};
ghost use Rattle.spd_syntax.specs.declared.file.File.{File as FileValue};
ghost use Rattle.spd_syntax.specs.declared.refusal.Refusal.{Refusal as RefusalValue};
ghost use Rattle.spd_syntax.specs.Files.{IsWritten};
ghost use Rattle.spd_syntax.specs.Positions.{file_begins, fault_step, fault_from};
ghost use Rattle.spd_syntax.specs.Reading.{first_fault};
ghost use Rattle.spd_syntax.specs.Fronts.{behind_front};

/// A file that is written as the grammar says has no fault, so it is never refused.
pub fn law_written()
    ensures { (file : List ℕ) (f : FileValue) → IsWritten file f → first_fault file ≡ None }
{}

/// A file without a fault is written as the grammar says.
pub fn law_accepted()
    ensures { (file : List ℕ) → first_fault file ≡ None → (f : FileValue) × IsWritten file f }
{}

/// A file is written in at most one way.
pub fn law_once()
    ensures { (file : List ℕ) (f g : FileValue) → IsWritten file f → IsWritten file g → f ≡ g }
{}

/// The first fault of the syntax depends on no token behind it: a fault among the first tokens of a
/// file is the first one, whatever stands behind them; where they have none, the others have the
/// same first fault behind all tokens that leave the same positions.
pub fn law_front()
    ensures stays { (file : List ℕ) (front behind : List TokenValue) (r : RefusalValue)
        → behind_front file (file_begins ∷ []) front ≡ Err r → fault_from file (file_begins ∷ []) (front ++ behind) ≡ Some r }
    ensures joined { (file : List ℕ) (front behind : List TokenValue)
        → fault_from file (file_begins ∷ []) (front ++ behind) ≡ fault_step (λ qs. fault_from file qs behind) (behind_front file (file_begins ∷ []) front) }
{}
