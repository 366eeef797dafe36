//! Laws of the reader: each file is read as just one model, or refused for just one reason.

ghost use Rattle.std.specs.Prelude.{◌≡◌, ◌≤◌, ◌⊎◌, ℕ, List, length};
ghost use Rattle.spd_model.specs.Lawful.{IsLawful};
ghost use Rattle.spd_model.specs.Process.{Process as ProcessValue};
ghost use Rattle.spd_syntax.specs.declared.refusal.Refusal.{Refusal as RefusalValue};
ghost use Rattle.spd_reader.specs.Reading.{IsRead, IsRefused};

/// A file describes a model or is refused, never both, just one model, and for just one reason.
pub fn law_decided()
    ensures either { (file : List ℕ) → ((m : ProcessValue) × IsRead file m) ⊎ ((r : RefusalValue) × IsRefused file r) }
    ensures never_both { (file : List ℕ) (m : ProcessValue) (r : RefusalValue) → IsRead file m → IsRefused file r → ⊥ }
    ensures one_model { (file : List ℕ) (m n : ProcessValue) → IsRead file m → IsRead file n → m ≡ n }
    ensures one_reason { (file : List ℕ) (r s : RefusalValue) → IsRefused file r → IsRefused file s → r ≡ s }
{}

/// The model that a file describes is lawful.
pub fn law_lawful()
    ensures { (file : List ℕ) (m : ProcessValue) → length file ≤ 4194304 → IsRead file m → IsLawful m }
{}
