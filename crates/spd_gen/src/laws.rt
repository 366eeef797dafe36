//! Laws of rings: what their files say can be solved.
ghost use Rattle.std.specs.Prelude.{ℕ, ◌≤◌, length};
ghost use Rattle.spd_model.specs.Chances.{IsValid};
ghost use Rattle.spd_model.specs.Lawful.{IsLawful};
ghost use Rattle.spd_reader.specs.Reading.{IsRead};
ghost use Rattle.spd_gen.specs.Ring.{ring_text};
ghost use Rattle.spd_gen.specs.Process.{ring_process};

/// The file of a ring of 2 to 63 machines is a model file, no longer than one may be, and is read as the process of the ring; this process
/// is lawful and valid: solving it ends with no refusal, and with no fault of its sums of probabilities or of its rewards.
pub fn law_ring()
    ensures short { (n : ℕ) → 2 ≤ n → n ≤ 63 → length (ring_text n) ≤ 4194304 }
    ensures read { (n : ℕ) → 2 ≤ n → n ≤ 63 → IsRead (ring_text n) (ring_process n) }
    ensures lawful { (n : ℕ) → 2 ≤ n → n ≤ 63 → IsLawful (ring_process n) }
    ensures valid { (n : ℕ) → 2 ≤ n → n ≤ 63 → IsValid (ring_process n) }
{}
