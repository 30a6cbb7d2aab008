// Laws of states and their bytes, each as the contract of a function without a body.
ghost use Rattle.std.specs.Prelude.{◌≡◌, ◌<◌, ◌^◌, ℕ, List, Some, length, IsTrue};
ghost use Rattle.fm_bytes.specs.Numbers.{AllBytes};
ghost use Rattle.fm_bytes.specs.Reading.{whole};
ghost use Rattle.fm_core.specs.Meaning.{Diagnosis};
ghost use Rattle.dx_state.specs.Configured.{Configuration};
ghost use Rattle.dx_state.specs.LawfulState.{is_formed_configuration, is_state};
ghost use Rattle.dx_state.specs.StateBytes.{diagnosis_bytes};
ghost use Rattle.dx_state.specs.StateReading.{diagnosis_from};
ghost use Rattle.dx_state.specs.Fitting.{diagnosis_fits};

/// Bytes read as a state exactly where they are its spelling.
pub fn states_are_read()
    ensures read { (own : ℕ) (bytes : List ℕ) (s : Diagnosis) → own < 8
        → IsTrue (diagnosis_fits own s) → bytes ≡ diagnosis_bytes s
        → whole (diagnosis_from own bytes) ≡ Some s }
    ensures spelled { (own : ℕ) (bytes : List ℕ) (s : Diagnosis) → own < 8 → AllBytes bytes
        → whole (diagnosis_from own bytes) ≡ Some s
        → IsTrue (diagnosis_fits own s) × (bytes ≡ diagnosis_bytes s) }
{}

/// Equal bytes are of equal states.
pub fn states_are_told_apart()
    ensures { (own : ℕ) (s t : Diagnosis) → own < 8 → IsTrue (diagnosis_fits own s)
        → IsTrue (diagnosis_fits own t) → diagnosis_bytes s ≡ diagnosis_bytes t → s ≡ t }
{}

/// A lawful state has a spelling, where its bytes are fewer than 2^64.
pub fn lawful_states_are_spelled()
    ensures { (own : ℕ) (x : Configuration) (s : Diagnosis) → IsTrue (is_formed_configuration x)
        → s.conf < 2 ^ 32 → IsTrue (is_state own x s) → length (diagnosis_bytes s) < 2 ^ 64
        → IsTrue (diagnosis_fits own s) }
{}
