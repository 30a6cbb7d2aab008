// Laws of rate engines, each as the contract of a function without a body.
ghost use Rattle.std.specs.Prelude.{◌≤◌, ℕ, List, ◌++◌, IsTrue};
ghost use Rattle.dx_serd.specs.Rates.{is_rising, none_past, are_kept, LastDecide, StaysKept};

/// Over moments that do not fall, the last n since the last reset decide as all of them do, now and
/// as long as moments are noted.
pub fn last_decide()
    ensures { (n t : ℕ) (since ms : List ℕ) → 1 ≤ n → IsTrue (is_rising (since ++ ms))
        → LastDecide n t since ms }
{}

/// What an engine keeps after it noted a moment that no other is past can be kept again, and
/// nothing of it is past that moment, nor past any later one.
pub fn notes_are_kept()
    ensures { (n t : ℕ) (kept : List ℕ) (m : ℕ) → 1 ≤ n → IsTrue (are_kept n t kept)
        → IsTrue (none_past m kept) → StaysKept n t kept m }
{}
