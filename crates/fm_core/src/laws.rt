// Laws of modules, hands and books over whole runs, each as the contract of a function without a
// body.
ghost use Rattle.std.specs.Prelude.{◌≡◌, ℕ, ◌+◌, ◌≤◌, ◌^◌, List, length, All, IsTrue};
ghost use Rattle.fm_entry.specs.declared.entry.Entry.{Entry};
ghost use Rattle.fm_entry.specs.Entries.{IsSpelled};
ghost use Rattle.fm_core.specs.Meaning.{Meaning, State, holds_of, conf_of};
ghost use Rattle.fm_core.specs.Configurations.{conf_along, IsKnown, NamesKnown, KnowsMore};
ghost use Rattle.fm_core.specs.Configurations.{AgreeAlong};
ghost use Rattle.fm_core.specs.Hands.{Shown};
ghost use Rattle.fm_core.specs.Folds.{state_along, StaysLawful};
ghost use Rattle.fm_core.specs.Book.{Book, Move, IsLawful};
ghost use Rattle.fm_core.specs.Drained.{AnyOrder, AtFloors};
ghost use Rattle.fm_core.specs.Seen.{FollowsBook, FollowsOn};

/// The theorem over whole runs: in whatever order modules are worked, and whatever falls and new
/// bases stand between, a lawful book stays lawful and drains to what one thread gets by taking
/// every entry once, in order.
pub fn any_order()
    ensures { (k : Book) (ms : List Move) → IsLawful k → AnyOrder k ms }
{}

/// A book of which each module falls to its floor, as one that is read again, is as lawful as
/// before and drains to the same.
pub fn floors_are_lawful()
    ensures { (k : Book) → IsLawful k → AtFloors k }
{}

/// A hand that follows a book does so after more entries too, and where it takes the entry at its
/// cursor.
pub fn hands_follow_on()
    ensures { (k : Book) (h : Shown) → FollowsBook k h → FollowsOn k h }
{}

/// What a module says along entries that have spellings, from a lawful state on, are words of that
/// module that a log can hold, and the state stays lawful.
pub fn words_are_spelled()
    ensures { (m : Meaning) (s : State) (n : ℕ) (es : List Entry) → IsTrue (holds_of m s)
        → n + length es ≤ 2 ^ 46 → All IsSpelled es → StaysLawful m s n es }
{}

/// Along entries the configuration of a state changes at each Reload that names a known one above
/// it, and at no other entry.
pub fn configurations_follow_reloads()
    ensures { (m : Meaning) (s : State) (n : ℕ) (es : List Entry)
        → conf_of m (state_along m s n es) ≡ conf_along m.known (conf_of m s) es }
{}

/// Of two modules of which one knows all configurations of the other, and maybe more, both come to
/// the same states and words, from a state and along entries that know no others.
pub fn longer_lists_agree()
    ensures { (m longer : Meaning) (s : State) (n : ℕ) (es : List Entry) → KnowsMore m longer
        → IsKnown m.known (conf_of m s) → All (NamesKnown m.known) es → AgreeAlong m longer s n es }
{}
