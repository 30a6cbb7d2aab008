//! What a drained book wants out of use, as the contract of a function without a body.

ghost use Rattle.std.specs.Prelude.{◌≡◌, ℕ, List};
ghost use Rattle.fm_core.specs.Drained.{Drained};
ghost use Rattle.fm_entry.specs.declared.list_event.ListEvent.{ListEvent};
ghost use Rattle.fm_drain.specs.CaseStatus.{IsStatusOf};
ghost use Rattle.fm_status.specs.Wanted.{IsWantedOf};
ghost use Rattle.fm_drain.specs.Wanting.{AreWantedOf};

/// What the status of a drained book wants is what the book wants, and that is one list of paths.
pub fn a_drained_book_wants_one_list()
    ensures wanted { (d : Drained) (rows : List ListEvent) (paths : List (List ℕ))
        → IsStatusOf d rows → IsWantedOf rows paths → AreWantedOf d paths }
    ensures one { (d : Drained) (paths others : List (List ℕ)) → AreWantedOf d paths
        → AreWantedOf d others → paths ≡ others }
{}
