//! How many statuses a drained book has, as the contract of a function without a body.

ghost use Rattle.std.specs.Prelude.{◌≡◌, List};
ghost use Rattle.fm_core.specs.Drained.{Drained};
ghost use Rattle.fm_entry.specs.declared.list_event.ListEvent.{ListEvent};
ghost use Rattle.fm_drain.specs.CaseStatus.{IsStatusOf};

/// A drained book has one status, whatever the order in which its modules were worked.
pub fn a_drained_book_has_one_status()
    ensures { (d : Drained) (rows others : List ListEvent) → IsStatusOf d rows
        → IsStatusOf d others → rows ≡ others }
{}
