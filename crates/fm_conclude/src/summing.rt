//! The text of the summary of a drained book.

ghost use Rattle.std.specs.Prelude.{◌≡◌, ◌++◌, ℕ, List, IfOk, OnOk, OnErr, map, flat_map};
ghost use Rattle.fm_adm.specs.Summary.{IsSummary};
ghost use Rattle.fm_core.specs.Book.{Book, next_number};
ghost use Rattle.fm_core.specs.Drained.{drained};
ghost use Rattle.fm_core.specs.Hands.{shown};
ghost use Rattle.fm_drain.specs.CaseStatus.{IsStatusOf};
ghost use Rattle.fm_status.specs.Wanted.{IsWantedOf};
ghost use Rattle.fm_store.specs.StoreCalls.{HandsAreDone};
ghost use Rattle.fm_conclude.specs.DrainedSummary.{open_of_shown, IsSummaryOf};
ghost use Rattle.dx_engine.specs.Diagnosers.{diagnosers};

use crate::open_cases::open_reports;
use dx_engine::Diagnoser;
use fm_adm::write_summary;
use fm_bytes::NoMemory;
use fm_core::Hand;
use fm_status::{Status, Wanted};
use std::alloc::Global;

/// Appends the summary: the number of entries ever, the open cases of the hands' modules, and what
/// each case has come to. It answers the resources that are wanted out of use. After `NoMemory` the
/// buffer holds what it held.
pub(crate) fn write_drained(
    alloc: Global,
    entries: u64,
    hands: &[Hand<Diagnoser>],
    status: &Status,
    out: &mut Vec<u8>,
) -> Result<Wanted, NoMemory>
    ensures ok { OnOk result ((text : List ℕ)
        × IsSummary entries
        (flat_map open_of_shown (map (shown diagnosers) hands.now)) status.now text
        × (out.new.items ≡ out.old.items ++ text)) }
    ensures drained { (k : Book) → HandsAreDone diagnosers k hands.now
        → entries ≡ next_number k → IsStatusOf (drained k) status.now
        → OnOk result ((text : List ℕ) × IsSummaryOf (drained k) text
        × (out.new.items ≡ out.old.items ++ text)) }
    ensures wanted { IfOk result (IsWantedOf status.now) }
    ensures err { OnErr result (out.new.items ≡ out.old.items) }
{
    let cases = open_reports(alloc, hands)?;
    write_summary(alloc, entries, &cases, status, out)
}
