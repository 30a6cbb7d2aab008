//! The open cases of hands of diagnosis modules.

ghost use Rattle.std.specs.Prelude.{◌≡◌, ◌++◌, IfOk, OnOk, map, flat_map};
ghost use Rattle.fm_core.specs.Hands.{shown};
ghost use Rattle.fm_conclude.specs.DrainedSummary.{open_by_state, open_of_shown};
ghost use Rattle.dx_engine.specs.Diagnosers.{diagnosers};
ghost use Rattle.fm_conclude.specs.DrainedSummary.{reports_by};

use dx_engine::{Diagnoser, OpenRow};
use fm_adm::OpenReports;
use fm_bytes::NoMemory;
use fm_core::Hand;
use std::alloc::Global;

/// Appends rows.
fn push_rows(rows: &[OpenRow], cases: &mut Vec<OpenReports>) -> Result<(), NoMemory>
    ensures { OnOk result (cases.new.items ≡ cases.old.items ++ map reports_by rows.now) }
{
    'rows: for row in rows {
        cases.push(OpenReports {
            case: row.case,
            reports: row.reports,
        })?;
    }
    Ok(())
}

/// Appends the open cases of one module.
fn push_open_reports(
    alloc: Global,
    diagnoser: &Diagnoser,
    cases: &mut Vec<OpenReports>,
) -> Result<(), NoMemory>
    ensures { OnOk result (cases.new.items ≡ cases.old.items
        ++ open_by_state (diagnosers.meaning diagnoser.now).own
        (diagnosers.state diagnoser.now)) }
{
    let rows = diagnoser.open_rows(alloc)?;
    push_rows(&rows, cases)
}

/// The open cases of the hands' modules, hand by hand, with the numbers of their reports, and those
/// of one module by number.
pub(crate) fn open_reports(
    alloc: Global,
    hands: &[Hand<Diagnoser>],
) -> Result<Vec<OpenReports>, NoMemory>
    ensures { IfOk result (λ cases. cases.items
        ≡ flat_map open_of_shown (map (shown diagnosers) hands.now)) }
{
    let mut cases = Vec::new(alloc);
    'hands: for hand in hands {
        push_open_reports(alloc, hand.state(), &mut cases)?;
    }
    Ok(cases)
}
