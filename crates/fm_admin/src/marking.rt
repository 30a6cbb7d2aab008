//! What an operator's word on a repair comes to.

ghost use Rattle.std.specs.Prelude.{◌≡◌, ◌<◌, ◌^◌, map, IfOk, IfSome};
ghost use Rattle.fm_admin.specs.Marking.{case_with, entry_by, marks_hands, solved_of};
ghost use Rattle.fm_admin.specs.Marking.{where_acquits};
ghost use Rattle.fm_core.specs.Book.{IsAdmitted};
ghost use Rattle.dx_engine.specs.Diagnosers.{diagnosers};

use crate::named_rows::find_row;
use dx_engine::Diagnoser;
use dx_said::{AtPath, Choice, OfCase, UnderPath, marks_any};
use fm_bytes::NoMemory;
use fm_command::{Repair, RepairOrder};
use fm_core::Hand;
use fm_entry::{CaseName, Entry, ListEvent};
use fm_status::Status;
use std::alloc::Global;
use uuid::Uuid;

/// The last words of the solved cases of a hand's module.
fn solved_by(hand: &Hand<Diagnoser>) -> &[ListEvent]
    ensures { result.now ≡ solved_of (diagnosers.state hand.now.object) }
{
    hand.state().solved()
}

/// Whether some suspect of a solved case of these modules is present and chosen.
fn marks_hands<C: Choice>(choice: &C, hands: &[Hand<Diagnoser>]) -> bool
    ensures { result ≡ marks_hands diagnosers hands.now (C.chosen choice.now) }
{
    hands.iter().any(|hand| marks_any(choice, solved_by(hand)))
}

/// The case of the first row that has the UUID.
fn case_with(namespace: &[u8; 16], uuid: &Uuid, rows: &[&ListEvent]) -> Option<CaseName>
    ensures { result ≡ case_with namespace.now uuid.now (map (λ row. row.now) rows.now) }
{
    match find_row(namespace, uuid, rows) {
        Some(row) => Some(row.case),
        None => None,
    }
}

/// The acquittal of a case, where it marks one of its suspects.
fn acquittal(moment: u64, case: CaseName, hands: &[Hand<Diagnoser>]) -> Option<Entry>
    requires { moment < 2 ^ 62 }
    ensures entry { result ≡ where_acquits moment (marks_hands diagnosers hands.now) case }
    ensures admitted { IfSome result IsAdmitted }
{
    if case.module < 8 && case.case < 1 << 63 && marks_hands(&OfCase { case }, hands) {
        Some(Entry::Acquit { case, moment })
    } else {
        None
    }
}

/// The entry that says what the operator said, where it marks a suspect.
pub(crate) fn entry_by(
    alloc: Global,
    order: &RepairOrder,
    status: &Status,
    hands: &[Hand<Diagnoser>],
) -> Result<Option<Entry>, NoMemory>
    requires { order.now.moment < 2 ^ 62 }
    ensures entry { IfOk result (λ e. e ≡ entry_by order.now.namespace order.now.moment
        order.now.repair status.now (marks_hands diagnosers hands.now)) }
    ensures admitted { IfOk result (λ e. IfSome e IsAdmitted) }
{
    let moment = order.moment;
    match &order.repair {
        Repair::Repaired(path) if marks_hands(&AtPath { path }, hands) => {
            let path = path.copy()?;
            Ok(Some(Entry::Repaired { path, moment }))
        }
        Repair::Repaired(_) => Ok(None),
        Repair::Replaced(path) if marks_hands(&UnderPath { path }, hands) => {
            let path = path.copy()?;
            Ok(Some(Entry::Replaced { path, moment }))
        }
        Repair::Replaced(_) => Ok(None),
        Repair::Acquit(uuid) => {
            let rows = status.rows(alloc)?;
            match case_with(&order.namespace, uuid, &rows) {
                Some(case) => Ok(acquittal(moment, case, hands)),
                None => Ok(None),
            }
        }
    }
}
