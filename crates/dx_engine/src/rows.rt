//! Open cases as rows.

ghost use Rattle.std.specs.Prelude.{◌≡◌, ◌++◌, [], map, IfOk, OnOk};
ghost use Rattle.std.specs.List.{cons_option};
ghost use Rattle.dx_case.specs.Cases.{open_of};
ghost use Rattle.dx_turn.specs.Tracking.{cases_before};
ghost use Rattle.dx_engine.specs.Standing.{state_of};
ghost use Rattle.dx_engine.specs.Rows.{open_row, rows_of};

use crate::standing::StandingState;
use dx_turn::Tracked;
use ev_graph::NoMemory;
use fm_entry::CaseName;
use std::alloc::Global;

/// An open case: its name, and how many reports joined it, repeated ones included.
#[derive(Debug, Drop)]
pub struct OpenRow {
    pub case: CaseName,
    pub reports: u64,
}

/// Appends the row of a case, if there is one.
fn push_row(own: u32, tracked: &Tracked, rows: &mut Vec<OpenRow>) -> Result<(), NoMemory>
    ensures { OnOk result
        (rows.new.items ≡ rows.old.items ++ rows_of own (cons_option tracked.now.kept [])) }
{
    match tracked.kept() {
        Some(case) => {
            let name = CaseName {
                module: own,
                case: case.number(),
            };
            rows.push(OpenRow {
                case: name,
                reports: case.reports().len() as u64,
            })?;
            Ok(())
        }
        None => Ok(()),
    }
}

/// The rows of cases.
fn rows_of(alloc: Global, own: u32, cases: &[Tracked]) -> Result<Vec<OpenRow>, NoMemory>
    ensures { IfOk result (λ rows. rows.items ≡ rows_of own (cases_before cases.now)) }
{
    let mut rows = Vec::with_capacity(alloc, cases.len())?;
    for tracked in cases {
        push_row(own, tracked, &mut rows)?;
    }
    Ok(rows)
}

impl StandingState {
    /// The open cases of the module of a number, in order of number.
    pub fn open_rows(&self, alloc: Global, own: u32) -> Result<Vec<OpenRow>, NoMemory>
        ensures { IfOk result
            (λ rows. rows.items ≡ map (open_row own) (state_of self.now).open_cases) }
    {
        rows_of(alloc, own, self.cases.as_slice())
    }
}
