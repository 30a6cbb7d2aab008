//! The summary of a run.

ghost use Rattle.std.specs.Prelude.{◌≡◌, ◌++◌, ℕ, List, length, map, flat_map, OnOk, OnErr, IfOk};
ghost use Rattle.std.specs.List.{filter};
ghost use Rattle.std.specs.List.Sorted.{IsPermutation};
ghost use Rattle.fm_status.specs.Wanted.{is_solved, IsWantedOf};
ghost use Rattle.fm_adm.specs.Summary.{has_standing, rows_so, entries_line, standing_part};
ghost use Rattle.fm_adm.specs.Summary.{unsolved_part, repaired_part};
ghost use Rattle.fm_adm.specs.Summary.{ended_part, counts_text, standing_lines, open_line};
ghost use Rattle.fm_adm.specs.Summary.{solved_line, case_line, retire_line, standing_text};
ghost use Rattle.fm_adm.specs.Summary.{ByCase, IsSummary};

use crate::config::put_named_count;
use fm_bytes::NoMemory;
use fm_entry::{CaseName, ListEvent, ListKind};
use fm_name::Fmri;
use fm_status::{Status, Wanted, is_solved, put_case, put_number, put_text};
use std::alloc::Global;

/// A case that is open, and the number of its reports.
#[derive(Clone, Copy, Debug)]
pub struct OpenReports {
    pub case: CaseName,
    pub reports: u64,
}

/// What is said of a case: its number of suspects where it is solved, and else of reports.
#[derive(Clone, Copy, Debug, PartialEq, Eq, PartialOrd, Ord)]
struct CaseLine {
    module: u32,
    case: u64,
    solved: bool,
    count: u64,
}

/// How a case stands that was spoken of.
#[derive(Clone, Copy, Debug)]
enum RowStanding {
    /// It is solved, and not yet repaired.
    Solved,
    /// Only upsets explain it.
    Upset,
    /// No root explains it.
    Undiagnosable,
    /// No suspect is present any more.
    Repaired,
}

/// Whether a word of this kind leaves its case so.
fn has_standing(standing: RowStanding, kind: &ListKind) -> bool
    ensures { result ≡ has_standing standing kind.now }
{
    match (standing, kind) {
        (RowStanding::Solved, kind) => is_solved(kind),
        (RowStanding::Upset, ListKind::Upset) => true,
        (RowStanding::Undiagnosable, ListKind::Undiagnosable) => true,
        (RowStanding::Repaired, ListKind::Repaired) => true,
        _ => false,
    }
}

/// How many rows stand so.
fn rows_so(standing: RowStanding, rows: &[&ListEvent]) -> usize
    ensures { result ≡ rows_so standing (map (λ row. row.now) rows.now) }
{
    let mut count = 0;
    'rows: for row in rows {
        if has_standing(standing, &row.kind) {
            count += 1;
        }
    }
    count
}

/// Appends the number of entries.
fn put_entries_line(entries: u64, out: &mut Vec<u8>) -> Result<(), NoMemory>
    ensures { OnOk result (out.new.items ≡ out.old.items ++ entries_line entries) }
{
    put_named_count("entries ", entries, out)?;
    put_text("\n", out)
}

/// Appends the numbers of open and of solved cases.
fn put_standing_part(count: usize, rows: &[&ListEvent], out: &mut Vec<u8>) -> Result<(), NoMemory>
    ensures { OnOk result (out.new.items
        ≡ out.old.items ++ standing_part count (map (λ row. row.now) rows.now)) }
{
    put_named_count("cases open ", count as u64, out)?;
    put_named_count(" solved ", rows_so(RowStanding::Solved, rows) as u64, out)
}

/// Appends the numbers of cases that no fault explains.
fn put_unsolved_part(rows: &[&ListEvent], out: &mut Vec<u8>) -> Result<(), NoMemory>
    ensures { OnOk result (out.new.items
        ≡ out.old.items ++ unsolved_part (map (λ row. row.now) rows.now)) }
{
    let undiagnosable = rows_so(RowStanding::Undiagnosable, rows);
    put_named_count(" upset ", rows_so(RowStanding::Upset, rows) as u64, out)?;
    put_named_count(" undiagnosable ", undiagnosable as u64, out)
}

/// Appends the number of repaired cases, which ends the line.
fn put_repaired_part(rows: &[&ListEvent], out: &mut Vec<u8>) -> Result<(), NoMemory>
    ensures { OnOk result (out.new.items
        ≡ out.old.items ++ repaired_part (map (λ row. row.now) rows.now)) }
{
    put_named_count(
        " repaired ",
        rows_so(RowStanding::Repaired, rows) as u64,
        out,
    )?;
    put_text("\n", out)
}

/// Appends the numbers of cases that ended in another way.
fn put_ended_part(rows: &[&ListEvent], out: &mut Vec<u8>) -> Result<(), NoMemory>
    ensures { OnOk result (out.new.items
        ≡ out.old.items ++ ended_part (map (λ row. row.now) rows.now)) }
{
    put_unsolved_part(rows, out)?;
    put_repaired_part(rows, out)
}

/// Appends the numbers of entries, of open cases and of rows.
fn put_counts(
    entries: u64,
    count: usize,
    rows: &[&ListEvent],
    out: &mut Vec<u8>,
) -> Result<(), NoMemory>
    ensures { OnOk result (out.new.items
        ≡ out.old.items ++ counts_text entries count (map (λ row. row.now) rows.now)) }
{
    put_entries_line(entries, out)?;
    put_standing_part(count, rows, out)?;
    put_ended_part(rows, out)
}

/// Appends a line for each open case.
fn push_open(open_cases: &[OpenReports], lines: &mut Vec<CaseLine>) -> Result<(), NoMemory>
    ensures { OnOk result (lines.new.items ≡ lines.old.items ++ map open_line open_cases.now) }
{
    'cases: for one in open_cases {
        lines.push(CaseLine {
            module: one.case.module,
            case: one.case.case,
            solved: false,
            count: one.reports,
        })?;
    }
    Ok(())
}

/// Appends a line for each row of a solved case.
fn push_solved(rows: &[&ListEvent], lines: &mut Vec<CaseLine>) -> Result<(), NoMemory>
    ensures { OnOk result (lines.new.items ≡ lines.old.items
        ++ map solved_line (filter (λ row. is_solved row.kind) (map (λ row. row.now) rows.now))) }
{
    'rows: for row in rows {
        if is_solved(&row.kind) {
            lines.push(CaseLine {
                module: row.case.module,
                case: row.case.case,
                solved: true,
                count: row.suspects.len() as u64,
            })?;
        }
    }
    Ok(())
}

/// The lines of the open and of the solved cases, in case order.
fn lines_of_cases(
    alloc: Global,
    open_cases: &[OpenReports],
    rows: &[&ListEvent],
) -> Result<Vec<CaseLine>, NoMemory>
    ensures all { IfOk result (λ lines.
        IsPermutation (standing_lines open_cases.now (map (λ row. row.now) rows.now)) lines.items) }
    ensures order { IfOk result (λ lines. ByCase lines.items) }
{
    let mut lines = Vec::new(alloc);
    push_open(open_cases, &mut lines)?;
    push_solved(rows, &mut lines)?;
    lines.sort_unstable();
    Ok(lines)
}

/// How a case stands.
fn standing_text(solved: bool) -> &'static str
    ensures { result.now ≡ standing_text solved }
{
    if solved { " solved " } else { " open " }
}

/// Appends the line of a case.
#[tactic(auto, unfolding(crate::specs::Summary::case_line))]
fn put_case_line(line: &CaseLine, out: &mut Vec<u8>) -> Result<(), NoMemory>
    ensures { OnOk result (out.new.items ≡ out.old.items ++ case_line line.now) }
{
    let case = CaseName {
        module: line.module,
        case: line.case,
    };
    put_text("case ", out)?;
    put_case(&case, out)?;
    put_text(standing_text(line.solved), out)?;
    put_number(line.count, out)?;
    put_text("\n", out)
}

/// Appends the lines of cases.
fn put_case_lines(lines: &[CaseLine], out: &mut Vec<u8>) -> Result<(), NoMemory>
    ensures { OnOk result (out.new.items ≡ out.old.items ++ flat_map case_line lines.now) }
{
    'lines: for line in lines {
        put_case_line(line, out)?;
    }
    Ok(())
}

/// Appends the line of a resource that is wanted out of use.
#[tactic(auto, unfolding(crate::specs::Summary::retire_line))]
fn put_retire_line(path: &Fmri, out: &mut Vec<u8>) -> Result<(), NoMemory>
    ensures { OnOk result (out.new.items ≡ out.old.items ++ retire_line path.now) }
{
    put_text("retire ", out)?;
    put_text(path.text(), out)?;
    put_text("\n", out)
}

/// Appends the lines of resources that are wanted out of use.
fn put_retire_lines(paths: &[Fmri], out: &mut Vec<u8>) -> Result<(), NoMemory>
    ensures { OnOk result (out.new.items ≡ out.old.items ++ flat_map retire_line paths.now) }
{
    'paths: for path in paths {
        put_retire_line(path, out)?;
    }
    Ok(())
}

/// Writes the summary of a run behind what `out` holds: how many entries were ever accepted, how
/// many cases are open and how many rows there are of each kind, a line for each open or solved
/// case in case order, and a line for each resource that is wanted out of use, in path order. It
/// answers those resources. After `NoMemory` the buffer holds what it held.
pub fn write_summary(
    alloc: Global,
    entries: u64,
    open_cases: &[OpenReports],
    status: &Status,
    out: &mut Vec<u8>,
) -> Result<Wanted, NoMemory>
    ensures ok { OnOk result ((text : List ℕ) × IsSummary entries open_cases.now status.now text
        × (out.new.items ≡ out.old.items ++ text)) }
    ensures wanted { IfOk result (IsWantedOf status.now) }
    ensures err { OnErr result (out.new.items ≡ out.old.items) }
{
    let rows = status.rows(alloc)?;
    let lines = lines_of_cases(alloc, open_cases, &rows)?;
    let wanted = status.wanted(alloc)?;
    let mut text = Vec::new(alloc);
    put_counts(entries, open_cases.len(), &rows, &mut text)?;
    put_case_lines(&lines, &mut text)?;
    put_retire_lines(wanted.paths(), &mut text)?;
    out.extend_from_slice(&text)?;
    Ok(wanted)
}
