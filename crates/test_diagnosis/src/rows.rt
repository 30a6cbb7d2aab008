// The rows of cases, as text.
use fm_entry::{ListEvent, ListKind, read_case_name};
use fm_status::Status;
use std::alloc::{AllocError, Global};
use test_text_modules::{Setup, put_cases, put_word, run};
use test_words::ScriptFault;

/// How many rows there are of a kind.
fn count_of(rows: &[&ListEvent], kind: ListKind) -> usize {
    rows.iter().filter(|row| row.kind == kind).count()
}

fn put_counts(open: usize, rows: &[&ListEvent], text: &mut String) -> Result<(), AllocError> {
    let suspect = count_of(rows, ListKind::Suspect);
    let updated = count_of(rows, ListKind::Updated);
    let solved = suspect.saturating_add(updated);
    let upset = count_of(rows, ListKind::Upset);
    let unexplained = count_of(rows, ListKind::Undiagnosable);
    let repaired = count_of(rows, ListKind::Repaired);
    write!(text, "open {open} solved {solved} upset {upset} ")?;
    write!(text, "undiagnosable {unexplained} repaired {repaired}")
}

fn put_wanted(alloc: Global, status: &Status, text: &mut String) -> Result<(), ScriptFault> {
    let wanted = status.wanted(alloc)?;
    for path in wanted.paths() {
        let path = path.text();
        write!(text, "; retire {path}")?;
    }
    Ok(())
}

/// Appends how many cases there are of each kind, the open ones and the solved ones, and what is
/// wanted out of use.
pub fn show_rows(alloc: Global, setup: &Setup, out: &mut String) -> Result<(), ScriptFault> {
    let ended = run(alloc, setup, setup.last())?;
    let open = ended.again.open.as_slice();
    let rows = ended.heard.status.rows(alloc)?;
    put_counts(open.len(), rows.as_slice(), out)?;
    put_cases(open, "open", out)?;
    put_cases(ended.again.solved.as_slice(), "solved", out)?;
    put_wanted(alloc, &ended.heard.status, out)
}

/// Appends the last word of a case.
pub fn show_row(
    alloc: Global,
    setup: &Setup,
    name: &str,
    out: &mut String,
) -> Result<(), ScriptFault> {
    let case = read_case_name(name).ok_or(ScriptFault::Words)?;
    let ended = run(alloc, setup, setup.last())?;
    match ended.heard.status.row(&case) {
        Some(word) => put_word(word, out)?,
        None => out.push_str("none")?,
    }
    Ok(())
}
