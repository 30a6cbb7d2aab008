// What is known of cases once records were applied, and the texts of it.
use crate::records::case_in;
use fm_adm::{ModuleSizes, OpenReports, write_config, write_faulty, write_summary};
use fm_entry::{ListEvent, Spoken};
use fm_status::{Status, Wanted, uuid_of};
use std::alloc::Global;
use test_words::{ScriptFault, first_word, number_in, show_lines, text_of};

/// The namespace of all cases.
pub const NAMESPACE: [u8; 16] = [
    0x6b, 0xa7, 0xb8, 0x10, 0x9d, 0xad, 0x11, 0xd1, 0x80, 0xb4, 0x00, 0xc0, 0x4f, 0xd4, 0x30, 0xc8,
];

/// What is known of cases by these records.
fn status_of(alloc: Global, records: &[Spoken]) -> Result<Status, ScriptFault> {
    let mut status = Status::new(alloc);
    for record in records {
        status.apply(alloc, record)?;
    }
    Ok(status)
}

/// What is wanted out of use by these records.
pub fn wanted_of(alloc: Global, records: &[Spoken]) -> Result<Wanted, ScriptFault> {
    Ok(status_of(alloc, records)?.wanted(alloc)?)
}

/// Appends the paths that are wanted out of use.
pub fn show_wanted(alloc: Global, records: &[Spoken], out: &mut String) -> Result<(), ScriptFault> {
    for path in wanted_of(alloc, records)?.paths() {
        out.push_str(path.text())?;
        out.push_str(" ")?;
    }
    Ok(())
}

/// Appends the last word of a case.
fn show_word(word: &ListEvent, out: &mut String) -> Result<(), ScriptFault> {
    let module = word.case.module;
    let case = word.case.case;
    let moment = word.moment;
    let count = word.suspects.len();
    write!(
        out,
        "{module}/{case} {:?} at {moment} suspects {count}, ",
        word.kind
    )?;
    Ok(())
}

/// Appends the last word of each case.
pub fn show_rows(alloc: Global, records: &[Spoken], out: &mut String) -> Result<(), ScriptFault> {
    let status = status_of(alloc, records)?;
    for word in status.rows(alloc)?.as_slice() {
        show_word(word, out)?;
    }
    Ok(())
}

/// Appends the last word of one case.
pub fn show_row(
    alloc: Global,
    records: &[Spoken],
    case: &str,
    out: &mut String,
) -> Result<(), ScriptFault> {
    let case = case_in(case)?;
    match status_of(alloc, records)?.row(&case) {
        Some(word) => show_word(word, out),
        None => Ok(out.push_str("none")?),
    }
}

/// Appends the UUID of a case.
pub fn show_uuid(case: &str, out: &mut String) -> Result<(), ScriptFault> {
    let uuid = uuid_of(&NAMESPACE, &case_in(case)?);
    write!(out, "{uuid}")?;
    Ok(())
}

/// Appends what is faulty.
pub fn show_faulty(alloc: Global, records: &[Spoken], out: &mut String) -> Result<(), ScriptFault> {
    let status = status_of(alloc, records)?;
    let mut text = Vec::new(alloc);
    write_faulty(alloc, &status, &NAMESPACE, &mut text)?;
    show_lines(text_of(&text)?, out)
}

/// The open cases of a text, each a name and how many reports it has: `CASE=COUNT`.
fn open_in(alloc: Global, text: &str) -> Result<Vec<OpenReports>, ScriptFault> {
    let mut open = Vec::new(alloc);
    for item in text.split_whitespace() {
        let (case, count) = item.split_once('=').ok_or(ScriptFault::Words)?;
        let case = case_in(case)?;
        let reports = number_in(count)?;
        open.push(OpenReports { case, reports })?;
    }
    Ok(open)
}

/// Appends the summary of so many entries, these open cases and the records: `COUNT CASE=COUNT ..`.
pub fn show_summary(
    alloc: Global,
    records: &[Spoken],
    rest: &str,
    out: &mut String,
) -> Result<(), ScriptFault> {
    let (entries, open) = first_word(rest);
    let open = open_in(alloc, open)?;
    let status = status_of(alloc, records)?;
    let mut text = Vec::new(alloc);
    write_summary(alloc, number_in(entries)?, &open, &status, &mut text)?;
    show_lines(text_of(&text)?, out)
}

/// The number at a place of a list with commas between its numbers.
fn size_at(text: &str, at: usize) -> Result<u64, ScriptFault> {
    number_in(text.split(',').nth(at).ok_or(ScriptFault::Words)?)
}

/// The sizes of a module: events, roots, reports, instances and what was skipped.
fn sizes_in(text: &str) -> Result<ModuleSizes, ScriptFault> {
    Ok(ModuleSizes {
        events: size_at(text, 0)?,
        roots: size_at(text, 1)?,
        reports: size_at(text, 2)?,
        instances: size_at(text, 3)?,
        skipped: size_at(text, 4)?,
    })
}

/// Appends the text of a configuration with modules of these sizes.
pub fn show_config(alloc: Global, words: &str, out: &mut String) -> Result<(), ScriptFault> {
    let mut modules = Vec::new(alloc);
    for word in words.split_whitespace() {
        modules.push(sizes_in(word)?)?;
    }
    let mut text = Vec::new(alloc);
    write_config(alloc, &NAMESPACE, &modules, &mut text)?;
    show_lines(text_of(&text)?, out)
}
