//! The lines of entries.

ghost use Rattle.std.specs.Prelude.{◌≡◌, ◌≤◌, ◌<◌, ◌+◌, ◌^◌, ◌++◌, length, OnOk, OnErr};
ghost use Rattle.fm_dump.specs.Errors.{has_class, keeps_entry, entry_words, entry_line};
ghost use Rattle.fm_dump.specs.Errors.{payload_line};
ghost use Rattle.fm_dump.specs.Errors.{entry_lines, errors_text, kept_entry};
ghost use Rattle.fm_dump.specs.Kept.{IsTextFront};

use crate::kept::is_between;
use crate::options::DumpOptions;
use fm_bytes::NoMemory;
use fm_entry::Entry;
use fm_line::print_payload;
use fm_name::Pattern;
use fm_status::{put_case, put_event, put_number, put_text};
use fm_text::write_time;
use std::alloc::Global;

/// Room for most lines, in bytes, so that few grow while they are written.
const USUAL_LINE: usize = 128;

/// Whether an entry is a report whose class the pattern matches, where there is one.
fn has_class(pattern: &Option<Pattern>, entry: &Entry) -> bool
    ensures { result ≡ has_class pattern.now entry.now }
{
    match (pattern, entry) {
        (None, _) => true,
        (Some(pattern), Entry::Report { class, .. }) => pattern.matches(class),
        (Some(_), _) => false,
    }
}

/// Whether the options keep an entry.
fn keeps_entry(options: &DumpOptions, entry: &Entry) -> bool
    ensures { result ≡ keeps_entry options.now entry.now }
{
    is_between(options.from, options.to, entry.moment()) && has_class(&options.class, entry)
}

/// Appends what stands behind the moment of an entry.
fn put_entry_words(entry: &Entry, out: &mut Vec<u8>) -> Result<(), NoMemory>
    ensures { OnOk result (out.new.items ≡ out.old.items ++ entry_words entry.now) }
{
    match entry {
        Entry::Report { class, path, .. } => put_event(class, path, out),
        Entry::Tick { .. } => put_text("tick", out),
        Entry::Repaired { path, .. } => {
            put_text("repaired ", out)?;
            put_text(path.text(), out)
        }
        Entry::Replaced { path, .. } => {
            put_text("replaced ", out)?;
            put_text(path.text(), out)
        }
        Entry::Acquit { case, .. } => {
            put_text("acquit ", out)?;
            put_case(case, out)
        }
        Entry::Reload { conf, .. } => {
            put_text("reload ", out)?;
            put_number(*conf as u64, out)
        }
    }
}

/// Appends the line of an entry.
fn put_entry_line(number: u64, entry: &Entry, out: &mut Vec<u8>) -> Result<(), NoMemory>
    ensures { OnOk result (out.new.items ≡ out.old.items ++ entry_line number entry.now) }
{
    put_number(number, out)?;
    put_text(" ", out)?;
    write_time(entry.moment(), out)?;
    put_text(" ", out)?;
    put_entry_words(entry, out)?;
    put_text("\n", out)
}

/// Appends the line of a payload that is not empty.
fn put_payload_line(alloc: Global, entry: &Entry, out: &mut Vec<u8>) -> Result<(), NoMemory>
    ensures { OnOk result (out.new.items ≡ out.old.items ++ payload_line entry.now) }
{
    match entry {
        Entry::Report { payload, .. } if !payload.is_empty() => {
            put_text("  payload ", out)?;
            print_payload(alloc, payload, out)?;
            put_text("\n", out)
        }
        _ => Ok(()),
    }
}

/// Appends what is written of an entry.
fn put_entry(
    alloc: Global,
    full: bool,
    number: u64,
    entry: &Entry,
    out: &mut Vec<u8>,
) -> Result<(), NoMemory>
    ensures { OnOk result (out.new.items ≡ out.old.items ++ entry_lines full number entry.now) }
{
    put_entry_line(number, entry, out)?;
    if full {
        put_payload_line(alloc, entry, out)?;
    }
    Ok(())
}

/// Appends what is written of an entry, where the options keep it.
fn put_kept(
    alloc: Global,
    options: &DumpOptions,
    number: u64,
    entry: &Entry,
    out: &mut Vec<u8>,
) -> Result<(), NoMemory>
    ensures { OnOk result
        (out.new.items ≡ out.old.items ++ kept_entry options.now number entry.now) }
{
    if keeps_entry(options, entry) {
        put_entry(alloc, options.full, number, entry, out)?;
    }
    Ok(())
}

/// Appends the lines of the entries that the options keep. Those of an entry are made in a buffer
/// first, so that all or none of them are there.
fn put_entries(
    alloc: Global,
    first: u64,
    entries: &[Entry],
    options: &DumpOptions,
    out: &mut Vec<u8>,
) -> Result<(), NoMemory>
    requires { first + length entries.now ≤ 2 ^ 64 }
    ensures ok { OnOk result
        (out.new.items ≡ out.old.items ++ errors_text options.now first entries.now) }
    ensures err { OnErr result (IsTextFront out.old.items out.new.items) }
{
    let mut lines = Vec::with_capacity(alloc, USUAL_LINE)?;
    'entries: for (at, entry) in entries.iter().enumerate() {
        lines.clear();
        put_kept(alloc, options, first + at as u64, entry, &mut lines)?;
        out.extend_from_slice(&lines)?;
    }
    Ok(())
}

/// Writes the lines of the entries that the options keep behind what `out` holds: a line for each,
/// and with `full` the payload of a report below its line. `first` is the number of the first
/// entry. After `NoMemory` it holds what it held.
pub fn write_errors(
    alloc: Global,
    first: u64,
    entries: &[Entry],
    options: &DumpOptions,
    out: &mut Vec<u8>,
) -> Result<(), NoMemory>
    requires { first + length entries.now ≤ 2 ^ 64 }
    ensures ok { OnOk result
        (out.new.items ≡ out.old.items ++ errors_text options.now first entries.now) }
    ensures err { OnErr result (out.new.items ≡ out.old.items) }
{
    let held = out.len();
    let written = put_entries(alloc, first, entries, options, out);
    if written.is_err() {
        out.truncate(held);
    }
    written
}
