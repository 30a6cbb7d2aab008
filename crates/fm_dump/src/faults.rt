//! The lines of words about cases.

ghost use Rattle.std.specs.Prelude.{◌≡◌, ◌++◌, flat_map, IfOk, OnOk, OnErr};
ghost use Rattle.fm_dump.specs.Faults.{kind_class, matches_kind, is_about, keeps_word, word_line};
ghost use Rattle.fm_dump.specs.Faults.{observed_line, word_parts, word_lines, kept_lines};
ghost use Rattle.fm_dump.specs.Faults.{spoken_text, faults_text, uuid_part, case_part};
ghost use Rattle.fm_dump.specs.Kept.{IsTextFront};

use crate::kept::is_between;
use crate::options::DumpOptions;
use fm_bytes::NoMemory;
use fm_entry::{CaseName, ListEvent, ListKind, Spoken};
use fm_name::{EventName, Pattern, read_class};
use fm_status::{put_case, put_event, put_suspects, put_text, uuid_of};
use fm_text::write_time;
use std::alloc::Global;
use uuid::Uuid;

/// The class of a word.
fn class_of(kind: ListKind) -> &'static str
    ensures { result.now ≡ kind_class kind }
{
    match kind {
        ListKind::Suspect => "list.suspect",
        ListKind::Undiagnosable => "list.undiagnosable",
        ListKind::Upset => "list.upset",
        ListKind::Updated => "list.updated",
        ListKind::Repaired => "list.repaired",
    }
}

/// Whether the pattern matches the class of a word, where there is a pattern.
#[tactic(auto, using(crate::proofs::KindClasses::class_named))]
fn matches_kind(alloc: Global, pattern: &Option<Pattern>, kind: ListKind) -> Result<bool, NoMemory>
    ensures { IfOk result (λ matches. matches ≡ matches_kind pattern.now kind) }
{
    let Some(pattern) = pattern else {
        return Ok(true);
    };
    match read_class(alloc, class_of(kind))? {
        Some(class) => Ok(pattern.matches(&class)),
        None => Ok(false),
    }
}

/// Whether a case has the UUID, where there is one.
fn is_about(uuid: &Option<Uuid>, namespace: &[u8; 16], case: &CaseName) -> bool
    ensures { result ≡ is_about uuid.now namespace.now case.now }
{
    match uuid {
        None => true,
        Some(uuid) => uuid_of(namespace, case).as_bytes().as_slice() == uuid.as_bytes().as_slice(),
    }
}

/// Whether the options keep a word.
fn keeps_word(
    alloc: Global,
    options: &DumpOptions,
    namespace: &[u8; 16],
    word: &ListEvent,
) -> Result<bool, NoMemory>
    ensures { IfOk result (λ keeps. keeps ≡ keeps_word options.now namespace.now word.now) }
{
    if !is_between(options.from, options.to, word.moment) {
        return Ok(false);
    }
    let matches = matches_kind(alloc, &options.class, word.kind)?;
    Ok(matches && is_about(&options.case, namespace, &word.case))
}

/// Appends the UUID of a case behind a space.
fn put_uuid_part(namespace: &[u8; 16], case: &CaseName, out: &mut Vec<u8>) -> Result<(), NoMemory>
    ensures { OnOk result (out.new.items ≡ out.old.items ++ uuid_part namespace.now case.now) }
{
    let mut buffer = Uuid::encode_buffer();
    let uuid = uuid_of(namespace, case);
    put_text(" ", out)?;
    put_text(uuid.hyphenated().encode_lower(&mut buffer), out)
}

/// Appends a class and a case at the end of a line.
fn put_case_part(kind: ListKind, case: &CaseName, out: &mut Vec<u8>) -> Result<(), NoMemory>
    ensures { OnOk result (out.new.items ≡ out.old.items ++ case_part kind case.now) }
{
    put_text(" ", out)?;
    put_text(class_of(kind), out)?;
    put_text(" ", out)?;
    put_case(case, out)?;
    put_text("\n", out)
}

/// Appends the line of a word.
#[tactic(auto, unfolding(crate::specs::Faults::word_line))]
fn put_word_line(namespace: &[u8; 16], word: &ListEvent, out: &mut Vec<u8>) -> Result<(), NoMemory>
    ensures { OnOk result (out.new.items ≡ out.old.items ++ word_line namespace.now word.now) }
{
    write_time(word.moment, out)?;
    put_uuid_part(namespace, &word.case, out)?;
    put_case_part(word.kind, &word.case, out)
}

/// Appends the line of an event that was observed.
#[tactic(auto, unfolding(crate::specs::Faults::observed_line))]
fn put_observed(event: &EventName, out: &mut Vec<u8>) -> Result<(), NoMemory>
    ensures { OnOk result (out.new.items ≡ out.old.items ++ observed_line event.now) }
{
    put_text("  observed ", out)?;
    put_event(&event.class, &event.path, out)?;
    put_text("\n", out)
}

/// Appends what was observed, and who is suspected.
fn put_word_parts(word: &ListEvent, out: &mut Vec<u8>) -> Result<(), NoMemory>
    ensures { OnOk result (out.new.items ≡ out.old.items ++ word_parts word.now) }
{
    put_each_observed(word.observed.as_slice(), out)?;
    put_suspects(word.suspects.as_slice(), out)
}

/// Appends the lines of observed events.
fn put_each_observed(events: &[EventName], out: &mut Vec<u8>) -> Result<(), NoMemory>
    ensures { OnOk result (out.new.items ≡ out.old.items ++ flat_map observed_line events.now) }
{
    'events: for event in events {
        put_observed(event, out)?;
    }
    Ok(())
}

/// Appends what is written of a word.
fn put_word(
    full: bool,
    namespace: &[u8; 16],
    word: &ListEvent,
    out: &mut Vec<u8>,
) -> Result<(), NoMemory>
    ensures { OnOk result
        (out.new.items ≡ out.old.items ++ word_lines full namespace.now word.now) }
{
    put_word_line(namespace, word, out)?;
    if full {
        put_word_parts(word, out)?;
    }
    Ok(())
}

/// Appends what is written of the words of a record that the options keep.
fn put_words(
    alloc: Global,
    words: &[ListEvent],
    namespace: &[u8; 16],
    options: &DumpOptions,
    out: &mut Vec<u8>,
) -> Result<(), NoMemory>
    ensures { OnOk result (out.new.items
        ≡ out.old.items ++ flat_map (kept_lines options.now namespace.now) words.now) }
{
    'words: for word in words {
        if keeps_word(alloc, options, namespace, word)? {
            put_word(options.full, namespace, word, out)?;
        }
    }
    Ok(())
}

/// Appends what is written of a record.
fn put_spoken(
    alloc: Global,
    spoken: &Spoken,
    namespace: &[u8; 16],
    options: &DumpOptions,
    out: &mut Vec<u8>,
) -> Result<(), NoMemory>
    ensures ok { OnOk result
        (out.new.items ≡ out.old.items ++ spoken_text options.now namespace.now spoken.now) }
    ensures err { OnErr result (out.new.items ≡ out.old.items) }
{
    let mut lines = Vec::new(alloc);
    put_words(
        alloc,
        spoken.events.as_slice(),
        namespace,
        options,
        &mut lines,
    )?;
    out.extend_from_slice(&lines)?;
    Ok(())
}

/// Appends the lines of records, one record after the other.
fn put_records(
    alloc: Global,
    records: &[Spoken],
    namespace: &[u8; 16],
    options: &DumpOptions,
    out: &mut Vec<u8>,
) -> Result<(), NoMemory>
    ensures ok { OnOk result
        (out.new.items ≡ out.old.items ++ faults_text options.now namespace.now records.now) }
    ensures err { OnErr result (IsTextFront out.old.items out.new.items) }
{
    'records: for spoken in records {
        put_spoken(alloc, spoken, namespace, options, out)?;
    }
    Ok(())
}

/// Writes the lines of the words about cases that the options keep, in the order of the records,
/// behind what `out` holds: a line for each, and with `full` what was observed and who is suspected
/// below it. UUIDs of cases are made under the namespace. After `NoMemory` it holds what it held.
pub fn write_faults(
    alloc: Global,
    spoken: &[Spoken],
    namespace: &[u8; 16],
    options: &DumpOptions,
    out: &mut Vec<u8>,
) -> Result<(), NoMemory>
    ensures ok { OnOk result
        (out.new.items ≡ out.old.items ++ faults_text options.now namespace.now spoken.now) }
    ensures err { OnErr result (out.new.items ≡ out.old.items) }
{
    let held = out.len();
    let written = put_records(alloc, spoken, namespace, options, out);
    if written.is_err() {
        out.truncate(held);
    }
    written
}
