// The options of a dump, and the lines of entries and of words about cases.
use crate::statuses::NAMESPACE;
use fm_dump::{DumpFault, DumpOptions, read_options, write_errors, write_faults};
use fm_entry::{Entry, Spoken};
use fm_text::ArgText;
use std::alloc::Global;
use test_words::{ScriptFault, first_word, number_in, show_count, show_lines, text_of};

/// The words of a text, split at blanks.
fn words_in(alloc: Global, text: &str) -> Result<Vec<ArgText>, ScriptFault> {
    let mut words = Vec::new(alloc);
    for word in text.split_whitespace() {
        words.push(ArgText::new(alloc, word)?)?;
    }
    Ok(words)
}

/// The options that some words mean.
fn options_in(alloc: Global, text: &str) -> Result<DumpOptions, ScriptFault> {
    let words = words_in(alloc, text)?;
    match read_options(alloc, &words) {
        Ok(options) => Ok(options),
        Err(DumpFault::Usage) => Err(ScriptFault::NoSpelling),
        Err(DumpFault::NoMemory) => Err(ScriptFault::NoMemory),
    }
}

/// Appends a moment, where there is one.
fn show_moment(word: &str, moment: Option<u64>, out: &mut String) -> Result<(), ScriptFault> {
    match moment {
        Some(moment) => show_count(word, moment as usize, out),
        None => Ok(()),
    }
}

/// Appends what is asked for.
fn show_asked(options: &DumpOptions, out: &mut String) -> Result<(), ScriptFault> {
    out.push_str(if options.errors { "errors" } else { "faults" })?;
    out.push_str(if options.full { " full" } else { "" })?;
    show_moment(" from", options.from, out)?;
    show_moment(" to", options.to, out)?;
    if let Some(class) = &options.class {
        out.push_str(" class ")?;
        out.push_str(class.text())?;
    }
    if let Some(case) = &options.case {
        write!(out, " case {case}")?;
    }
    Ok(())
}

/// Appends the options that some words mean.
pub fn show_options(alloc: Global, text: &str, out: &mut String) -> Result<(), ScriptFault> {
    show_asked(&options_in(alloc, text)?, out)
}

/// Appends the lines of entries, of which the first has a number: `NUMBER WORD ..`.
pub fn show_errors(
    alloc: Global,
    entries: &[Entry],
    rest: &str,
    out: &mut String,
) -> Result<(), ScriptFault> {
    let (first, words) = first_word(rest);
    let options = options_in(alloc, words)?;
    let first = number_in(first)?;
    if first > 1000 || entries.len() > 1000 {
        return Err(ScriptFault::Words);
    }
    let mut text = Vec::new(alloc);
    write_errors(alloc, first, entries, &options, &mut text)?;
    show_lines(text_of(&text)?, out)
}

/// Appends the lines of words about cases.
pub fn show_faults(
    alloc: Global,
    records: &[Spoken],
    words: &str,
    out: &mut String,
) -> Result<(), ScriptFault> {
    let options = options_in(alloc, words)?;
    let mut text = Vec::new(alloc);
    write_faults(alloc, records, &NAMESPACE, &options, &mut text)?;
    show_lines(text_of(&text)?, out)
}
