// What stays from line to line of a script, and what its lines do.
use crate::records::record_in;
use crate::{acts, dumps, statuses};
use fm_entry::{Entry, Spoken};
use fm_line::{LineFault, read_line};
use std::alloc::Global;
use test_words::{Script, ScriptFault, first_word, number_in, small_in};

/// What stays from line to line: the entries and the records that were kept.
#[derive(Drop)]
pub struct Held {
    entries: Vec<Entry>,
    records: Vec<Spoken>,
}

/// The entry of a line.
fn entry_in(alloc: Global, line: &str) -> Result<Entry, ScriptFault> {
    match read_line(alloc, line.as_bytes()) {
        Ok(entry) => Ok(entry),
        Err(LineFault::NoMemory) => Err(ScriptFault::NoMemory),
        Err(_) => Err(ScriptFault::NoSpelling),
    }
}

/// The reload of a configuration at a moment: `CONF MOMENT`.
fn reload_in(rest: &str) -> Result<Entry, ScriptFault> {
    let (conf, moment) = first_word(rest);
    Ok(Entry::Reload {
        conf: small_in(conf)?,
        moment: number_in(moment)?,
    })
}

/// Answers a line about a text.
fn answer_of_text(
    alloc: Global,
    word: &str,
    text: &str,
    out: &mut String,
) -> Result<(), ScriptFault> {
    match word {
        "uuid" => statuses::show_uuid(text, out),
        "config" => statuses::show_config(alloc, text, out),
        "options" => dumps::show_options(alloc, text, out),
        "kind" => acts::show_kind(alloc, text, out),
        "actuator" => acts::show_steps(alloc, text, out),
        _ => Err(ScriptFault::Words),
    }
}

/// Answers a line about the records.
fn answer_of_records(
    alloc: Global,
    records: &[Spoken],
    word: &str,
    rest: &str,
    out: &mut String,
) -> Result<(), ScriptFault> {
    match word {
        "row" => statuses::show_row(alloc, records, rest, out),
        "rows" => statuses::show_rows(alloc, records, out),
        "wanted" => statuses::show_wanted(alloc, records, out),
        "faulty" => statuses::show_faulty(alloc, records, out),
        "summary" => statuses::show_summary(alloc, records, rest, out),
        "faults" => dumps::show_faults(alloc, records, rest, out),
        "reconciled" => acts::show_reconciled(alloc, records, rest, out),
        "counting" => acts::show_counting(alloc, records, small_in(rest)?, out),
        _ => answer_of_text(alloc, word, rest, out),
    }
}

impl Held {
    /// No entry and no record yet.
    pub fn new(alloc: Global) -> Held {
        Held {
            entries: Vec::new(alloc),
            records: Vec::new(alloc),
        }
    }

    /// Keeps an entry or a record, or forgets all of them.
    fn keep(&mut self, alloc: Global, word: &str, rest: &str) -> Result<(), ScriptFault> {
        match word {
            "say" => self.records.push(record_in(alloc, rest)?)?,
            "entry_of" => self.entries.push(entry_in(alloc, rest)?)?,
            "reload" => self.entries.push(reload_in(rest)?)?,
            _ => {
                self.records.clear();
                self.entries.clear();
            }
        }
        Ok(())
    }
}

impl Script for Held {
    fn answer(
        &mut self,
        rt: &HostRuntime,
        line: &str,
        out: &mut String,
    ) -> Result<(), ScriptFault> {
        let alloc = rt.alloc();
        let (word, rest) = first_word(line);
        match word {
            "say" | "entry_of" | "reload" | "forget" => {
                self.keep(alloc, word, rest)?;
                Ok(out.push_str("ok")?)
            }
            "errors" => dumps::show_errors(alloc, &self.entries, rest, out),
            _ => answer_of_records(alloc, &self.records, word, rest, out),
        }
    }
}
