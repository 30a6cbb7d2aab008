// Calls of a store that stays open from one to the next.
use crate::commands::number_in;
use crate::fault::ScriptFault;
use crate::told::{closed_text, fault_text, records_text, rows_text};
use fm_drain::read_status;
use fm_entry::{CaseName, Entry, ListKind, Spoken};
use fm_journal::Frame;
use fm_logs::{Committed, DiskName, StoreFault};
use fm_outer::Disk;
use fm_status::Status;
use fm_store::Store;
use std::alloc::Global;

/// The number of an entry that was taken.
fn taken_text(alloc: Global, taken: Result<u64, StoreFault>) -> Result<String, ScriptFault> {
    match taken {
        Ok(number) => Ok(format!(in alloc; "{number}")?),
        Err(fault) => Ok(fault_text(alloc, fault)?),
    }
}

/// Takes a tick at this moment.
fn tick<D: Disk, M>(
    alloc: Global,
    store: &mut Store<D, M>,
    moment: u32,
) -> Result<String, ScriptFault> {
    let moment = u64::from(moment);
    let taken = store.accept(alloc, Entry::Tick { moment });
    taken_text(alloc, taken)
}

/// What a commit answered.
fn committed_text(
    alloc: Global,
    committed: Result<Committed, StoreFault>,
) -> Result<String, ScriptFault> {
    match committed {
        Ok(Committed::Done) => Ok(String::from_str(alloc, "done")?),
        Ok(Committed::Stale { cursor }) => Ok(format!(in alloc; "stale at {cursor}")?),
        Err(fault) => Ok(fault_text(alloc, fault)?),
    }
}

/// Commits a step of a module at this number.
fn commit<D: Disk, M>(
    alloc: Global,
    store: &mut Store<D, M>,
    own: u32,
    number: u32,
    words: Option<&Frame>,
) -> Result<String, ScriptFault> {
    if own >= store.modules() {
        return Err(ScriptFault::Words);
    }
    let committed = store.commit(own, u64::from(number), words);
    committed_text(alloc, committed)
}

/// Commits a step of a module at this number, with the words `w`, which are no record.
fn say<D: Disk, M>(
    alloc: Global,
    store: &mut Store<D, M>,
    own: u32,
    number: u32,
) -> Result<String, ScriptFault> {
    match Frame::new(alloc, b"w") {
        Ok(frame) => commit(alloc, store, own, number, Some(&frame)),
        Err(_) => Err(ScriptFault::NoMemory),
    }
}

/// Whether a store is closed.
fn closing_text(alloc: Global, closed: Option<(DiskName, u64)>) -> Result<String, ScriptFault> {
    match closed {
        Some((disk, faults)) => Ok(closed_text(alloc, disk, faults)?),
        None => Ok(String::from_str(alloc, "open")?),
    }
}

/// Which records were read.
fn spoken_text(
    alloc: Global,
    spoken: Result<Vec<Spoken>, StoreFault>,
) -> Result<String, ScriptFault> {
    match spoken {
        Ok(records) => Ok(records_text(alloc, &records)?),
        Err(fault) => Ok(fault_text(alloc, fault)?),
    }
}

/// How many entries were read.
fn logged_text(
    alloc: Global,
    logged: Result<Vec<Entry>, StoreFault>,
) -> Result<String, ScriptFault> {
    match logged {
        Ok(entries) => Ok(format!(in alloc; "logged {}", entries.len())?),
        Err(fault) => Ok(fault_text(alloc, fault)?),
    }
}

/// A kind of words.
fn kind_text(alloc: Global, kind: Option<ListKind>) -> Result<String, ScriptFault> {
    match kind {
        Some(kind) => Ok(format!(in alloc; "{kind:?}")?),
        None => Ok(String::from_str(alloc, "none")?),
    }
}

/// Which cases were read.
fn status_text(alloc: Global, status: Result<Status, StoreFault>) -> Result<String, ScriptFault> {
    match status {
        Ok(status) => rows_text(alloc, &status),
        Err(fault) => Ok(fault_text(alloc, fault)?),
    }
}

/// The kind of the last word of a case, where it was spoken of.
fn kind_in(status: &Status, case: CaseName) -> Option<ListKind> {
    match status.row(&case) {
        Some(row) => Some(row.kind),
        None => None,
    }
}

/// What was read of a case.
fn row_text(
    alloc: Global,
    status: Result<Status, StoreFault>,
    case: CaseName,
) -> Result<String, ScriptFault> {
    match status {
        Ok(status) => kind_text(alloc, kind_in(&status, case)),
        Err(fault) => Ok(fault_text(alloc, fault)?),
    }
}

/// What the store's records and entries are.
fn ask<D: Disk, M>(
    alloc: Global,
    store: &mut Store<D, M>,
    word: &str,
) -> Result<String, ScriptFault> {
    match word {
        "at_end" => Ok(format!(in alloc; "{}", store.is_done())?),
        "closed" => closing_text(alloc, store.closed()),
        "spoken" => spoken_text(alloc, store.spoken(alloc)),
        "logged" => logged_text(alloc, store.logged(alloc)),
        "rows" => status_text(alloc, read_status(store, alloc)),
        _ => Err(ScriptFault::Words),
    }
}

/// What is known of a case.
fn row<D: Disk, M>(
    alloc: Global,
    store: &mut Store<D, M>,
    own: u32,
    number: u32,
) -> Result<String, ScriptFault> {
    let case = CaseName {
        module: own,
        case: u64::from(number),
    };
    row_text(alloc, read_status(store, alloc), case)
}

/// Makes a call with a module and a number.
fn call_of_module<D: Disk, M>(
    alloc: Global,
    store: &mut Store<D, M>,
    word: &str,
    own: u32,
    number: u32,
) -> Result<String, ScriptFault> {
    match word {
        "commit" => commit(alloc, store, own, number, None),
        "say" => say(alloc, store, own, number),
        "row" => row(alloc, store, own, number),
        _ => Err(ScriptFault::Words),
    }
}

/// Makes a call.
fn call<D: Disk, M>(
    alloc: Global,
    store: &mut Store<D, M>,
    words: &str,
) -> Result<String, ScriptFault> {
    let Some((word, rest)) = words.split_once(' ') else {
        return ask(alloc, store, words);
    };
    if word == "tick" {
        return tick(alloc, store, number_in(rest)?);
    }
    let (own, number) = rest.split_once(' ').ok_or(ScriptFault::Words)?;
    call_of_module(alloc, store, word, number_in(own)?, number_in(number)?)
}

/// Makes the calls of a text, with commas between them, and tells what they answer.
pub fn make_calls<D: Disk, M>(
    alloc: Global,
    store: &mut Store<D, M>,
    text: &str,
) -> Result<String, ScriptFault> {
    let mut answers = String::new(alloc);
    for words in text.split(',') {
        if !answers.is_empty() {
            answers.push_str(", ")?;
        }
        let answer = call(alloc, store, words.trim())?;
        answers.push_str(&answer)?;
    }
    Ok(answers)
}
