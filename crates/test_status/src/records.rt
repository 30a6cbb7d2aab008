// Records of words about cases, as a script writes them.
use fm_entry::{
    BrokenLinks, CaseName, EventNames, ListEvent, ListEvents, ListKind, Mark, Spoken, Suspect,
    Suspects, read_case_name,
};
use fm_name::EventName;
use std::alloc::Global;
use test_words::{ScriptFault, event_in, first_word, number_in};

/// The kind of a word, copied.
fn kind_in(word: &str) -> Result<ListKind, ScriptFault> {
    let kind = match word {
        "suspect" => ListKind::Suspect,
        "undiagnosable" => ListKind::Undiagnosable,
        "upset" => ListKind::Upset,
        "updated" => ListKind::Updated,
        "repaired" => ListKind::Repaired,
        _ => return Err(ScriptFault::Words),
    };
    Ok(kind.copy()?)
}

/// The mark of a word, copied.
fn mark_in(word: &str) -> Result<Mark, ScriptFault> {
    let mark = match word {
        "present" => Mark::Present,
        "repaired" => Mark::Repaired,
        "replaced" => Mark::Replaced,
        "acquitted" => Mark::Acquitted,
        _ => return Err(ScriptFault::Words),
    };
    Ok(mark.copy()?)
}

/// The name of a case.
pub fn case_in(word: &str) -> Result<CaseName, ScriptFault> {
    read_case_name(word).ok_or(ScriptFault::Words)
}

/// A certainty of at most 100.
fn certainty_in(word: &str) -> Result<u8, ScriptFault> {
    match word.parse::<u8>() {
        Ok(certainty) => Ok(certainty),
        Err(_) => Err(ScriptFault::Words),
    }
}

/// A suspect: `CLASS@PATH CERTAINTY MARK`, and `retire` behind it where it is to be out of use.
fn suspect_in(alloc: Global, text: &str) -> Result<Suspect, ScriptFault> {
    let (event, rest) = first_word(text);
    let (certainty, rest) = first_word(rest);
    let (mark, rest) = first_word(rest);
    let EventName { class, path } = event_in(alloc, event)?;
    Ok(Suspect {
        class,
        path,
        certainty: certainty_in(certainty)?,
        retire: rest == "retire",
        mark: mark_in(mark)?,
    })
}

/// The suspects of a text, with commas between them.
fn suspects_in(alloc: Global, text: &str) -> Result<Suspects, ScriptFault> {
    let mut suspects = Vec::new(alloc);
    for item in text.split(", ") {
        if !item.is_empty() {
            suspects.push(suspect_in(alloc, item)?)?;
        }
    }
    Ok(Suspects::new(suspects))
}

/// The events of a word: one, or none where the word is `-`.
fn observed_in(alloc: Global, word: &str) -> Result<EventNames, ScriptFault> {
    let mut events = Vec::new(alloc);
    if word != "-" {
        events.push(event_in(alloc, word)?)?;
    }
    Ok(EventNames::new(events))
}

/// The record of a word.
fn record_of(alloc: Global, word: ListEvent) -> Result<Spoken, ScriptFault> {
    let module = word.case.module;
    let mut words = Vec::new(alloc);
    words.push(word)?;
    Ok(Spoken {
        module,
        number: 2,
        events: ListEvents::new(words),
    })
}

/// The record of a text: `KIND CASE MOMENT OBSERVED SUSPECT, SUSPECT ..`.
pub fn record_in(alloc: Global, text: &str) -> Result<Spoken, ScriptFault> {
    let (kind, rest) = first_word(text);
    let (case, rest) = first_word(rest);
    let (moment, rest) = first_word(rest);
    let (observed, rest) = first_word(rest);
    let observed = observed_in(alloc, observed)?;
    let suspects = suspects_in(alloc, rest)?;
    let word = ListEvent {
        kind: kind_in(kind)?,
        case: case_in(case)?,
        moment: number_in(moment)?,
        conf: 0,
        observed,
        suspects,
        broken: BrokenLinks::new(Vec::new(alloc)),
    };
    record_of(alloc, word)
}
