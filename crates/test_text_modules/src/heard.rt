// What a module says, as text.
use fm_entry::{Broken, EventName, ListEvent, ListKind, Mark, Spoken, Suspect};
use fm_status::Status;
use std::alloc::{AllocError, Global};
use test_words::ScriptFault;

/// What was said so far: the last word of each case, and of the entries from a number on all words
/// as text.
#[derive(Drop)]
pub struct Heard {
    from: u64,
    pub words: u64,
    pub text: String,
    pub status: Status,
}

/// The word for a kind.
pub fn kind_text(kind: ListKind) -> &'static str {
    match kind {
        ListKind::Suspect => "suspect",
        ListKind::Upset => "upset",
        ListKind::Undiagnosable => "undiagnosable",
        ListKind::Updated => "updated",
        ListKind::Repaired => "repaired",
    }
}

/// The word for a mark.
pub fn mark_text(mark: Mark) -> &'static str {
    match mark {
        Mark::Present => "present",
        Mark::Repaired => "repaired",
        Mark::Replaced => "replaced",
        Mark::Acquitted => "acquitted",
    }
}

/// What stands between the items of a list, of which the first begins with a word.
pub fn link_text(at: usize, first: &'static str) -> &'static str {
    if at == 0 { first } else { ", " }
}

fn put_observed(events: &[EventName], text: &mut String) -> Result<(), AllocError> {
    for (at, event) in events.iter().enumerate() {
        let front = link_text(at, " of ");
        let class = event.class.text();
        let path = event.path.text();
        write!(text, "{front}{class} {path}")?;
    }
    Ok(())
}

fn put_broken(links: &[Broken], text: &mut String) -> Result<(), AllocError> {
    for (at, link) in links.iter().enumerate() {
        let front = link_text(at, " less ");
        let instance = link.instance;
        let effect = link.effect;
        write!(text, "{front}{instance}-{effect}")?;
    }
    Ok(())
}

fn put_suspects(suspects: &[Suspect], text: &mut String) -> Result<(), AllocError> {
    for (at, suspect) in suspects.iter().enumerate() {
        let front = link_text(at, " by ");
        let class = suspect.class.text();
        let path = suspect.path.text();
        let certainty = suspect.certainty;
        let mark = mark_text(suspect.mark);
        write!(text, "{front}{certainty}% {class} {path} {mark}")?;
        if suspect.retire {
            text.push_str(" retire")?;
        }
    }
    Ok(())
}

/// Puts a word: its kind, case, moment and configuration, then what was observed, which links are
/// broken, and who is suspected.
pub fn put_word(word: &ListEvent, text: &mut String) -> Result<(), AllocError> {
    let kind = kind_text(word.kind);
    let module = word.case.module;
    let case = word.case.case;
    let moment = word.moment;
    let conf = word.conf;
    write!(text, "{kind} dx{module}/{case} at {moment} under {conf}")?;
    put_observed(word.observed.as_slice(), text)?;
    put_broken(word.broken.as_slice(), text)?;
    put_suspects(word.suspects.as_slice(), text)
}

impl Heard {
    /// Nothing was said yet; the words of the entries from this number on are to be kept as text.
    pub fn new(alloc: Global, from: u64) -> Heard {
        Heard {
            from,
            words: 0,
            text: String::new(alloc),
            status: Status::new(alloc),
        }
    }

    /// Takes what was said at an entry.
    pub fn take(&mut self, alloc: Global, spoken: &Spoken) -> Result<(), ScriptFault> {
        self.status.apply(alloc, spoken)?;
        let words = spoken.events.as_slice();
        self.words = self.words.saturating_add(words.len() as u64);
        if spoken.number < self.from {
            return Ok(());
        }
        for word in words {
            if !self.text.is_empty() {
                self.text.push_str("; ")?;
            }
            put_word(word, &mut self.text)?;
        }
        Ok(())
    }
}
