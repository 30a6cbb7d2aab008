// What calls are given beside their words: sources, a sink, a moment, and which calls fail.
use crate::disks::numbers;
use crate::noting::Noting;
use crate::texts::Texts;
use crate::undone::Undone;
use fm_outer::{MemSink, MemSource, NoMemory};
use fm_text::ArgText;
use std::alloc::Global;

/// Which call of an object fails.
#[derive(Clone, Copy)]
pub struct Fails {
    /// Of the rule file, or of the actuator, at a place.
    pub rules: Option<(usize, u64)>,
    pub act: Option<(usize, u64)>,
    pub topology: Option<u64>,
    pub input: Option<u64>,
    pub out: Option<u64>,
}

/// No call fails.
pub const NO_FAILS: Fails = Fails {
    rules: None,
    act: None,
    topology: None,
    input: None,
    out: None,
};

/// The call that fails of the object at a place.
pub fn at_place(fails: Option<(usize, u64)>, place: usize) -> Option<u64> {
    match fails {
        Some((of, call)) if of == place => Some(call),
        _ => None,
    }
}

/// The names of the rule files, a blank between two, and of the topology; the most bytes that a
/// call of a source gives; the moment; and which calls fail in the next call.
#[derive(Clone, Copy)]
pub struct Settings<'a> {
    pub rules: &'a str,
    pub topology: &'a str,
    pub piece: usize,
    pub now: u64,
    pub fails: Fails,
}

/// How often the sources were called: all rule files, the topology, the input; and the most bytes
/// that the input was asked for at once.
#[derive(Clone, Copy)]
pub struct SourceCalls {
    pub rules: u64,
    pub topology: u64,
    pub input: u64,
    pub most: u64,
}

/// The most bytes that a sink takes.
const ROOM: usize = 1_048_576;

/// The words of a call, its sources and its sink.
#[derive(Drop)]
pub struct CallObjects {
    pub words: Vec<ArgText>,
    pub input: Noting<MemSource>,
    pub rules: Vec<Noting<MemSource>>,
    pub topology: Noting<MemSource>,
    pub out: MemSink,
}

impl CallObjects {
    /// No words, no rule files, and sources without bytes, of which no call fails.
    pub fn new(alloc: Global) -> Result<CallObjects, NoMemory> {
        let out = MemSink::new(alloc, ROOM, Vec::new(alloc))?;
        Ok(CallObjects {
            words: Vec::new(alloc),
            input: empty_source(alloc),
            rules: Vec::new(alloc),
            topology: empty_source(alloc),
            out,
        })
    }

    /// Makes it what a call of these words over this input is handed.
    pub fn fill(
        &mut self,
        alloc: Global,
        texts: &Texts<'_>,
        settings: Settings<'_>,
        words: &str,
        input: &[u8],
    ) -> Result<(), Undone> {
        let piece = settings.piece;
        let fails = settings.fails;
        let topology = texts.get(settings.topology)?;
        self.input = source(alloc, input, piece, fails.input)?;
        self.topology = source(alloc, topology, piece, fails.topology)?;
        self.out = MemSink::new(alloc, ROOM, numbers(alloc, fails.out)?)?;
        push_rules(alloc, texts, settings, &mut self.rules)?;
        push_words(alloc, words, &mut self.words)
    }

    /// How often its sources were called.
    pub fn asked(&self) -> SourceCalls {
        let mut rules = 0_u64;
        for source in &self.rules {
            rules = rules.saturating_add(source.calls());
        }
        SourceCalls {
            rules,
            topology: self.topology.calls(),
            input: self.input.calls(),
            most: self.input.most() as u64,
        }
    }
}

/// A source without bytes.
fn empty_source(alloc: Global) -> Noting<MemSource> {
    Noting::new(MemSource::new(Vec::new(alloc), 1, Vec::new(alloc)))
}

/// A source of these bytes in such pieces, of which this call fails.
fn source(
    alloc: Global,
    bytes: &[u8],
    piece: usize,
    fails: Option<u64>,
) -> Result<Noting<MemSource>, NoMemory> {
    let fails = numbers(alloc, fails)?;
    let bytes = bytes.to_vec(alloc)?;
    Ok(Noting::new(MemSource::new(bytes, piece.max(1), fails)))
}

/// Appends the sources of the rule files.
fn push_rules(
    alloc: Global,
    texts: &Texts<'_>,
    settings: Settings<'_>,
    rules: &mut Vec<Noting<MemSource>>,
) -> Result<(), Undone> {
    if !settings.rules.is_empty() {
        for (place, name) in settings.rules.split(' ').enumerate() {
            let fails = at_place(settings.fails.rules, place);
            rules.push(source(alloc, texts.get(name)?, settings.piece, fails)?)?;
        }
    }
    Ok(())
}

/// Appends the words of a text, a blank between two; none of the empty text. `""` is the empty
/// word.
fn push_words(alloc: Global, text: &str, words: &mut Vec<ArgText>) -> Result<(), Undone> {
    if !text.is_empty() {
        for word in text.split(' ') {
            let word = if word == "\"\"" { "" } else { word };
            words.push(ArgText::new(alloc, word)?)?;
        }
    }
    Ok(())
}
