// The lines of a script that say a graph: the kinds of nodes, engines and instances.
use crate::words::{first_part, numbers_in, pair_in};
use ev_graph::{EngineSpec, Instance, NodeKind};
use std::alloc::Global;
use test_small_graph::{Wire, name_at};
use test_words::{ScriptFault, first_word, number_in, small_in};

/// An engine.
#[derive(Clone, Copy, Drop)]
pub struct EngineLine {
    n: u32,
    t: u64,
    trip: u32,
}

/// An instance.
#[derive(Drop)]
pub struct InstanceLine {
    causes: Vec<u32>,
    effects: Vec<u32>,
    n: u32,
    k: u32,
}

/// A number that need not be written.
fn number_or(word: &str, other: u32) -> Result<u32, ScriptFault> {
    if word.is_empty() {
        Ok(other)
    } else {
        small_in(word)
    }
}

/// The engine of an upset.
fn engine_of(word: &str) -> Result<Option<u32>, ScriptFault> {
    if word.is_empty() {
        Ok(None)
    } else {
        Ok(Some(small_in(word)?))
    }
}

/// The kind that words say: `report WITHIN`, `inner`, `fault` or `defect` with a rate or none,
/// `upset` with an engine or none.
pub fn kind_in(words: &str) -> Result<NodeKind, ScriptFault> {
    let (word, rest) = first_word(words);
    match word {
        "report" => Ok(NodeKind::Report {
            within: number_in(rest)?,
        }),
        "inner" => Ok(NodeKind::Inner),
        "fault" => Ok(NodeKind::Fault {
            fit: number_or(rest, 1)?,
            retire: true,
        }),
        "defect" => Ok(NodeKind::Defect {
            fit: number_or(rest, 1)?,
            retire: false,
        }),
        "upset" => Ok(NodeKind::Upset {
            engine: engine_of(rest)?,
        }),
        _ => Err(ScriptFault::Words),
    }
}

/// The kinds of a text, with commas between them.
pub fn kinds_in(alloc: Global, text: &str) -> Result<Vec<NodeKind>, ScriptFault> {
    let mut kinds = Vec::new(alloc);
    for words in text.split(',') {
        kinds.push(kind_in(words.trim())?)?;
    }
    Ok(kinds)
}

/// The engine that words say, `N T TRIP`.
pub fn engine_in(words: &str) -> Result<EngineLine, ScriptFault> {
    let (n, rest) = first_word(words);
    let (t, trip) = first_word(rest);
    Ok(EngineLine {
        n: small_in(n)?,
        t: number_in(t)?,
        trip: small_in(trip)?,
    })
}

/// The instance that words say, `CAUSE .. > EFFECT .., N/K`.
pub fn instance_in(alloc: Global, words: &str) -> Result<InstanceLine, ScriptFault> {
    let (nodes, counts) = first_part(words);
    let (causes, effects) = nodes.split_once('>').ok_or(ScriptFault::Words)?;
    let causes = numbers_in(alloc, causes)?;
    let effects = numbers_in(alloc, effects)?;
    let (n, k) = pair_in(counts)?;
    Ok(InstanceLine {
        causes,
        effects,
        n,
        k,
    })
}

impl EngineLine {
    /// The engine, at the chassis of number 4.
    pub fn engine(self, alloc: Global) -> Result<EngineSpec, ScriptFault> {
        match name_at(alloc, "serd.part.ce", 4)? {
            Some(name) => Ok(EngineSpec {
                name,
                n: self.n,
                t: self.t,
                trip: self.trip,
            }),
            None => Err(ScriptFault::Words),
        }
    }
}

impl InstanceLine {
    /// An instance of these.
    pub fn new(causes: Vec<u32>, effects: Vec<u32>, n: u32, k: u32) -> InstanceLine {
        InstanceLine {
            causes,
            effects,
            n,
            k,
        }
    }

    /// The instance.
    pub fn instance(&self, alloc: Global) -> Result<Instance, ScriptFault> {
        let wire = Wire {
            causes: &self.causes,
            effects: &self.effects,
            n: self.n,
            k: self.k,
        };
        Ok(wire.instance(alloc)?)
    }
}
