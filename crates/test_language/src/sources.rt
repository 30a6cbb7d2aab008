// Rule files and a topology, as they are read from sources.
use crate::settings::Settings;
use crate::topologies::topo_word;
use fm_outer::MemSource;
use fm_sources::{RulesFault, RulesKind, SourceFault, Sources, read_rules, read_sources};
use std::alloc::{AllocError, Global};
use test_words::{ScriptFault, first_word};

/// The word of a kind.
fn rules_word(kind: &RulesKind) -> &'static str {
    match kind {
        RulesKind::Length => "length",
        RulesKind::Token => "token",
        RulesKind::Grammar => "grammar",
        RulesKind::Check(_) => "check",
    }
}

/// Whether a text is a rule file, or what is wrong with it first, and where.
pub fn rule_file(alloc: Global, text: &[u8]) -> Result<String, ScriptFault> {
    match read_rules(alloc, text) {
        Ok(_) => Ok(String::from_str(alloc, "rule file")?),
        Err(RulesFault::At { place, kind }) => {
            let word = rules_word(&kind);
            Ok(format!(in alloc; "{word} {place}")?)
        }
        Err(RulesFault::NoMemory) => Err(ScriptFault::NoMemory),
    }
}

/// A source of a text that gives at most seven bytes a call, or whose first call fails.
fn source_of(alloc: Global, text: &[u8], word: &str) -> Result<MemSource, ScriptFault> {
    let fails = match word {
        "gives" => Vec::new(alloc),
        "fails" => Vec::from_array(alloc, [0])?,
        _ => return Err(ScriptFault::Words),
    };
    Ok(MemSource::new(text.to_vec(alloc)?, 7, fails))
}

/// How many files and paths were read.
fn read_text(alloc: Global, sources: &Sources) -> Result<String, AllocError> {
    let files = sources.files.len();
    let paths = sources.topo.len();
    format!(in alloc; "read {files} {paths}")
}

/// What was refused.
fn refused_text(alloc: Global, fault: &SourceFault) -> Result<String, ScriptFault> {
    match fault {
        SourceFault::Read => Ok(String::from_str(alloc, "fault")?),
        SourceFault::Rules { file, place, kind } => {
            let word = rules_word(kind);
            Ok(format!(in alloc; "{word} {file} {place}")?)
        }
        SourceFault::Topology { line, kind } => {
            let word = topo_word(*kind);
            Ok(format!(in alloc; "{word} {line}")?)
        }
        SourceFault::NoMemory => Err(ScriptFault::NoMemory),
    }
}

/// What is told of two rule files and a topology, and how many bytes of the topology are left.
fn told(
    alloc: Global,
    rules: &mut [MemSource; 2],
    topo: &mut MemSource,
) -> Result<String, ScriptFault> {
    let text = match read_sources(alloc, rules, topo) {
        Ok(sources) => read_text(alloc, &sources)?,
        Err(fault) => refused_text(alloc, &fault)?,
    };
    let left = topo.rest().len();
    Ok(format!(in alloc; "{text}, {left} left")?)
}

/// The same of the texts of the settings; the words say whether the first call of a source fails.
pub fn sources(alloc: Global, settings: &Settings, words: &str) -> Result<String, ScriptFault> {
    let (word, other) = first_word(words);
    let first = source_of(alloc, &settings.first, word)?;
    let second = source_of(alloc, &settings.second, other)?;
    let mut topo = source_of(alloc, &settings.parts, "gives")?;
    told(alloc, &mut [first, second], &mut topo)
}
