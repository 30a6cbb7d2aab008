// What texts of topologies come to, and what a topology answers.
use crate::parts::{path_in, topology};
use crate::texts::{shown, shown_bytes};
use crate::words::numbers_text;
use fm_name::Fmri;
use fm_topo::{
    Groups, Topo, TopoFault, TopoKind, TopoText, TopoValue, names_text, print_topo, read_topo,
};
use std::alloc::Global;
use test_words::{ScriptFault, first_word, small_in};

/// The word of a kind.
pub fn topo_word(kind: TopoKind) -> &'static str {
    match kind {
        TopoKind::Path => "path",
        TopoKind::Property => "property",
        TopoKind::Twice => "twice",
        TopoKind::Parent => "parent",
        TopoKind::Length => "length",
        TopoKind::Count => "count",
        TopoKind::Bytes => "bytes",
    }
}

/// What is printed of a topology, behind what was there.
fn printed(alloc: Global, topo: &Topo) -> Result<String, ScriptFault> {
    let mut out = b">".to_vec(alloc)?;
    print_topo(topo, &mut out)?;
    shown_bytes(alloc, &out)
}

/// What is printed of the topology of a text, or the line of its first fault and the kind.
pub fn topo(alloc: Global, text: &[u8]) -> Result<String, ScriptFault> {
    match read_topo(alloc, text) {
        Ok(topo) => printed(alloc, &topo),
        Err(TopoFault::At { line, kind }) => {
            let word = topo_word(kind);
            Ok(format!(in alloc; "{line} {word}")?)
        }
        Err(TopoFault::NoMemory) => Err(ScriptFault::NoMemory),
    }
}

/// The text of the path of a number.
fn path_text(alloc: Global, topo: &Topo, at: usize) -> Result<String, ScriptFault> {
    if at < topo.len() {
        Ok(String::from_str(alloc, topo.path(at).text())?)
    } else {
        Ok(String::from_str(alloc, "no path")?)
    }
}

/// The range of the paths under a path.
fn range_text(alloc: Global, topo: &Topo, above: &str) -> Result<String, ScriptFault> {
    let above = path_in(alloc, above)?;
    let (first, count) = topo.children(&above);
    Ok(format!(in alloc; "from {first} {count}")?)
}

/// A value of a property.
fn value_text(alloc: Global, value: Option<&TopoValue>) -> Result<String, ScriptFault> {
    match value {
        Some(TopoValue::Number(number)) => Ok(format!(in alloc; "{number}")?),
        Some(TopoValue::Text(text)) => shown(alloc, text.get()),
        None => Ok(String::from_str(alloc, "none")?),
    }
}

/// The property of a path in a topology.
fn property_of(alloc: Global, topo: &Topo, path: &Fmri, name: &str) -> Result<String, ScriptFault> {
    if topo.has(path) {
        value_text(alloc, topo.property(path, name))
    } else {
        Ok(String::from_str(alloc, "no path")?)
    }
}

/// The property of a path, asked of a topology and of a copy.
fn property(alloc: Global, topo: &Topo, words: &str) -> Result<String, ScriptFault> {
    let (at, name) = first_word(words);
    let path = path_in(alloc, at)?;
    let copy = topo.copy(alloc)?;
    let text = property_of(alloc, topo, &path, name)?;
    if text == property_of(alloc, &copy, &path, name)? {
        Ok(text)
    } else {
        Ok(String::from_str(alloc, "a copy differs")?)
    }
}

/// The numbers of the paths with these names.
fn group_text(alloc: Global, groups: &Groups, names: &str) -> Result<String, ScriptFault> {
    let names = TopoText::new(alloc, names)?;
    numbers_text(alloc, groups.numbers(&names))
}

/// What the topology of a text answers.
pub fn ask_topo(alloc: Global, text: &[u8], word: &str, rest: &str) -> Result<String, ScriptFault> {
    let topo = topology(alloc, text)?;
    match word {
        "len" => Ok(format!(in alloc; "{}", topo.len())?),
        "path" => path_text(alloc, &topo, small_in(rest)? as usize),
        "under" => range_text(alloc, &topo, rest),
        "property" => property(alloc, &topo, rest),
        "numbers" => group_text(alloc, &topo.groups(alloc)?, rest),
        _ => Err(ScriptFault::Words),
    }
}

/// The names of a path, joined by slashes.
pub fn names(alloc: Global, path: &str) -> Result<String, ScriptFault> {
    let path = path_in(alloc, path)?;
    let names = names_text(alloc, &path)?;
    shown(alloc, names.get())
}
