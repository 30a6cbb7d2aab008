// What is put of the row of a case at the path `hc:///chassis=0/cpu=1`.
use crate::checks::checked;
use crate::parts::{path_in, topology};
use crate::texts::shown_bytes;
use ev_graph::Graph;
use ev_inst::instantiate;
use fm_entry::{
    Broken, BrokenLinks, CaseName, EventNames, ListEvent, ListKind, Mark, Suspect, Suspects,
};
use fm_explain::put_explained;
use fm_name::{Class, EventName, Fmri, read_class};
use std::alloc::Global;
use test_words::{ScriptFault, small_in};

/// The class of a text that has one.
fn class_in(alloc: Global, text: &str) -> Result<Class, ScriptFault> {
    match read_class(alloc, text)? {
        Some(class) => Ok(class),
        None => Err(ScriptFault::Words),
    }
}

/// The path of all events.
fn path(alloc: Global) -> Result<Fmri, ScriptFault> {
    path_in(alloc, "hc:///chassis=0/cpu=1")
}

/// The suspects of these classes.
fn suspects(alloc: Global, classes: &str) -> Result<Suspects, ScriptFault> {
    let mut list = Vec::new(alloc);
    for text in classes.split_whitespace() {
        let class = class_in(alloc, text)?;
        let path = path(alloc)?;
        list.push(Suspect {
            class,
            path,
            certainty: 50,
            retire: true,
            mark: Mark::Present,
        })?;
    }
    Ok(Suspects::new(list))
}

/// The events of these classes.
fn events(alloc: Global, classes: &str) -> Result<EventNames, ScriptFault> {
    let mut list = Vec::new(alloc);
    for text in classes.split_whitespace() {
        let class = class_in(alloc, text)?;
        let path = path(alloc)?;
        list.push(EventName { class, path })?;
    }
    Ok(EventNames::new(list))
}

/// The links of a text, `INSTANCE/EFFECT` each.
fn broken(alloc: Global, links: &str) -> Result<BrokenLinks, ScriptFault> {
    let mut list = Vec::new(alloc);
    for link in links.split_whitespace() {
        let (instance, effect) = link.split_once('/').ok_or(ScriptFault::Words)?;
        let instance = small_in(instance)?;
        let effect = small_in(effect)?;
        list.push(Broken { instance, effect })?;
    }
    Ok(BrokenLinks::new(list))
}

/// The row of `SUSPECT .., REPORT .., INSTANCE/EFFECT ..`.
fn row(alloc: Global, words: &str) -> Result<ListEvent, ScriptFault> {
    let (suspected, rest) = words.split_once(',').ok_or(ScriptFault::Words)?;
    let (observed, links) = rest.split_once(',').ok_or(ScriptFault::Words)?;
    let suspects = suspects(alloc, suspected)?;
    let observed = events(alloc, observed)?;
    let broken = broken(alloc, links)?;
    Ok(ListEvent {
        kind: ListKind::Suspect,
        case: CaseName { module: 0, case: 0 },
        moment: 15,
        conf: 0,
        observed,
        suspects,
        broken,
    })
}

/// What is put of a row.
fn told(alloc: Global, graph: Option<&Graph>, row: &ListEvent) -> Result<String, ScriptFault> {
    let mut out = Vec::new(alloc);
    put_explained(alloc, graph, row, &mut out)?;
    shown_bytes(alloc, &out)
}

/// What rules come to over some parts.
fn graph_of(alloc: Global, rules: &[u8], parts: &[u8]) -> Result<Graph, ScriptFault> {
    let file = checked(alloc, rules)?;
    let topo = topology(alloc, parts)?;
    match instantiate(alloc, &file, &topo) {
        Ok(made) => Ok(made.graph),
        Err(_) => Err(ScriptFault::Words),
    }
}

/// What is put of a row whose graph is that of rules over some parts.
pub fn explain(
    alloc: Global,
    rules: &[u8],
    parts: &[u8],
    words: &str,
) -> Result<String, ScriptFault> {
    let row = row(alloc, words)?;
    let graph = graph_of(alloc, rules, parts)?;
    told(alloc, Some(&graph), &row)
}

/// What is put of a row whose graph is not kept.
pub fn explain_alone(alloc: Global, words: &str) -> Result<String, ScriptFault> {
    let row = row(alloc, words)?;
    told(alloc, None, &row)
}
