// What a graph answers, and marks.
use crate::words::{first_part, numbers_text};
use ev_graph::Graph;
use ev_incidence::{Incidence, Marked};
use std::alloc::Global;
use test_small_graph::name_at;
use test_words::{ScriptFault, first_word, small_in};

/// How many nodes, engines and instances there are.
fn sizes(alloc: Global, graph: &Graph) -> Result<String, ScriptFault> {
    let nodes = graph.nodes().len();
    let count = graph.node_count();
    let engines = graph.engines().len();
    let instances = graph.instances().len();
    Ok(format!(in alloc; "{nodes} of {count} nodes, {engines} engines, {instances} instances")?)
}

/// The number of the node of a class at the chassis of a number.
fn find(alloc: Global, graph: &Graph, words: &str) -> Result<String, ScriptFault> {
    let (class, chassis) = first_word(words);
    match name_at(alloc, class, small_in(chassis)?)? {
        Some(name) => found_text(alloc, graph.find(&name)),
        None => Err(ScriptFault::Words),
    }
}

/// A number that was found.
fn found_text(alloc: Global, found: Option<u32>) -> Result<String, ScriptFault> {
    match found {
        Some(number) => Ok(format!(in alloc; "{number}")?),
        None => Ok(String::from_str(alloc, "none")?),
    }
}

/// The rank of a node that is there.
fn rank(graph: &Graph, node: u32) -> Option<u32> {
    if (node as usize) < graph.node_count() {
        Some(graph.rank(node))
    } else {
        None
    }
}

/// What the table of nodes and instances says.
fn ask_table(
    alloc: Global,
    table: &Incidence,
    word: &str,
    number: u32,
) -> Result<String, ScriptFault> {
    match word {
        "uses" => numbers_text(alloc, table.uses(number)),
        "gets" => numbers_text(alloc, table.gets(number)),
        "causes" => numbers_text(alloc, table.causes(number)),
        "effects" => numbers_text(alloc, table.effects(number)),
        "counts" => {
            let (n, k) = (table.n(number), table.k(number));
            Ok(format!(in alloc; "{n}/{k}")?)
        }
        _ => Err(ScriptFault::Words),
    }
}

/// What a graph answers.
fn ask_graph(alloc: Global, graph: &Graph, word: &str, rest: &str) -> Result<String, ScriptFault> {
    match word {
        "sizes" => sizes(alloc, graph),
        "find" => find(alloc, graph, rest),
        "rank" => found_text(alloc, rank(graph, small_in(rest)?)),
        _ => ask_table(alloc, graph.incidence(), word, small_in(rest)?),
    }
}

/// What a graph answers, and a copy of it.
pub fn ask(alloc: Global, graph: &Graph, word: &str, rest: &str) -> Result<String, ScriptFault> {
    let copy = graph.copy(alloc)?;
    let answer = ask_graph(alloc, graph, word, rest)?;
    if answer == ask_graph(alloc, &copy, word, rest)? {
        Ok(answer)
    } else {
        Ok(String::from_str(alloc, "a copy differs")?)
    }
}

/// Puts a number, and whether it was put for the first time.
fn note(marked: &mut Marked, number: u32) -> Result<bool, ScriptFault> {
    if number as usize >= marked.size() {
        return Err(ScriptFault::Words);
    }
    Ok(marked.note(number)?)
}

/// What marks answer, `note NUMBER` or `has NUMBER`.
fn mark(marked: &mut Marked, words: &str) -> Result<bool, ScriptFault> {
    let (word, number) = first_word(words);
    match word {
        "note" => note(marked, small_in(number)?),
        "has" => Ok(marked.has(small_in(number)?)),
        _ => Err(ScriptFault::Words),
    }
}

/// What marks of numbers below a size answer, one word after the other, and all that were put.
pub fn marks(alloc: Global, words: &str) -> Result<String, ScriptFault> {
    let (size, rest) = first_part(words);
    let mut marked = Marked::new(alloc, small_in(size)? as usize)?;
    let mut line = String::new(alloc);
    for each in rest.split(',') {
        let answer = mark(&mut marked, each.trim())?;
        write!(&mut line, "{answer} ")?;
    }
    let all = numbers_text(alloc, marked.as_slice())?;
    line.push_str(&all)?;
    Ok(line)
}
