// The commands of a script, each with its answer.
use crate::answers::{ask, marks};
use crate::cases::{case, copy, kept};
use crate::drawn_cases::drawn_cases;
use crate::drawn_lives::drawn_lives;
use crate::explained::{drawn_stories, explain_less, explain_root};
use crate::graphs::GraphLines;
use crate::live_sets::live;
use crate::stories::{story, story_less};
use ev_graph::Graph;
use std::alloc::Global;
use test_words::{ScriptFault, first_word, small_in};

/// A command on drawn graphs, `SEED COUNT`.
fn answer_of_drawn(alloc: Global, word: &str, rest: &str) -> Result<String, ScriptFault> {
    let (seed, count) = first_word(rest);
    let seed = small_in(seed)?;
    let count = small_in(count)?;
    match word {
        "drawn_stories" => drawn_stories(alloc, seed, count),
        "drawn_shrinks" => drawn_lives(alloc, seed, count, false),
        "drawn_cuts" => drawn_lives(alloc, seed, count, true),
        "drawn_cases" => drawn_cases(alloc, seed, count),
        _ => Err(ScriptFault::Words),
    }
}

/// A command on a graph.
fn answer_of_graph(
    alloc: Global,
    graph: &Graph,
    word: &str,
    rest: &str,
) -> Result<String, ScriptFault> {
    match word {
        "story" => story(alloc, graph, rest),
        "story_less" => story_less(alloc, graph, rest),
        "explain" => explain_root(alloc, graph, rest),
        "explain_less" => explain_less(alloc, graph, rest),
        "live" => live(alloc, graph, rest),
        "case" => case(alloc, graph, rest),
        "copy" => copy(alloc, graph, rest),
        "kept" => kept(alloc, graph, rest),
        _ => ask(alloc, graph, word, rest),
    }
}

/// Does what a line says, and tells what came of it, if it says no part of the graph.
pub fn answer(
    alloc: Global,
    lines: &mut GraphLines,
    line: &str,
) -> Result<Option<String>, ScriptFault> {
    let (word, rest) = first_word(line);
    if lines.take(alloc, word, rest)? {
        return Ok(None);
    }
    if word.starts_with("build") {
        return Ok(Some(lines.build(alloc, word, rest)?));
    }
    if word.starts_with("drawn") {
        return Ok(Some(answer_of_drawn(alloc, word, rest)?));
    }
    if word == "marks" {
        return Ok(Some(marks(alloc, rest)?));
    }
    let graph = lines.graph(alloc)?;
    Ok(Some(answer_of_graph(alloc, &graph, word, rest)?))
}
