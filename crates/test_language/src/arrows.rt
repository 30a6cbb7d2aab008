// The distances and the first cycles of small drawings.
ghost use Rattle.std.specs.Prelude.{◌≡◌, ◌<◌, ◌≤◌, ◌∷◌, ◌^◌, [], length, IfOk};

use crate::words::{numbers_text, two_in};
use ev_ways::Arrows;
use fm_bytes::{Items, NoMemory};
use std::alloc::{AllocError, Global};
use test_words::{ScriptFault, first_word, small_in};

/// A link from a node to a node.
#[derive(Clone, Copy, Drop)]
struct Step {
    from: u32,
    to: u32,
}

/// The links of a text, `FROM TO` behind a comma each.
fn steps_in(alloc: Global, text: &str) -> Result<Vec<Step>, ScriptFault> {
    let mut steps = Vec::new(alloc);
    for words in text.split(',') {
        let (from, to) = two_in(words.trim())?;
        steps.push(Step { from, to })?;
    }
    Ok(steps)
}

/// The list of one node.
fn alone(alloc: Global, node: u32) -> Result<Items<u32>, NoMemory>
    ensures { IfOk result (λ nodes. nodes ≡ node ∷ []) }
{
    let mut nodes = Items::new(Vec::new(alloc));
    nodes.push(node)?;
    Ok(nodes)
}

/// Draws the links, each as an arrow of its own; a link to a node that is not there is left out.
fn drawn(alloc: Global, nodes: u32, steps: &[Step]) -> Result<Arrows, NoMemory>
    requires { length steps.now < 2 ^ 32 }
    ensures { IfOk result (λ arrows. arrows.nodes ≡ nodes) }
{
    let mut arrows = Arrows::new(alloc, nodes);
    'steps: for step in steps {
        if step.from < nodes && step.to < nodes {
            let causes = alone(alloc, step.from)?;
            let effects = alone(alloc, step.to)?;
            arrows.push(causes, effects)?;
        }
    }
    Ok(arrows)
}

/// The members of the first cycle of a drawing.
fn cycle_of(alloc: Global, nodes: u32, steps: &[Step]) -> Result<String, ScriptFault> {
    if steps.len() > 1000 {
        return Err(ScriptFault::Words);
    }
    let arrows = drawn(alloc, nodes, steps)?;
    match arrows.first_cycle(alloc)? {
        Some(members) => numbers_text(alloc, &members),
        None => Ok(String::from_str(alloc, "none")?),
    }
}

/// The first cycle of `NODES, FROM TO, ..`.
pub fn cycle(alloc: Global, words: &str) -> Result<String, ScriptFault> {
    let (nodes, links) = words.split_once(',').ok_or(ScriptFault::Words)?;
    let steps = steps_in(alloc, links)?;
    cycle_of(alloc, small_in(nodes)?, &steps)
}

/// Puts each distance, or `-`.
fn put_distances(distances: &[Option<u32>], line: &mut String) -> Result<(), AllocError> {
    for distance in distances {
        if !line.is_empty() {
            line.push(' ')?;
        }
        match distance {
            Some(distance) => write!(line, "{distance}")?,
            None => line.push('-')?,
        }
    }
    Ok(())
}

/// The distances from a node of a drawing.
fn distances_of(
    alloc: Global,
    nodes: u32,
    start: u32,
    steps: &[Step],
) -> Result<String, ScriptFault> {
    if steps.len() > 1000 || start >= nodes {
        return Err(ScriptFault::Words);
    }
    let arrows = drawn(alloc, nodes, steps)?;
    let found = arrows.distances(alloc, &[start])?;
    let mut line = String::new(alloc);
    put_distances(&found, &mut line)?;
    Ok(line)
}

/// The distances of `NODES START, FROM TO, ..`.
pub fn distances(alloc: Global, words: &str) -> Result<String, ScriptFault> {
    let (numbers, links) = words.split_once(',').ok_or(ScriptFault::Words)?;
    let (nodes, start) = two_in(numbers)?;
    let steps = steps_in(alloc, links)?;
    distances_of(alloc, nodes, start, &steps)
}
