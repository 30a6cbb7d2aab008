// Small graphs that are drawn from a number, and a search over all sets of their nodes.
use crate::graphs::GraphLines;
use crate::lines::InstanceLine;
use crate::stories::is_story_less;
use ev_graph::{Graph, Link, NodeKind};
use std::alloc::Global;
use test_words::{Draws, ScriptFault};

/// The bits of the reports. The nodes 0 to 2 are reports, 3 to 5 are inner, 6 and 7 roots.
pub const REPORTS: u32 = 7;

/// The bit of a node.
pub fn bit_of(number: u32) -> u32 {
    1u32.checked_shl(number).unwrap_or(0)
}

/// The nodes below 8 of these bits, ascending.
pub fn numbers_of(alloc: Global, bits: u32) -> Result<Vec<u32>, ScriptFault> {
    let mut numbers = Vec::new(alloc);
    for number in 0..8 {
        if bits & bit_of(number) != 0 {
            numbers.push(number)?;
        }
    }
    Ok(numbers)
}

/// The bits of these nodes.
pub fn bits_of(numbers: &[u32]) -> u32 {
    let mut bits = 0;
    for number in numbers {
        bits |= bit_of(*number);
    }
    bits
}

/// An instance that leads from greater numbers to smaller ones, or none.
fn drawn_instance(alloc: Global, draws: &mut Draws) -> Result<Option<InstanceLine>, ScriptFault> {
    let causes = draws.some_of(248) & draws.some_of(248);
    let lowest = causes & causes.wrapping_neg();
    let effects = draws.some_of(63) & lowest.wrapping_sub(1);
    if causes == 0 || effects == 0 {
        return Ok(None);
    }
    let needed = causes.count_ones().saturating_sub(1);
    let n = draws.up_to(effects.count_ones());
    let k = draws.up_to(needed).saturating_add(1);
    let causes = numbers_of(alloc, causes)?;
    let effects = numbers_of(alloc, effects)?;
    Ok(Some(InstanceLine::new(causes, effects, n, k)))
}

/// At most so many instances.
fn drawn_instances(
    alloc: Global,
    draws: &mut Draws,
    most: u32,
) -> Result<Vec<InstanceLine>, ScriptFault> {
    let mut instances = Vec::new(alloc);
    for _ in 0..most {
        if let Some(instance) = drawn_instance(alloc, draws)? {
            instances.push(instance)?;
        }
    }
    Ok(instances)
}

/// A root of some kind.
fn drawn_root(draws: &mut Draws) -> NodeKind {
    match draws.up_to(2) {
        0 => NodeKind::Fault {
            fit: 1,
            retire: true,
        },
        1 => NodeKind::Defect {
            fit: 1,
            retire: false,
        },
        _ => NodeKind::Upset { engine: None },
    }
}

/// Three reports with windows, three inner events and two roots.
fn drawn_kinds(alloc: Global, draws: &mut Draws) -> Result<Vec<NodeKind>, ScriptFault> {
    let mut kinds = Vec::new(alloc);
    for _ in 0..3 {
        let within = u64::from(draws.up_to(6));
        kinds.push(NodeKind::Report { within })?;
    }
    for _ in 0..3 {
        kinds.push(NodeKind::Inner)?;
    }
    for _ in 0..2 {
        kinds.push(drawn_root(draws))?;
    }
    Ok(kinds)
}

/// A graph of eight nodes and at most ten instances.
pub fn drawn_graph(alloc: Global, draws: &mut Draws) -> Result<Graph, ScriptFault> {
    let kinds = drawn_kinds(alloc, draws)?;
    let instances = drawn_instances(alloc, draws, 10)?;
    GraphLines::of(alloc, kinds, instances).graph(alloc)
}

/// Whether some nodes, as bits, are a story of the root with the reports among them, in the graph
/// less these links.
fn is_found(
    alloc: Global,
    graph: &Graph,
    less: &[Link],
    root: u32,
    bits: u32,
) -> Result<bool, ScriptFault> {
    let story = numbers_of(alloc, bits)?;
    let reports = numbers_of(alloc, bits & REPORTS)?;
    Ok(is_story_less(graph, less, root, &reports, &story))
}

/// All sets of nodes that are stories of the root with some report, in the graph less these links.
pub fn stories_of(
    alloc: Global,
    graph: &Graph,
    less: &[Link],
    root: u32,
) -> Result<Vec<u32>, ScriptFault> {
    let mut stories = Vec::new(alloc);
    for bits in 0..256 {
        if is_found(alloc, graph, less, root, bits)? {
            stories.push(bits)?;
        }
    }
    Ok(stories)
}

/// The union of those stories whose reports are allowed, if it has all that was seen.
pub fn union_of(stories: &[u32], seen: u32, allowed: u32) -> Option<u32> {
    let mut union = 0;
    for story in stories {
        if *story & REPORTS & !allowed == 0 {
            union |= *story;
        }
    }
    if union != 0 && union & seen == seen {
        Some(union)
    } else {
        None
    }
}
