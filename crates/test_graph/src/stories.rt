// Which sets of nodes are stories.
use crate::words::{first_part, links_in, numbers_in};
use dx_story::{are_links, check_story, check_story_less};
use ev_graph::{Graph, Link, is_report_node};
use std::alloc::Global;
use test_words::{ScriptFault, small_in};

/// Whether the links are some of the graph's, and less these the set is a story.
pub fn is_story_less(graph: &Graph, less: &[Link], root: u32, seen: &[u32], story: &[u32]) -> bool {
    are_links(graph, less) && check_story_less(graph, less, root, seen, story)
}

/// The reports among these nodes.
fn reports_in(alloc: Global, graph: &Graph, story: &[u32]) -> Result<Vec<u32>, ScriptFault> {
    let mut reports = Vec::new(alloc);
    for node in story {
        if is_report_node(graph.nodes(), *node) {
            reports.push(*node)?;
        }
    }
    Ok(reports)
}

/// Whether it is a story of the root with the reports in it, also less these links, where it has
/// some.
pub fn is_own_story(
    alloc: Global,
    graph: &Graph,
    less: &[Link],
    root: u32,
    story: &[u32],
) -> Result<bool, ScriptFault> {
    let reports = reports_in(alloc, graph, story)?;
    if reports.is_empty() {
        return Ok(true);
    }
    Ok(
        check_story(graph, root, &reports, story)
            && is_story_less(graph, less, root, &reports, story),
    )
}

/// Whether there is this story, `ROOT, SEEN .., NODE ..`.
pub fn story(alloc: Global, graph: &Graph, words: &str) -> Result<String, ScriptFault> {
    let (root, rest) = first_part(words);
    let (seen, nodes) = first_part(rest);
    let seen = numbers_in(alloc, seen)?;
    let nodes = numbers_in(alloc, nodes)?;
    let answer = check_story(graph, small_in(root)?, &seen, &nodes);
    Ok(format!(in alloc; "{answer}")?)
}

/// The same in the graph less some links, `LINK .., ROOT, SEEN .., NODE ..`.
pub fn story_less(alloc: Global, graph: &Graph, words: &str) -> Result<String, ScriptFault> {
    let (links, rest) = first_part(words);
    let (root, rest) = first_part(rest);
    let (seen, nodes) = first_part(rest);
    let less = links_in(alloc, links)?;
    let seen = numbers_in(alloc, seen)?;
    let nodes = numbers_in(alloc, nodes)?;
    if !are_links(graph, &less) {
        return Ok(String::from_str(alloc, "no links")?);
    }
    let answer = check_story_less(graph, &less, small_in(root)?, &seen, &nodes);
    Ok(format!(in alloc; "{answer}")?)
}
