// Which roots are possible, and by what story.
use crate::drawn::{REPORTS, bit_of, bits_of, drawn_graph, numbers_of, stories_of, union_of};
use crate::stories::is_own_story;
use crate::words::{first_part, links_in, numbers_in, numbers_text};
use dx_explain::{Scratch, explain, explain_in};
use dx_story::are_links;
use ev_graph::{Graph, Link, ascends};
use std::alloc::Global;
use test_words::{Draws, ScriptFault, small_in};

/// What `explain` answers, where what is allowed ascends.
fn explained(
    alloc: Global,
    graph: &Graph,
    root: u32,
    seen: &[u32],
    allowed: &[u32],
) -> Result<Option<Vec<u32>>, ScriptFault> {
    if !ascends(allowed) {
        return Err(ScriptFault::Words);
    }
    Ok(explain(alloc, graph, root, seen, allowed)?)
}

/// A story, where it is one of the root, also less these links.
fn story_text(
    alloc: Global,
    graph: &Graph,
    less: &[Link],
    root: u32,
    found: Option<Vec<u32>>,
) -> Result<String, ScriptFault> {
    match found {
        Some(story) => {
            if is_own_story(alloc, graph, less, root, &story)? {
                numbers_text(alloc, &story)
            } else {
                Ok(String::from_str(alloc, "no story of it")?)
            }
        }
        None => Ok(String::from_str(alloc, "none")?),
    }
}

/// The greatest story, `ROOT, SEEN .., ALLOWED ..`.
pub fn explain_root(alloc: Global, graph: &Graph, words: &str) -> Result<String, ScriptFault> {
    let (root, rest) = first_part(words);
    let (seen, allowed) = first_part(rest);
    let root = small_in(root)?;
    let seen = numbers_in(alloc, seen)?;
    let allowed = numbers_in(alloc, allowed)?;
    let found = explained(alloc, graph, root, &seen, &allowed)?;
    story_text(alloc, graph, &[], root, found)
}

/// The greatest story less these links, by `explain_in`, as bits of nodes below 8; none where the
/// root is not possible.
pub fn found_less(
    alloc: Global,
    graph: &Graph,
    less: &[Link],
    root: u32,
    seen: &[u32],
    allowed: &[u32],
) -> Result<Option<u32>, ScriptFault> {
    if !are_links(graph, less) || !ascends(allowed) {
        return Err(ScriptFault::Words);
    }
    let mut room = Scratch::new(alloc, graph)?;
    if explain_in(graph, less, root, seen, allowed, &mut room) {
        Ok(Some(bits_in(&room)))
    } else {
        Ok(None)
    }
}

/// The nodes below 8 that are in the set that was found last, as bits.
fn bits_in(room: &Scratch) -> u32 {
    let mut bits = 0u32;
    for node in 0..8 {
        if room.has(node) {
            bits |= bit_of(node);
        }
    }
    bits
}

/// The same in the graph less some links, `LINK .., ROOT, SEEN .., ALLOWED ..`.
pub fn explain_less(alloc: Global, graph: &Graph, words: &str) -> Result<String, ScriptFault> {
    let (links, rest) = first_part(words);
    let (root, rest) = first_part(rest);
    let (seen, allowed) = first_part(rest);
    let less = links_in(alloc, links)?;
    let root = small_in(root)?;
    let seen = numbers_in(alloc, seen)?;
    let allowed = numbers_in(alloc, allowed)?;
    if !are_links(graph, &less) {
        return Ok(String::from_str(alloc, "no links")?);
    }
    let found = match found_less(alloc, graph, &less, root, &seen, &allowed)? {
        Some(bits) => Some(numbers_of(alloc, bits)?),
        None => None,
    };
    story_text(alloc, graph, &less, root, found)
}

/// Whether `explain` answers as the search over all sets of nodes.
fn agrees(
    alloc: Global,
    graph: &Graph,
    stories: &[u32],
    root: u32,
    seen: u32,
    allowed: u32,
) -> Result<bool, ScriptFault> {
    let want = union_of(stories, seen, allowed);
    let seen = numbers_of(alloc, seen)?;
    let allowed = numbers_of(alloc, allowed)?;
    match explained(alloc, graph, root, &seen, &allowed)? {
        Some(story) => {
            Ok(is_own_story(alloc, graph, &[], root, &story)? && want == Some(bits_of(&story)))
        }
        None => Ok(want.is_none()),
    }
}

/// How many answers for a root are other than those of the search, whatever is seen.
fn count_wrong(
    alloc: Global,
    graph: &Graph,
    root: u32,
    draws: &mut Draws,
) -> Result<u32, ScriptFault> {
    let stories = stories_of(alloc, graph, &[], root)?;
    let mut wrong = 0u32;
    for seen in 1..8 {
        let allowed = seen | draws.some_of(REPORTS);
        if !agrees(alloc, graph, &stories, root, seen, allowed)? {
            wrong = wrong.saturating_add(1);
        }
    }
    Ok(wrong)
}

/// Tries both roots of so many graphs that are drawn from a number.
pub fn drawn_stories(alloc: Global, seed: u32, count: u32) -> Result<String, ScriptFault> {
    let mut draws = Draws::new(u64::from(seed));
    let mut wrong = 0u32;
    for _ in 0..count {
        let graph = drawn_graph(alloc, &mut draws)?;
        for root in [6, 7] {
            wrong = wrong.saturating_add(count_wrong(alloc, &graph, root, &mut draws)?);
        }
    }
    Ok(format!(in alloc; "{count} graphs, {wrong} wrong")?)
}
