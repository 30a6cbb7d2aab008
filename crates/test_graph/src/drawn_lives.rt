// Live sets of drawn graphs, against what is found afresh and a search over all sets of nodes.
use crate::drawn::{REPORTS, bit_of, drawn_graph, numbers_of, stories_of, union_of};
use crate::explained::found_less;
use crate::live_sets::{Change, live_sets};
use crate::stories::is_own_story;
use ev_graph::{Graph, Link};
use std::alloc::Global;
use test_words::{Draws, ScriptFault};

/// A root, and all its stories in the graph less some links, as the search finds them.
#[derive(Drop)]
struct RootStories<'a> {
    less: &'a [Link],
    root: u32,
    stories: Vec<u32>,
}

/// The stories of a root in the graph less these links.
fn root_stories<'a>(
    alloc: Global,
    graph: &Graph,
    less: &'a [Link],
    root: u32,
) -> Result<RootStories<'a>, ScriptFault> {
    let stories = stories_of(alloc, graph, less, root)?;
    Ok(RootStories {
        less,
        root,
        stories,
    })
}

/// Whether the bits are the greatest story with these reports allowed, as it is found afresh, and
/// as the search finds it.
fn is_greatest(
    alloc: Global,
    graph: &Graph,
    all: &RootStories,
    allowed: u32,
    bits: u32,
) -> Result<bool, ScriptFault> {
    let reports = numbers_of(alloc, allowed)?;
    let afresh = found_less(alloc, graph, all.less, all.root, &[], &reports)?.unwrap_or(0);
    // The search knows no story without a report.
    let searched = union_of(&all.stories, 0, allowed).unwrap_or(afresh & !REPORTS);
    let story = numbers_of(alloc, bits)?;
    let is_story = bits == 0 || is_own_story(alloc, graph, all.less, all.root, &story)?;
    Ok(bits == afresh && afresh == searched && is_story)
}

const ORDERS: [[u32; 3]; 6] = [
    [0, 1, 2],
    [0, 2, 1],
    [1, 0, 2],
    [1, 2, 0],
    [2, 0, 1],
    [2, 1, 0],
];

/// How many sets are other than the greatest stories while the reports go in an order.
fn count_shrunk_wrong(
    alloc: Global,
    graph: &Graph,
    all: &RootStories,
    order: [u32; 3],
) -> Result<u32, ScriptFault> {
    let [first, second, last] = order;
    let changes = [
        Change::Stay,
        Change::Lose(first),
        Change::Lose(second),
        Change::Lose(last),
    ];
    let left = [REPORTS, REPORTS & !bit_of(first), bit_of(last), 0];
    let sets = live_sets(alloc, graph, all.root, &changes)?;
    let mut wrong = 0u32;
    for (bits, allowed) in sets.iter().zip(left) {
        if !is_greatest(alloc, graph, all, allowed, *bits)? {
            wrong = wrong.saturating_add(1);
        }
    }
    Ok(wrong)
}

/// The same in each order.
fn count_all_shrunk_wrong(alloc: Global, graph: &Graph, root: u32) -> Result<u32, ScriptFault> {
    let all = root_stories(alloc, graph, &[], root)?;
    let mut wrong = 0u32;
    for order in ORDERS {
        wrong = wrong.saturating_add(count_shrunk_wrong(alloc, graph, &all, order)?);
    }
    Ok(wrong)
}

/// The first link of each instance.
fn first_links(alloc: Global, graph: &Graph) -> Result<Vec<Link>, ScriptFault> {
    let mut links = Vec::new(alloc);
    let mut instance = 0u32;
    for each in graph.instances() {
        if let Some(effect) = each.effects.as_slice().first() {
            let effect = *effect;
            links.push(Link { instance, effect })?;
        }
        instance = instance.saturating_add(1);
    }
    Ok(links)
}

/// A report goes, each of these links is cut, and one more report goes in a copy.
fn cutting(alloc: Global, links: &[Link]) -> Result<Vec<Change>, ScriptFault> {
    let mut changes = Vec::new(alloc);
    changes.push(Change::Lose(1))?;
    for link in links {
        changes.push(Change::Cut(*link))?;
    }
    changes.push(Change::LoseInCopy(0))?;
    changes.push(Change::Stay)?;
    Ok(changes)
}

/// How many sets are other than the greatest stories meanwhile.
fn count_cut_wrong(alloc: Global, graph: &Graph, root: u32) -> Result<u32, ScriptFault> {
    let links = first_links(alloc, graph)?;
    let changes = cutting(alloc, &links)?;
    let sets = live_sets(alloc, graph, root, &changes)?;
    let mut wrong = 0u32;
    for (place, bits) in sets.iter().enumerate() {
        let less = links.get(..place).unwrap_or(&links);
        let allowed = if place == links.len().saturating_add(1) {
            bit_of(2)
        } else {
            bit_of(0) | bit_of(2)
        };
        let all = root_stories(alloc, graph, less, root)?;
        if !is_greatest(alloc, graph, &all, allowed, *bits)? {
            wrong = wrong.saturating_add(1);
        }
    }
    Ok(wrong)
}

/// How many sets are other than the greatest stories while the reports go, in each order, or, with
/// cuts, while links are cut.
fn count_wrong(
    alloc: Global,
    graph: &Graph,
    root: u32,
    with_cuts: bool,
) -> Result<u32, ScriptFault> {
    if with_cuts {
        count_cut_wrong(alloc, graph, root)
    } else {
        count_all_shrunk_wrong(alloc, graph, root)
    }
}

/// Tries both roots of so many graphs that are drawn from a number.
pub fn drawn_lives(
    alloc: Global,
    seed: u32,
    count: u32,
    with_cuts: bool,
) -> Result<String, ScriptFault> {
    let mut draws = Draws::new(u64::from(seed));
    let mut wrong = 0u32;
    for _ in 0..count {
        let graph = drawn_graph(alloc, &mut draws)?;
        for root in [6, 7] {
            wrong = wrong.saturating_add(count_wrong(alloc, &graph, root, with_cuts)?);
        }
    }
    Ok(format!(in alloc; "{count} graphs, {wrong} wrong")?)
}
