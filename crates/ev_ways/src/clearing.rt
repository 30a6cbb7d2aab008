//! Clearing of nodes that stand on no cycle, in an order that finds all of them quickly.
ghost use Rattle.std.specs.Prelude.{◌≡◌, ◌⊎◌, ◌<◌, ◌^◌, ℕ, length, OnOk, IsTrue};
ghost use Rattle.std.specs.Prelude.{slice_index, slice_index_or, false, replicate};
ghost use Rattle.ev_ways.specs.Lists.{IsIn, marked, row};
ghost use Rattle.ev_ways.specs.Clearing.{AreClear, LeadClear};

use crate::links::Links;
use crate::rows::row_of;
use fm_bytes::{Items, NoMemory};
use std::alloc::Global;

/// The order in which nodes are looked at. It decides how many are cleared, and not whether one may
/// be.
#[derive(Drop)]
struct Order {
    /// For each node, how many of its arrows are not yet looked at.
    arrows_left: Vec<u32>,
    /// For each arrow, how many of its effects are not yet looked at.
    effects_left: Vec<u32>,
    /// The nodes to look at, in order.
    nodes: Vec<u32>,
}

/// The mark at a place, `false` past the end.
pub(crate) fn is_marked(marks: &[bool], at: u32) -> bool
    ensures { result ≡ slice_index_or marks.now at false }
{
    marks.get(at as usize).copied().unwrap_or(false)
}

/// Marks a place, where it is one of the list's.
fn mark(marks: &mut [bool], at: u32)
    ensures { (x : ℕ) → marked marks.new x → marked marks.old x ⊎ (x ≡ at) }
{
    if (at as usize) < marks.len() {
        marks[at as usize] = true;
    }
}

/// Whether each of the members is marked.
fn are_marked(marks: &[bool], members: &[u32]) -> bool
    ensures { IsTrue result → (k : ℕ) → k < length members.now
        → marked marks.now (slice_index members.now k) }
{
    for member in members {
        if !is_marked(marks, *member) {
            return false;
        }
    }
    true
}

/// Takes one off a number, and says whether it came to 0 by that.
fn counts_down(left: &mut [u32], at: u32) -> bool {
    match left.get_mut(at as usize) {
        Some(number) if *number > 0 => {
            *number -= 1;
            *number == 0
        }
        _ => false,
    }
}

/// Clears the node if each of its arrows leads only to cleared nodes.
fn clear_node(node: u32, links: &Links<'_>, done: &[bool], cleared: &mut [bool])
    requires done { LeadClear links.now.causes.now links.now.effects.now done.now }
    requires clear { AreClear links.now.causes.now links.now.effects.now cleared.old }
    ensures clear { AreClear links.now.causes.now links.now.effects.now cleared.new }
{
    if are_marked(done, row_of(links.uses, node)) {
        mark(cleared, node);
    }
}

/// Marks the arrow as done if each of its effects is cleared.
fn clear_arrow(arrow: u32, links: &Links<'_>, cleared: &[bool], done: &mut [bool])
    requires clear { AreClear links.now.causes.now links.now.effects.now cleared.now }
    requires done { LeadClear links.now.causes.now links.now.effects.now done.old }
    ensures done { LeadClear links.now.causes.now links.now.effects.now done.new }
{
    if are_marked(cleared, row_of(links.effects, arrow)) {
        mark(done, arrow);
    }
}

/// Looks at one node: clears it if it can, and then counts down at the arrows that lead to it.
fn settle(
    node: u32,
    links: &Links<'_>,
    order: &mut Order,
    done: &mut [bool],
    cleared: &mut [bool],
) -> Result<(), NoMemory>
    requires done { LeadClear links.now.causes.now links.now.effects.now done.old }
    requires clear { AreClear links.now.causes.now links.now.effects.now cleared.old }
    ensures done { LeadClear links.now.causes.now links.now.effects.now done.new }
    ensures clear { AreClear links.now.causes.now links.now.effects.now cleared.new }
{
    clear_node(node, links, done, cleared);
    for arrow in row_of(links.gets, node) {
        if counts_down(order.effects_left.as_mut_slice(), *arrow) {
            clear_arrow(*arrow, links, cleared, done);
            wake(row_of(links.causes, *arrow), order)?;
        }
    }
    Ok(())
}

/// Counts down at each of the nodes, and puts those that came to 0 into the order.
fn wake(nodes: &[u32], order: &mut Order) -> Result<(), NoMemory> {
    for node in nodes {
        if counts_down(order.arrows_left.as_mut_slice(), *node) {
            order.nodes.push(*node)?;
        }
    }
    Ok(())
}

/// The nodes to begin with: those without arrows, and those that are cleared already.
fn first_nodes(alloc: Global, links: &Links<'_>, cleared: &[bool]) -> Result<Vec<u32>, NoMemory> {
    let mut nodes = Vec::new(alloc);
    for node in 0..links.count() {
        if row_of(links.uses, node).is_empty() || is_marked(cleared, node) {
            nodes.push(node)?;
        }
    }
    Ok(nodes)
}

/// How many members each of the lists has.
fn lengths(alloc: Global, rows: &[Items<u32>]) -> Result<Vec<u32>, NoMemory> {
    let mut lengths = Vec::new(alloc);
    for row in rows {
        lengths.push(u32::try_from(row.as_slice().len()).unwrap_or(u32::MAX))?;
    }
    Ok(lengths)
}

/// Clears nodes all of whose ways end. Which ones it finds is a matter of speed alone: what is not
/// cleared is searched.
pub(crate) fn clear(alloc: Global, links: &Links<'_>, cleared: &mut [bool]) -> Result<(), NoMemory>
    requires { AreClear links.now.causes.now links.now.effects.now cleared.old }
    ensures { OnOk result (AreClear links.now.causes.now links.now.effects.now cleared.new) }
{
    let mut order = Order {
        arrows_left: lengths(alloc, links.uses)?,
        effects_left: lengths(alloc, links.effects)?,
        nodes: first_nodes(alloc, links, cleared)?,
    };
    let mut done = vec![in alloc; false; links.effects.len()]?;
    settle_all(links, &mut order, done.as_mut_slice(), cleared)
}

/// Looks at the nodes in their order, until none is left in it.
fn settle_all(
    links: &Links<'_>,
    order: &mut Order,
    done: &mut [bool],
    cleared: &mut [bool],
) -> Result<(), NoMemory>
    requires undone { done.old ≡ replicate (length done.old) false }
    requires clear { AreClear links.now.causes.now links.now.effects.now cleared.old }
    ensures { OnOk result (AreClear links.now.causes.now links.now.effects.now cleared.new) }
{
    for turn in 0..links.uses.len() {
        let Some(node) = order.nodes.get(turn).copied() else {
            return Ok(());
        };
        settle(node, links, order, done, cleared)?;
    }
    Ok(())
}
