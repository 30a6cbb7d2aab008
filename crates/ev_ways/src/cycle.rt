//! The first cycle, by a search from each node that is not cleared, and the distances from starts.
ghost use Rattle.std.specs.Prelude.{◌≡◌, ◌<◌, ◌^◌, ℕ, length, Ok, None, IfOk, IfSome, OnOk};
ghost use Rattle.std.specs.Prelude.{Option, replicate, false};
ghost use Rattle.ev_ways.specs.Lists.{AllBelow, RowsBelow};
ghost use Rattle.ev_ways.specs.Ways.{Reaches};
ghost use Rattle.ev_ways.specs.Search.{AreDistances};
ghost use Rattle.ev_ways.specs.Best.{AreTowards};
ghost use Rattle.ev_ways.specs.Clearing.{AreClear};
ghost use Rattle.ev_ways.specs.Cycle.{IsCycleFrom, IsFirstCycle};

use crate::choice::best_step;
use crate::clearing::{clear, is_marked};
use crate::index::index;
use crate::links::Links;
use crate::search::distances_along;
use crate::walk::walk;
use fm_bytes::{Items, NoMemory};
use std::alloc::Global;

/// For each of `count` nodes, the length of a shortest way from one of the starts; none where no
/// way comes there. The arrow j has the nodes `causes[j]` and `effects[j]`.
pub(crate) fn distances(
    alloc: Global,
    count: u32,
    starts: &[u32],
    causes: &[Items<u32>],
    effects: &[Items<u32>],
) -> Result<Vec<Option<u32>>, NoMemory>
    requires starts { AllBelow count starts.now }
    requires causes { RowsBelow count causes.now }
    requires effects { RowsBelow count effects.now }
    requires few { length causes.now < 2 ^ 32 }
    requires arrows { length causes.now ≡ length effects.now }
    ensures nodes { IfOk result (λ distance. length distance.items ≡ count) }
    ensures found { let Found = AreDistances causes.now effects.now starts.now in
        IfOk result (λ distance. Found distance.items) }
{
    let uses = index(alloc, count, causes)?;
    let gets = index(alloc, count, effects)?;
    let links = Links {
        causes,
        effects,
        uses: uses.as_slice(),
        gets: gets.as_slice(),
    };
    distances_along(alloc, starts, &links)
}

/// The first cycle among `count` nodes: a shortest one from the first node that reaches itself.
pub(crate) fn first_cycle(
    alloc: Global,
    count: u32,
    causes: &[Items<u32>],
    effects: &[Items<u32>],
) -> Result<Option<Vec<u32>>, NoMemory>
    requires causes { RowsBelow count causes.now }
    requires effects { RowsBelow count effects.now }
    requires few { length causes.now < 2 ^ 32 }
    requires arrows { length causes.now ≡ length effects.now }
    ensures none { result ≡ Ok None → (x : ℕ) → Reaches causes.now effects.now x x → ⊥ }
    ensures found { let Found = IsFirstCycle causes.now effects.now in
        IfOk result (λ cycle. IfSome cycle (λ members. Found members.items)) }
{
    let uses = index(alloc, count, causes)?;
    let gets = index(alloc, count, effects)?;
    let links = Links {
        causes,
        effects,
        uses: uses.as_slice(),
        gets: gets.as_slice(),
    };
    let cleared = cleared_nodes(alloc, &links)?;
    find_cycle(alloc, &links, cleared.as_slice())
}

/// Nodes that stand on no cycle: those all of whose ways end, forwards or backwards.
fn cleared_nodes(alloc: Global, links: &Links<'_>) -> Result<Vec<bool>, NoMemory>
    ensures { IfOk result
        (λ cleared. AreClear links.now.causes.now links.now.effects.now cleared.items) }
{
    let mut cleared = vec![in alloc; false; links.uses.len()]?;
    clear_both(alloc, links, cleared.as_mut_slice())?;
    Ok(cleared)
}

/// Clears nodes forwards, and then, with these, backwards.
fn clear_both(alloc: Global, links: &Links<'_>, cleared: &mut [bool]) -> Result<(), NoMemory>
    requires { cleared.old ≡ replicate (length cleared.old) false }
    ensures { OnOk result (AreClear links.now.causes.now links.now.effects.now cleared.new) }
{
    clear(alloc, links, cleared)?;
    clear(alloc, &links.turned(), cleared)
}

/// The first cycle, where the cleared nodes stand on none.
fn find_cycle(
    alloc: Global,
    links: &Links<'_>,
    cleared: &[bool],
) -> Result<Option<Vec<u32>>, NoMemory>
    requires { AreClear links.now.causes.now links.now.effects.now cleared.now }
    ensures none { result ≡ Ok None → (x : ℕ)
        → Reaches links.now.causes.now links.now.effects.now x x → ⊥ }
    ensures found { let Found = IsFirstCycle links.now.causes.now links.now.effects.now in
        IfOk result (λ cycle. IfSome cycle (λ members. Found members.items)) }
{
    for node in 0..links.count() {
        if let Some(members) = cycle_from(alloc, node, links, cleared)? {
            return Ok(Some(members));
        }
    }
    Ok(None)
}

/// A shortest cycle from the node, if there is one.
fn cycle_from(
    alloc: Global,
    node: u32,
    links: &Links<'_>,
    cleared: &[bool],
) -> Result<Option<Vec<u32>>, NoMemory>
    requires node { node < length links.now.uses.now }
    requires clear { AreClear links.now.causes.now links.now.effects.now cleared.now }
    ensures none { result ≡ Ok None → Reaches links.now.causes.now links.now.effects.now node node
        → ⊥ }
    ensures found { let Found = IsCycleFrom links.now.causes.now links.now.effects.now node in
        IfOk result (λ cycle. IfSome cycle (λ members. Found members.items)) }
{
    if is_marked(cleared, node) {
        return Ok(None);
    }
    let distance = towards(alloc, node, links)?;
    match best_step(node, links, distance.as_slice()) {
        Some(first) => {
            let members = walk(alloc, node, first, links, distance.as_slice())?;
            Ok(Some(members))
        }
        None => Ok(None),
    }
}

/// For each node, the length of a shortest way from there to the goal.
fn towards(alloc: Global, goal: u32, links: &Links<'_>) -> Result<Vec<Option<u32>>, NoMemory>
    requires { goal < length links.now.uses.now }
    ensures { let Found = AreTowards links.now.causes.now links.now.effects.now goal in
        IfOk result (λ distance. Found distance.items) }
{
    distances_along(alloc, &[goal], &links.turned())
}
