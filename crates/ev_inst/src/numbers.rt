//! The numbers of the nodes that patterns give.

ghost use Rattle.std.specs.Prelude.{◌≡◌, ◌+◌, ◌≤◌, ◌<◌, ◌||◌, ℕ, Some, length, map, slice_get};
ghost use Rattle.std.specs.Prelude.{true, false, not, ◌&&◌, ◌==◌, IfOk, IfSome, MatchOption, OnOk};
ghost use Rattle.ev_join.specs.Tables.{RisesFrom};
ghost use Rattle.ev_graph.specs.Lawful.{is_before_node};
ghost use Rattle.std.specs.List.{list_any};
ghost use Rattle.ev_incidence.specs.Sets.{ascends_by, is_member};
ghost use Rattle.ev_tree.specs.Pattern.{view_pattern};
ghost use Rattle.ev_events.specs.Nodes.{node_name};
ghost use Rattle.ev_events.specs.Placed.{IsAmongNames, IsPlaceOf};
ghost use Rattle.ev_inst.specs.Gathering.{AreEventNumbers, AreOnPaths, AreOrderedNodes};
ghost use Rattle.ev_inst.specs.Gathering.{IsSideReady, is_node_on, fitting_links};
ghost use Rattle.ev_inst.specs.Outcomes as outcomes;

use crate::index::{NodeIndex, first_at};
use ev_events::{Binding, places_of};
use ev_graph::Node;
use ev_join::Table;
use ev_tree::{At, SidePattern};
use fm_bytes::NoMemory;
use fm_name::{Class, Fmri};
use fm_topo::Topo;
use std::alloc::Global;

/// The place of the node of a class at a path, where there is one.
fn find_node(nodes: &[Node], class: &Class, path: &Fmri) -> Option<usize>
    requires { ascends_by is_before_node nodes.now ≡ true }
    ensures { IsPlaceOf (map node_name nodes.now)
        (record { class = class.now; path = path.now }) result }
{
    let found = nodes.binary_search_by(|node| {
        node.name.path.cmp(path).then(node.name.class.cmp(class))
    });
    match found {
        Ok(at) => Some(at),
        Err(_) => None,
    }
}

/// The place of the node of a class at a path, sought from a place on while the path is that one.
fn find_from(nodes: &[Node], from: usize, class: &Class, path: &Fmri) -> Option<usize>
    ensures bound { IfSome result (λ at. at < length nodes.now) }
    ensures event { IfSome result (λ at. slice_get (map node_name nodes.now) at
        ≡ Some (record { class = class.now; path = path.now })) }
{
    for at in from..nodes.len() {
        let name = &nodes[at].name;
        if name.path != *path {
            return None;
        }
        if name.class == *class {
            return Some(at);
        }
    }
    None
}

/// The number of the node of a class at a path, which is there. It is sought at a place first.
pub(crate) fn node_number(nodes: &[Node], first: usize, class: &Class, path: &Fmri) -> u32
    requires order { ascends_by is_before_node nodes.now ≡ true }
    requires few { length nodes.now ≤ 65536 }
    requires there { IsAmongNames (map node_name nodes.now)
        (record { class = class.now; path = path.now }) }
    ensures { slice_get (map node_name nodes.now) result
        ≡ Some (record { class = class.now; path = path.now }) }
{
    if let Some(at) = find_from(nodes, first, class, path) {
        return at as u32;
    }
    let Some(at) = find_node(nodes, class, path) else {
        unreachable!()
    };
    at as u32
}

/// Adds the numbers of the nodes of a class at the paths of these numbers.
pub(crate) fn add_numbers(
    topo: &Topo,
    index: &NodeIndex,
    class: &Class,
    ats: &[u32],
    found: &mut Vec<u32>,
) -> Result<(), NoMemory>
    requires order { AreOrderedNodes topo.now index.now.nodes.now }
    requires there { AreOnPaths topo.now index.now.nodes.now class.now ats.now }
    ensures members { OnOk result ((n : ℕ) → is_member found.new.items n
        ≡ (is_member found.old.items n
        || is_node_on topo.now index.now.nodes.now class.now ats.now n)) }
    ensures count { OnOk result (length found.new.items ≡ length found.old.items
        + length ats.now) }
{
    'ats: for at in ats {
        let first = first_at(index, *at);
        found.push(node_number(index.nodes, first, class, topo.path(*at as usize)))?;
    }
    Ok(())
}

/// Whether a pattern has a horizontal part.
fn has_across(pattern: &SidePattern) -> bool
    ensures { result ≡ outcomes.has_across (view_pattern pattern.now) }
{
    pattern.parts.as_slice().iter().any(|part| match &part.at {
        At::Across(_) => true,
        _ => false,
    })
}

/// Whether a pattern without horizontal parts gives nothing.
fn is_bare(pattern: &SidePattern, places: &[u32]) -> bool
    ensures { result ≡ (not (outcomes.has_across (view_pattern pattern.now))
        && (length places.now == 0)) }
{
    let across = has_across(pattern);
    !across && places.len() == 0
}

/// The numbers, each once, ascending.
pub(crate) fn set_of(numbers: Vec<u32>) -> Vec<u32>
    ensures rises { RisesFrom 0 result.items }
    ensures members { (n : ℕ) → is_member result.items n ≡ is_member numbers.items n }
    ensures few { length result.items ≤ length numbers.items }
{
    let mut set = numbers;
    set.sort_unstable();
    set.dedup();
    set
}

/// The numbers of the nodes that the patterns of a side give under a binding, in any order, a
/// number as often as it comes; None where a pattern without horizontal parts gives none. The
/// tables are those of the patterns.
fn gather(
    alloc: Global,
    binding: &Binding,
    index: &NodeIndex,
    patterns: &[SidePattern],
    tables: &[Table],
) -> Result<Option<Vec<u32>>, NoMemory>
    requires { IsSideReady binding.now.topo.now index.now.nodes.now binding.now.names.now
        binding.now.instances.now (map view_pattern patterns.now) tables.now }
    ensures { IfOk result (λ found. MatchOption found
        (list_any (outcomes.is_bare binding.now.topo.now binding.now.names.now
        binding.now.instances.now) (map view_pattern patterns.now) ≡ true)
        (λ numbers. (list_any (outcomes.is_bare binding.now.topo.now binding.now.names.now
        binding.now.instances.now) (map view_pattern patterns.now) ≡ false)
        × AreEventNumbers binding.now.topo.now index.now.nodes.now binding.now.names.now
        binding.now.instances.now (map view_pattern patterns.now) numbers.items)) }
{
    let mut found = Vec::new(alloc);
    'patterns: for at in 0..patterns.len() {
        let pattern = &patterns[at];
        if at >= tables.len() {
            unreachable!()
        }
        let places = places_of(alloc, binding, pattern, &tables[at])?;
        if is_bare(pattern, &places) {
            return Ok(None);
        }
        add_numbers(binding.topo, index, &pattern.class, &places, &mut found)?;
    }
    Ok(Some(found))
}

/// The numbers of the nodes that the patterns of a side give under a binding, ascending, as
/// [`gather`] gathers them.
pub(crate) fn side_events(
    alloc: Global,
    binding: &Binding,
    index: &NodeIndex,
    patterns: &[SidePattern],
    tables: &[Table],
) -> Result<Option<Vec<u32>>, NoMemory>
    requires { IsSideReady binding.now.topo.now index.now.nodes.now binding.now.names.now
        binding.now.instances.now (map view_pattern patterns.now) tables.now }
    ensures { IfOk result (λ found. MatchOption found
        (list_any (outcomes.is_bare binding.now.topo.now binding.now.names.now
        binding.now.instances.now) (map view_pattern patterns.now) ≡ true)
        (λ numbers. (list_any (outcomes.is_bare binding.now.topo.now binding.now.names.now
        binding.now.instances.now) (map view_pattern patterns.now) ≡ false)
        × ((numbers.items ≡ outcomes.events_of binding.now.topo.now index.now.nodes.now
        binding.now.names.now binding.now.instances.now (map view_pattern patterns.now))
        × (length numbers.items ≤ fitting_links binding.now.topo.now binding.now.names.now
        binding.now.instances.now (map view_pattern patterns.now))))) }
{
    match gather(alloc, binding, index, patterns, tables)? {
        Some(numbers) => Ok(Some(set_of(numbers))),
        None => Ok(None),
    }
}
