//! What the right patterns of a propagation ask of payloads.

ghost use Rattle.std.specs.Prelude.{◌≡◌, ◌++◌, ◌∷◌, [], ◌<◌, ℕ, Some, true, false, length, map};
ghost use Rattle.std.specs.Prelude.{filter_map, slice_get, IfOk, MatchOption, OnOk};
ghost use Rattle.std.specs.List.{list_any};
ghost use Rattle.ev_tree.specs.Pattern.{view_option, view_pattern};
ghost use Rattle.ev_events.specs.Sheets.{IsTableOf};
ghost use Rattle.ev_incidence.specs.Sets.{is_member, ascends};
ghost use Rattle.ev_inst.specs.Asked.{AreEventsOf, AreEventsOfAll, AreGivenAt, asked_by, asked_if};
ghost use Rattle.ev_inst.specs.Asked.{asked_of};
ghost use Rattle.ev_guards.specs.Watched.{view_question};
ghost use Rattle.ev_inst.specs.Gathering.{AreOrderedNodes, ArePatternsKnown, IsSideReady};
ghost use Rattle.ev_inst.specs.Guarding as guarding;
ghost use Rattle.ev_inst.specs.Outcomes.{is_event_of};

use crate::index::NodeIndex;
use crate::numbers::{add_numbers, set_of};
use ev_events::{Binding, asks_payload, condition_names, places_of};
use ev_graph::{Node, contains};
use ev_guards::Question;
use ev_join::Table;
use ev_tree::SidePattern;
use fm_bytes::{Items, NoMemory};
use std::alloc::Global;

/// Whether the condition of a pattern asks the payload.
fn asks(pattern: &SidePattern) -> bool
    ensures { result ≡ guarding.asks_if (view_option pattern.now.cond) }
{
    match &pattern.cond {
        Some(cond) => asks_payload(cond),
        None => false,
    }
}

/// Whether one of the patterns asks the payload.
pub(crate) fn any_asks(patterns: &[SidePattern]) -> bool
    ensures { result
        ≡ list_any (λ q. guarding.asks_if q.cond) (map view_pattern patterns.now) }
{
    for pattern in patterns {
        if asks(pattern) {
            return true;
        }
    }
    false
}

/// What a pattern asks at a node, where it asks the payload.
fn ask(
    alloc: Global,
    binding: &Binding,
    pattern: &SidePattern,
    node: &Node,
) -> Result<Option<Question>, NoMemory>
    ensures { IfOk result (λ found. MatchOption found
        (guarding.asks_if (view_option pattern.now.cond) ≡ false)
        (λ q. (guarding.asks_if (view_option pattern.now.cond) ≡ true)
        × (asked_if binding.now.names.now binding.now.instances.now node.now
        (view_pattern pattern.now) (view_option pattern.now.cond) ≡ Some (view_question q)))) }
{
    let Some(cond) = &pattern.cond else {
        return Ok(None);
    };
    if !asks_payload(cond) {
        return Ok(None);
    }
    let names = condition_names(
        alloc,
        binding.names,
        binding.instances,
        pattern.parts.as_slice(),
        &node.name.path,
    )?;
    let cond = cond.copy(alloc)?;
    Ok(Some(Question { names, cond }))
}

/// The numbers of the nodes that a pattern gives under a binding, ascending. The table is that of
/// the pattern.
fn pattern_events(
    alloc: Global,
    binding: &Binding,
    index: &NodeIndex,
    pattern: &SidePattern,
    table: &Table,
) -> Result<Vec<u32>, NoMemory>
    requires { IsSideReady binding.now.topo.now index.now.nodes.now binding.now.names.now
        binding.now.instances.now (view_pattern pattern.now ∷ []) (table.now ∷ []) }
    ensures { IfOk result (λ found. AreEventsOf binding.now.topo.now index.now.nodes.now
        binding.now.names.now binding.now.instances.now (view_pattern pattern.now) found.items) }
{
    let places = places_of(alloc, binding, pattern, table)?;
    let mut numbers = Vec::new(alloc);
    add_numbers(binding.topo, index, &pattern.class, &places, &mut numbers)?;
    Ok(set_of(numbers))
}

/// The numbers of the nodes that each of the patterns gives under a binding. The tables are those
/// of the patterns.
pub(crate) fn events_of_each(
    alloc: Global,
    binding: &Binding,
    index: &NodeIndex,
    patterns: &[SidePattern],
    tables: &[Table],
) -> Result<Vec<Items<u32>>, NoMemory>
    requires { IsSideReady binding.now.topo.now index.now.nodes.now binding.now.names.now
        binding.now.instances.now (map view_pattern patterns.now) tables.now }
    ensures { IfOk result (λ given. AreEventsOfAll binding.now.topo.now index.now.nodes.now
        binding.now.names.now binding.now.instances.now (map view_pattern patterns.now)
        given.items) }
{
    let mut given = Vec::new(alloc);
    'patterns: for at in 0..patterns.len() {
        if at >= tables.len() {
            unreachable!()
        }
        let numbers = pattern_events(alloc, binding, index, &patterns[at], &tables[at])?;
        given.push(Items::new(numbers))?;
    }
    Ok(given)
}

/// Adds what a pattern asks at a node, where it gives the node. False where it gives the node and
/// does not ask the payload.
fn add_question(
    alloc: Global,
    binding: &Binding,
    pattern: &SidePattern,
    given: bool,
    node: &Node,
    found: &mut Vec<Question>,
) -> Result<bool, NoMemory>
    requires { given ≡ is_event_of binding.now.topo.now binding.now.names.now
        binding.now.instances.now node.now (view_pattern pattern.now) }
    ensures guard { IfOk result (λ kept. kept ≡ guarding.is_guard binding.now.topo.now
        binding.now.names.now binding.now.instances.now node.now (view_pattern pattern.now)) }
    ensures added { IfOk result (λ kept. kept ≡ true → map view_question found.new.items
        ≡ map view_question found.old.items ++ filter_map (asked_by binding.now.topo.now
        binding.now.names.now binding.now.instances.now node.now)
        (view_pattern pattern.now ∷ [])) }
{
    if !given {
        return Ok(true);
    }
    match ask(alloc, binding, pattern, node)? {
        Some(question) => {
            found.push(question)?;
            Ok(true)
        }
        None => Ok(false),
    }
}

/// What the patterns that give a node ask of payloads; None where one of them does not ask. The
/// numbers are those of the nodes that each of the patterns gives.
pub(crate) fn questions_of(
    alloc: Global,
    binding: &Binding,
    patterns: &[SidePattern],
    given: &[Items<u32>],
    effect: u32,
    node: &Node,
) -> Result<Option<Vec<Question>>, NoMemory>
    requires { AreGivenAt binding.now.topo.now binding.now.names.now binding.now.instances.now
        effect node.now (map view_pattern patterns.now) given.now }
    ensures { IfOk result (λ found. MatchOption found
        (guarding.are_guards binding.now.topo.now binding.now.names.now
        binding.now.instances.now (map view_pattern patterns.now) node.now ≡ false)
        (λ questions. (guarding.are_guards binding.now.topo.now binding.now.names.now
        binding.now.instances.now (map view_pattern patterns.now) node.now ≡ true)
        × (map view_question questions.items ≡ asked_of binding.now.topo.now
        binding.now.names.now binding.now.instances.now node.now
        (map view_pattern patterns.now)))) }
{
    let mut found = Vec::new(alloc);
    let mut rest = patterns;
    let mut left = given;
    'patterns: while let [pattern, more @ ..] = rest {
        let [numbers, others @ ..] = left else {
            unreachable!()
        };
        let is_given = contains(numbers.as_slice(), effect);
        if !add_question(alloc, binding, pattern, is_given, node, &mut found)? {
            return Ok(None);
        }
        rest = more;
        left = others;
    }
    Ok(Some(found))
}
