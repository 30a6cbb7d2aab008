//! The guards of a graph, gathered candidate by candidate as its instances are.

ghost use Rattle.std.specs.Prelude.{◌≡◌, ◌+◌, ◌<◌, ◌∷◌, [], ℕ, List, Some, length, map, slice_get};
ghost use Rattle.std.specs.Prelude.{true, IfOk, OnOk};
ghost use Rattle.fm_topo.specs.Groups.{IsGrouped};
ghost use Rattle.ev_incidence.specs.Sets.{is_member};
ghost use Rattle.ev_tree.specs.Pattern.{view_pattern};
ghost use Rattle.ev_check.specs.CheckedFile.{view_prop};
ghost use Rattle.ev_events.specs.Names.{iterators};
ghost use Rattle.ev_inst.specs.Asked.{AddsDerivations, AddsGuard, AddsGuards, AreAllGuards};
ghost use Rattle.ev_inst.specs.Asked.{AreBare, IsRightSide, made_of, side_events};
ghost use Rattle.ev_guards.specs.Watched.{view_guard};
ghost use Rattle.ev_inst.specs.Gathering.{AreOrderedNodes, ArePropsKnown, IsReady};
ghost use Rattle.ev_inst.specs.Guarding.{derivation};
ghost use Rattle.ev_inst.specs.GuardsOf.{AreGuardsOf, IsInstantiated};
ghost use Rattle.ev_inst.specs.Outcomes.{instance_of};

use crate::asked::{any_asks, events_of_each, questions_of};
use crate::index::{NodeIndex, first_nodes};
use crate::outcomes::{Outcome, outcome_of};
use ev_check::{Checked, PropSpec};
use ev_events::{Binding, Candidates, JoinFault, candidates_of};
use ev_graph::{Graph, Node};
use ev_guards::{Guard, GuardedNode, Guards};
use ev_join::Table;
use ev_tree::SidePattern;
use fm_bytes::{Items, NoMemory};
use fm_topo::{Groups, Topo};
use std::alloc::Global;

/// The guards of the instances so far, by nodes, and the number of these instances.
#[derive(Drop)]
pub(crate) struct AllGuards {
    pub(crate) nodes: Vec<GuardedNode>,
    pub(crate) count: u32,
}

/// The right side of a propagation under a binding, and the numbers of the nodes that each of its
/// patterns gives, for an instance of a number.
#[derive(Drop)]
pub(crate) struct RightSide<'a> {
    pub(crate) binding: &'a Binding<'a>,
    pub(crate) nodes: &'a [Node],
    pub(crate) patterns: &'a [SidePattern],
    pub(crate) given: &'a [Items<u32>],
    pub(crate) instance: u32,
}

/// Each node without guards.
fn bare_nodes(alloc: Global, nodes: &[Node]) -> Result<Vec<GuardedNode>, NoMemory>
    ensures { IfOk result (λ bare. AreBare nodes.now bare.items) }
{
    let mut bare = Vec::new(alloc);
    'nodes: for node in nodes {
        let path = node.name.path.copy()?;
        let guards = Vec::new(alloc);
        bare.push(GuardedNode { path, guards })?;
    }
    Ok(bare)
}

/// Adds a guard of a link to a node.
fn add_guard(guarded: &mut [GuardedNode], effect: u32, guard: Guard) -> Result<(), NoMemory>
    requires { effect < length guarded.old }
    ensures { OnOk result (AddsGuard effect (view_guard guard) guarded.old guarded.new) }
{
    let node = &mut guarded[effect as usize];
    node.guards.push(guard)?;
    Ok(())
}

/// Adds the guard of the link to one effect, where it is guarded.
fn add_effect(
    alloc: Global,
    side: &RightSide,
    effect: u32,
    guarded: &mut [GuardedNode],
) -> Result<(), NoMemory>
    requires side { IsRightSide side.now }
    requires event { is_member (side_events side.now) effect ≡ true }
    requires long { length guarded.old ≡ length side.now.nodes.now }
    ensures { OnOk result (AddsGuards side.now (effect ∷ []) guarded.old guarded.new) }
{
    if effect as usize >= side.nodes.len() {
        unreachable!()
    }
    let node = &side.nodes[effect as usize];
    match questions_of(alloc, side.binding, side.patterns, side.given, effect, node)? {
        Some(questions) => {
            let instance = side.instance;
            let guard = Guard {
                instance,
                questions,
            };
            add_guard(guarded, effect, guard)?;
            Ok(())
        }
        None => Ok(()),
    }
}

/// Adds the guards of the links to the effects, which are the nodes that the patterns give.
fn add_effects(
    alloc: Global,
    side: &RightSide,
    effects: &[u32],
    guarded: &mut [GuardedNode],
) -> Result<(), NoMemory>
    requires side { IsRightSide side.now }
    requires events { effects.now ≡ side_events side.now }
    requires long { length guarded.old ≡ length side.now.nodes.now }
    ensures { OnOk result (AddsGuards side.now effects.now guarded.old guarded.new) }
{
    'effects: for at in 0..effects.len() {
        add_effect(alloc, side, effects[at], guarded)?;
    }
    Ok(())
}

/// Counts an instance. More than 2^32 - 1 instances are want of memory.
fn count_instance(all: &mut AllGuards) -> Result<(), NoMemory>
    ensures nodes { OnOk result (all.new.nodes.items ≡ all.old.nodes.items) }
    ensures count { OnOk result (all.new.count ≡ all.old.count + 1) }
{
    match all.count.checked_add(1) {
        Some(count) => {
            all.count = count;
            Ok(())
        }
        None => Err(NoMemory),
    }
}

/// Adds the guards of the links of an instance, whose effects these are, and counts it.
fn add_instance(
    alloc: Global,
    binding: &Binding,
    index: &NodeIndex,
    prop: &PropSpec,
    tables: &[Table],
    effects: &[u32],
    all: &mut AllGuards,
) -> Result<(), NoMemory>
    requires ready { IsReady binding.now.topo.now index.now.nodes.now (view_prop prop.now)
        tables.now }
    requires names { binding.now.names.now ≡ iterators (view_prop prop.now) }
    requires full { length binding.now.instances.now ≡ length binding.now.names.now }
    requires effects { effects.now ≡ (instance_of binding.now.topo.now index.now.nodes.now
        (view_prop prop.now) binding.now.instances.now).effects }
    requires long { length all.old.nodes.items ≡ length index.now.nodes.now }
    ensures { OnOk result (AddsDerivations binding.now.topo.now index.now.nodes.now
        (derivation (view_prop prop.now) binding.now.instances.now ∷ []) all.old all.new) }
{
    let left = prop.left.as_slice();
    let right = prop.right.as_slice();
    if !any_asks(right) {
        count_instance(all)?;
        return Ok(());
    }
    let (_, others) = tables.split_at(left.len());
    let given = events_of_each(alloc, binding, index, right, others)?;
    let side = RightSide {
        binding,
        nodes: index.nodes,
        patterns: right,
        given: &given,
        instance: all.count,
    };
    add_effects(alloc, &side, effects, &mut all.nodes)?;
    count_instance(all)?;
    Ok(())
}

/// Adds the guards of a candidate's instance, where it is one.
fn add_candidate(
    alloc: Global,
    binding: &Binding,
    index: &NodeIndex,
    prop: &PropSpec,
    tables: &[Table],
    all: &mut AllGuards,
) -> Result<(), NoMemory>
    requires ready { IsReady binding.now.topo.now index.now.nodes.now (view_prop prop.now)
        tables.now }
    requires names { binding.now.names.now ≡ iterators (view_prop prop.now) }
    requires full { length binding.now.instances.now ≡ length binding.now.names.now }
    requires long { length all.old.nodes.items ≡ length index.now.nodes.now }
    ensures { OnOk result (AddsDerivations binding.now.topo.now index.now.nodes.now
        (made_of binding.now.topo.now index.now.nodes.now (view_prop prop.now)
        (binding.now.instances.now ∷ [])) all.old all.new) }
{
    match outcome_of(alloc, binding, index, prop, tables)? {
        Outcome::Made(made) => {
            let effects = made.effects.as_slice();
            add_instance(alloc, binding, index, prop, tables, effects, all)
        }
        Outcome::Dropped => Ok(()),
        Outcome::Skipped => Ok(()),
    }
}

/// Adds the guards of the instances of a propagation.
fn add_prop(
    alloc: Global,
    topo: &Topo,
    index: &NodeIndex,
    prop: &PropSpec,
    candidates: &Candidates,
    all: &mut AllGuards,
) -> Result<(), NoMemory>
    requires ready { IsReady topo.now index.now.nodes.now (view_prop prop.now)
        candidates.now.tables.items }
    requires names { candidates.now.names ≡ iterators (view_prop prop.now) }
    requires full { (i : ℕ) (b : List ℕ) → slice_get candidates.now.bindings i ≡ Some b
        → length b ≡ length (iterators (view_prop prop.now)) }
    requires long { length all.old.nodes.items ≡ length index.now.nodes.now }
    ensures { OnOk result (AddsDerivations topo.now index.now.nodes.now
        (made_of topo.now index.now.nodes.now (view_prop prop.now) candidates.now.bindings)
        all.old all.new) }
{
    let bindings = candidates.bindings.as_slice();
    'bindings: for at in 0..bindings.len() {
        let binding = Binding {
            topo,
            names: &candidates.names,
            instances: bindings[at].as_slice(),
        };
        add_candidate(alloc, &binding, index, prop, &candidates.tables, all)?;
    }
    Ok(())
}

/// The guards of the instances of all propagations. More than 2^64 - 1 candidate links are want of
/// memory.
fn guards_of_all(
    alloc: Global,
    topo: &Topo,
    groups: &Groups,
    nodes: &[Node],
    props: &[PropSpec],
) -> Result<AllGuards, NoMemory>
    requires groups { IsGrouped topo.now groups.now }
    requires nodes { AreOrderedNodes topo.now nodes.now }
    requires known { ArePropsKnown topo.now nodes.now (map view_prop props.now) }
    ensures { IfOk result (AreAllGuards topo.now nodes.now (map view_prop props.now)) }
{
    let nodes_bare = bare_nodes(alloc, nodes)?;
    let mut all = AllGuards {
        nodes: nodes_bare,
        count: 0,
    };
    let firsts = first_nodes(alloc, topo, nodes)?;
    let index = NodeIndex {
        nodes,
        firsts: &firsts,
    };
    'props: for at in 0..props.len() {
        let prop = &props[at];
        let candidates = match candidates_of(alloc, topo, groups, prop, u64::MAX) {
            Ok(candidates) => candidates,
            Err(_) => return Err(NoMemory),
        };
        add_prop(alloc, topo, &index, prop, &candidates, &mut all)?;
    }
    Ok(all)
}

/// The guards of the graph that [`instantiate`](crate::instantiate) gives of a checked rule file
/// over a topology.
pub fn make_guards(
    alloc: Global,
    checked: &Checked,
    topo: Topo,
    graph: &Graph,
) -> Result<Guards, NoMemory>
    requires { IsInstantiated checked.now topo graph.now }
    ensures { IfOk result (AreGuardsOf checked.now topo graph.now) }
{
    let groups = topo.groups(alloc)?;
    let all = guards_of_all(alloc, &topo, &groups, graph.nodes(), checked.props())?;
    Ok(Guards::new(topo, all.nodes))
}
