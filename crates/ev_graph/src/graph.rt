//! The graph.

ghost use Rattle.std.specs.Prelude.{◌≡◌, ◌<◌, ◌≤◌, ◌^◌, true, length, map, IfOk, IfErr, OnOk};
ghost use Rattle.std.specs.List.{list_all};
ghost use Rattle.ev_incidence.specs.Wiring.{IsRank};
ghost use Rattle.ev_graph.specs.Wired.{wiring};
ghost use Rattle.ev_incidence.specs.Table.{wiring_of};
ghost use Rattle.ev_graph.specs.Lawful.{GraphValue, IsGraph, IsNumbered, IsRefused, IsBuilt};
ghost use Rattle.ev_graph.specs.Lawful.{IsIncidenceOf, IsNodeNamed, is_in_range, keep_kinds};

use crate::checks::{are_ascending, are_counted, are_few, are_in_range, keep_kinds};
use crate::copies::copies_of;
use crate::fault::GraphFault;
use crate::instances::Instance;
use crate::nodes::{EngineSpec, Node};
use crate::trips::upset_trips;
use ev_incidence::{Incidence, Rows, ranks_of};
use fm_bytes::NoMemory;
use fm_name::EventName;
use std::alloc::Global;
use std::marker::Model;

/// Numbered nodes, engines and instances, sorted, in range, inside their limits and without a
/// cycle.
#[derive(Drop)]
pub struct Graph {
    nodes: Vec<Node>,
    engines: Vec<EngineSpec>,
    instances: Vec<Instance>,
    /// One more than the rank of each node.
    ranks: Vec<u32>,
    table: Incidence,
}

impl Model for Graph {
    ghost use Rattle.ev_graph.specs.Lawful.{GraphValue, IsBuilt};

    ghost Value = { GraphValue };

    ghost view = { λ g. record {
      nodes = g.nodes.items;
      engines = g.engines.items;
      instances = g.instances.items;
    } };

    ghost invariant = { λ g. IsBuilt
        (record { nodes = g.nodes.items; engines = g.engines.items; instances = g.instances.items })
        g.ranks.items g.table };
}

const MOST_NODES: usize = 65_536;

/// Makes the tests that need no search, in their order.
fn check(nodes: &[Node], engines: &[EngineSpec], instances: &[Instance]) -> Result<(), GraphFault>
    ensures numbered { OnOk result (IsNumbered
        (record { nodes = nodes.now; engines = engines.now; instances = instances.now })) }
    ensures kinds { OnOk result (keep_kinds
        (record { nodes = nodes.now; engines = engines.now; instances = instances.now }) ≡ true) }
    ensures fault { IfErr result (λ fault. IsRefused fault
        (record { nodes = nodes.now; engines = engines.now; instances = instances.now })) }
{
    if nodes.len() > MOST_NODES {
        return Err(GraphFault::TooManyNodes);
    }
    if !are_few(instances) {
        return Err(GraphFault::TooManyLinks);
    }
    if !are_ascending(nodes, engines, instances) {
        return Err(GraphFault::Order);
    }
    if !are_in_range(nodes, engines, instances) {
        return Err(GraphFault::Range);
    }
    if !keep_kinds(nodes, engines, instances) {
        return Err(GraphFault::Kinds);
    }
    Ok(())
}

fn causes_of(alloc: Global, instances: &[Instance]) -> Result<Rows, NoMemory>
    ensures { IfOk result (λ rows. rows ≡ map (λ i. i.causes) instances.now) }
{
    let mut rows = Rows::new(alloc)?;
    for instance in instances {
        rows.push(instance.causes.as_slice())?;
    }
    Ok(rows)
}

fn effects_of(alloc: Global, instances: &[Instance]) -> Result<Rows, NoMemory>
    ensures { IfOk result (λ rows. rows ≡ map (λ i. i.effects) instances.now) }
{
    let mut rows = Rows::new(alloc)?;
    for instance in instances {
        rows.push(instance.effects.as_slice())?;
    }
    Ok(rows)
}

fn shown_of(alloc: Global, instances: &[Instance]) -> Result<Vec<u32>, NoMemory>
    ensures { IfOk result (λ numbers. numbers.items ≡ map (λ i. i.n) instances.now) }
{
    let numbers = instances.iter().map(|instance| instance.n).collect(alloc)?;
    Ok(numbers)
}

fn needed_of(alloc: Global, instances: &[Instance]) -> Result<Vec<u32>, NoMemory>
    ensures { IfOk result (λ numbers. numbers.items ≡ map (λ i. i.k) instances.now) }
{
    let numbers = instances.iter().map(|instance| instance.k).collect(alloc)?;
    Ok(numbers)
}

/// The incidence of these instances among so many nodes.
fn incidence_of(alloc: Global, count: u32, instances: &[Instance]) -> Result<Incidence, NoMemory>
    requires { list_all (is_in_range count) instances.now ≡ true }
    ensures { IfOk result (λ table. IsIncidenceOf count instances.now table) }
{
    let causes = causes_of(alloc, instances)?;
    let effects = effects_of(alloc, instances)?;
    let n = shown_of(alloc, instances)?;
    let k = needed_of(alloc, instances)?;
    let table = Incidence::new(alloc, count, causes, effects, n, k)?;
    Ok(table)
}

/// Makes all tests in their order, and with them what a graph keeps beside its value.
fn examine(
    alloc: Global,
    nodes: &[Node],
    engines: &[EngineSpec],
    instances: &[Instance],
) -> Result<(Incidence, Vec<u32>), GraphFault>
    ensures built { IfOk result (λ made. IsBuilt
        (record { nodes = nodes.now; engines = engines.now; instances = instances.now })
        made.1.items made.0) }
    ensures fault { IfErr result (λ fault. IsRefused fault
        (record { nodes = nodes.now; engines = engines.now; instances = instances.now })) }
{
    check(nodes, engines, instances)?;
    let table = incidence_of(alloc, nodes.len() as u32, instances)?;
    let trips = upset_trips(alloc, nodes, engines, &table)?;
    if trips {
        return Err(GraphFault::Kinds);
    }
    if !are_counted(nodes, engines, instances) {
        return Err(GraphFault::Counts);
    }
    match ranks_of(alloc, &table)? {
        Some(ranks) => Ok((table, ranks)),
        None => Err(GraphFault::Cyclic),
    }
}

impl Graph {
    /// The graph of these, in the time of its nodes and links. Each refusal comes exactly where
    /// what comes before it holds and what it is of doesn't.
    pub fn build(
        alloc: Global,
        nodes: Vec<Node>,
        engines: Vec<EngineSpec>,
        instances: Vec<Instance>,
    ) -> Result<Graph, GraphFault>
        ensures value { IfOk result (λ graph. graph ≡ record {
          nodes = nodes.items;
          engines = engines.items;
          instances = instances.items;
        }) }
        ensures graph { IfOk result (λ graph. IsGraph graph) }
        ensures fault { IfErr result (λ fault. IsRefused fault (record {
          nodes = nodes.items;
          engines = engines.items;
          instances = instances.items;
        })) }
    {
        let (table, ranks) = examine(
            alloc,
            nodes.as_slice(),
            engines.as_slice(),
            instances.as_slice(),
        )?;
        Ok(Graph {
            nodes,
            engines,
            instances,
            ranks,
            table,
        })
    }

    /// An equal graph.
    pub fn copy(&self, alloc: Global) -> Result<Graph, NoMemory>
        ensures same { IfOk result (λ graph. graph ≡ self.now) }
        ensures graph { IsGraph self.now }
    {
        let nodes = copies_of(alloc, self.nodes.as_slice())?;
        let engines = copies_of(alloc, self.engines.as_slice())?;
        let instances = copies_of(alloc, self.instances.as_slice())?;
        let ranks = Vec::from_slice(alloc, self.ranks.as_slice())?;
        let table = self.table.copy(alloc)?;
        Ok(Graph {
            nodes,
            engines,
            instances,
            ranks,
            table,
        })
    }

    /// The nodes, in event order.
    pub fn nodes(&self) -> &[Node]
        ensures nodes { result.now ≡ self.now.nodes }
        ensures graph { IsGraph self.now }
    {
        self.nodes.as_slice()
    }

    /// How many nodes there are, at most 65,536.
    pub fn node_count(&self) -> usize
        ensures count { result ≡ length self.now.nodes }
        ensures few { result ≤ 65536 }
        ensures graph { IsGraph self.now }
    {
        self.nodes.len()
    }

    /// The engines, in event order.
    pub fn engines(&self) -> &[EngineSpec]
        ensures engines { result.now ≡ self.now.engines }
        ensures graph { IsGraph self.now }
    {
        self.engines.as_slice()
    }

    /// The instances.
    pub fn instances(&self) -> &[Instance]
        ensures instances { result.now ≡ self.now.instances }
        ensures graph { IsGraph self.now }
    {
        self.instances.as_slice()
    }

    /// The instances and nodes by each other.
    pub fn incidence(&self) -> &Incidence
        ensures incidence { IsIncidenceOf (length self.now.nodes) self.now.instances result.now }
        ensures graph { IsGraph self.now }
    {
        &self.table
    }

    /// The number of the node of this name.
    pub fn find(&self, name: &EventName) -> Option<u32>
        ensures found { IsNodeNamed self.now.nodes name.now result }
        ensures graph { IsGraph self.now }
    {
        let found = self.nodes.binary_search_by(|node| node.name.cmp(name));
        match found {
            Ok(at) => Some(at as u32),
            Err(_) => None,
        }
    }

    /// The length of the longest chains that end in the node. It rises from each cause to each
    /// effect.
    pub fn rank(&self, node: u32) -> u32
        requires { node < length self.now.nodes }
        ensures rank { IsRank (wiring self.now.instances) node result }
        ensures graph { IsGraph self.now }
    {
        let rank = self.ranks[node as usize];
        rank - 1
    }
}
