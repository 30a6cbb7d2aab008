//! Instances by number, and graphs of them.

ghost use Rattle.std.specs.Prelude.{◌≡◌, map, IfOk, IfSome};
ghost use Rattle.test_small_graph.specs.Small.{wired, IsSmallGraph};

use crate::nodes::nodes_of;
use ev_graph::{EngineSpec, Graph, GraphFault, Instance, NodeKind};
use fm_bytes::{Items, NoMemory};
use std::alloc::Global;

/// An instance by numbers: a cause that occurred must show `n` of the effects, and an effect needs
/// `k` of the causes.
#[derive(Drop)]
pub struct Wire<'a> {
    pub causes: &'a [u32],
    pub effects: &'a [u32],
    pub n: u32,
    pub k: u32,
}

impl Wire<'_> {
    /// The instance.
    pub fn instance(&self, alloc: Global) -> Result<Instance, NoMemory>
        ensures { IfOk result (λ instance. instance ≡ wired self.now) }
    {
        let causes = Vec::from_slice(alloc, self.causes)?;
        let effects = Vec::from_slice(alloc, self.effects)?;
        Ok(Instance {
            causes: Items::new(causes),
            effects: Items::new(effects),
            n: self.n,
            k: self.k,
        })
    }
}

/// The instances of these.
pub fn wired_instances(alloc: Global, wires: &[Wire<'_>]) -> Result<Vec<Instance>, NoMemory>
    ensures { IfOk result (λ instances. instances.items ≡ map wired wires.now) }
{
    let mut instances = Vec::new(alloc);
    for wire in wires {
        instances.push(wire.instance(alloc)?)?;
    }
    Ok(instances)
}

/// The graph of nodes of these kinds and of these instances, without engines; none where a node
/// gets no name. It is refused as `Graph::build` refuses it.
pub fn small_graph(
    alloc: Global,
    kinds: &[NodeKind],
    instances: Vec<Instance>,
) -> Result<Option<Graph>, GraphFault>
    ensures { IfOk result
        (λ found. IfSome found (λ graph. IsSmallGraph kinds.now instances.items graph)) }
{
    let Some(nodes) = nodes_of(alloc, kinds)? else {
        return Ok(None);
    };
    let engines: Vec<EngineSpec> = Vec::new(alloc);
    let graph = Graph::build(alloc, nodes, engines, instances)?;
    Ok(Some(graph))
}
