//! The graph of a rule file over a topology.

ghost use Rattle.std.specs.Prelude.{◌≡◌, map, IfErr, IfOk};
ghost use Rattle.ev_check.specs.CheckedFile.{view_prop};
ghost use Rattle.ev_events.specs.Nodes.{ArePlacedEvents};
ghost use Rattle.ev_inst.specs.Gathering.{IsGathered};
ghost use Rattle.ev_graph.specs.Lawful.{IsGraph};
ghost use Rattle.ev_inst.specs.Instances.{IsBuildable, IsInstFault, IsMadeOf};

use crate::fault::InstFault;
use crate::gathered::{Gathered, gather_all};
use ev_check::Checked;
use ev_events::{JoinFault, PlacedEvents, place_events};
use ev_file::Made;
use ev_graph::{EngineSpec, Graph, GraphFault, Instance, Node};
use fm_bytes::NoMemory;
use fm_topo::Topo;
use std::alloc::Global;

/// The graph of what can be built: no refusal meets it but want of memory.
fn build(
    alloc: Global,
    nodes: Vec<Node>,
    engines: Vec<EngineSpec>,
    instances: Vec<Instance>,
) -> Result<Graph, NoMemory>
    requires { IsBuildable (record {
      nodes = nodes.items;
      engines = engines.items;
      instances = instances.items;
    }) }
    ensures value { IfOk result (λ graph. graph ≡ record {
      nodes = nodes.items;
      engines = engines.items;
      instances = instances.items;
    }) }
    ensures graph { IfOk result IsGraph }
{
    match Graph::build(alloc, nodes, engines, instances) {
        Ok(graph) => Ok(graph),
        Err(GraphFault::NoMemory) => Err(NoMemory),
        Err(_) => unreachable!(),
    }
}

/// What the nodes, the engines and the gathered instances of a file make.
fn made_of(
    alloc: Global,
    checked: &Checked,
    topo: &Topo,
    placed: PlacedEvents,
    gathered: Gathered,
) -> Result<Made, NoMemory>
    requires placed { ArePlacedEvents checked.now topo.now placed.nodes.items
        placed.engines.items }
    requires gathered { IsGathered topo.now placed.nodes.items (map view_prop checked.now.props)
        gathered }
    ensures { IfOk result (IsMadeOf checked.now topo.now) }
{
    // for the proof alone: that the file is sound
    let _props = checked.props();
    let graph = build(alloc, placed.nodes, placed.engines, gathered.instances)?;
    Ok(Made {
        graph,
        skipped: gathered.skipped,
    })
}

/// What a checked rule file comes to over a topology: its graph, and how many candidates are
/// skipped. `Nodes` exactly where there are more than 65,536 events, and else `Links` exactly where
/// the candidates of all propagations have more than 1,048,576 links.
pub fn instantiate(alloc: Global, checked: &Checked, topo: &Topo) -> Result<Made, InstFault>
    ensures made { IfOk result (IsMadeOf checked.now topo.now) }
    ensures fault { IfErr result (IsInstFault checked.now topo.now) }
{
    let groups = topo.groups(alloc)?;
    let Some(placed) = place_events(alloc, checked, topo, &groups)? else {
        return Err(InstFault::Nodes);
    };
    match gather_all(alloc, topo, &groups, &placed.nodes, checked.props()) {
        Ok(gathered) => {
            let made = made_of(alloc, checked, topo, placed, gathered)?;
            Ok(made)
        }
        Err(JoinFault::Links) => Err(InstFault::Links),
        Err(JoinFault::NoMemory) => Err(InstFault::NoMemory),
    }
}
