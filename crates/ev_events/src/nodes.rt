//! The nodes and engines of a graph.

ghost use Rattle.std.specs.Prelude.{◌≡◌, ◌≤◌, ◌<◌, List, ℕ, Some, length, map, slice_get, true};
ghost use Rattle.std.specs.Prelude.{IfOk, MatchOption};
ghost use Rattle.fm_topo.specs.Groups.{IsGrouped};
ghost use Rattle.ev_check.specs.Lawful.{file_events, spec_event};
ghost use Rattle.ev_incidence.specs.Sets.{ascends_by};
ghost use Rattle.ev_check.specs.declared.checked.DeclKind.TheVariants as kinds;
ghost use Rattle.ev_events.specs.Nodes.{AreEngines, AreEnginesAt, AreEnginesThere, AreNodes};
ghost use Rattle.ev_events.specs.Nodes.{AreNodesAt, AreNodesThere, EngineIsThere, HasEngine};
ghost use Rattle.ev_events.specs.Nodes.{IsEngineFor, IsKindAt, IsNodeAt, IsTripAt, NodeIsThere};
ghost use Rattle.ev_events.specs.Nodes.{ArePlacedEvents, TripIsThere, spec_engine};
ghost use Rattle.ev_events.specs.Placed.{AreMore, ArePlaced, IsAmongNames, IsPlaceOf};
ghost use Rattle.ev_events.specs.Placed.{is_before_name};

use crate::placed::{Places, name_at, placed_of};
use ev_check::{Checked, DeclKind, EventSpec, SerdSpec};
use ev_graph::{EngineSpec, Node, NodeKind};
use ev_tree::Declared;
use fm_bytes::NoMemory;
use fm_name::{Class, EventName, Fmri};
use fm_topo::{Groups, Topo};
use std::alloc::Global;

const MOST_NODES: usize = 65_536;

const MOST_ENGINES: usize = 4_294_967_295;

/// The nodes and engines of a checked file over a topology, both in event order.
#[derive(Drop)]
pub struct PlacedEvents {
    pub nodes: Vec<Node>,
    pub engines: Vec<EngineSpec>,
}

/// The place of a name among names in event order.
fn find_name(names: &[EventName], name: &EventName) -> Option<usize>
    requires { ascends_by is_before_name names.now ≡ true }
    ensures { IsPlaceOf names.now name.now result }
{
    match names.binary_search(name) {
        Ok(at) => Some(at),
        Err(_) => None,
    }
}

/// The place of the event of a class at a path, which is among the names.
fn place_of(names: &[EventName], class: &Class, path: &Fmri) -> Result<u32, NoMemory>
    requires order { ascends_by is_before_name names.now ≡ true }
    requires few { length names.now ≤ 4294967295 }
    requires there { IsAmongNames names.now (record { class = class.now; path = path.now }) }
    ensures { IfOk result (λ at. slice_get names.now at
        ≡ Some (record { class = class.now; path = path.now })) }
{
    let name = name_at(class, path)?;
    match find_name(names, &name) {
        Some(at) => Ok(at as u32),
        None => unreachable!(),
    }
}

/// The engine of an upset, by its number, at a path.
fn engine_at(
    engines: &[SerdSpec],
    names: &[EventName],
    engine: u32,
    path: &Fmri,
) -> Result<NodeKind, NoMemory>
    requires order { ascends_by is_before_name names.now ≡ true }
    requires few { length names.now ≤ 4294967295 }
    requires there { HasEngine engines.now names.now path.now (kinds.Upset (Some engine)) }
    ensures { IfOk result
        (λ kind. IsKindAt engines.now names.now path.now (kinds.Upset (Some engine)) kind) }
{
    match engines.get(engine as usize) {
        Some(spec) => {
            let number = place_of(names, &spec.engine.class, path)?;
            Ok(NodeKind::Upset {
                engine: Some(number),
            })
        }
        None => unreachable!(),
    }
}

/// The kind of a node of a declared event at a path.
fn kind_at(
    engines: &[SerdSpec],
    names: &[EventName],
    kind: DeclKind,
    path: &Fmri,
) -> Result<NodeKind, NoMemory>
    requires order { ascends_by is_before_name names.now ≡ true }
    requires few { length names.now ≤ 4294967295 }
    requires there { HasEngine engines.now names.now path.now kind }
    ensures { IfOk result (IsKindAt engines.now names.now path.now kind) }
{
    match kind {
        DeclKind::Fault { fit, retire } => Ok(NodeKind::Fault { fit, retire }),
        DeclKind::Defect { fit, retire } => Ok(NodeKind::Defect { fit, retire }),
        DeclKind::Upset { engine: None } => Ok(NodeKind::Upset { engine: None }),
        DeclKind::Upset {
            engine: Some(engine),
        } => engine_at(engines, names, engine, path),
        DeclKind::Inner => Ok(NodeKind::Inner),
        DeclKind::Report { within } => Ok(NodeKind::Report { within }),
    }
}

/// The node of the event declared by a number, with a name.
fn node_of(
    checked: &Checked,
    engines: &[EventName],
    number: u32,
    name: &EventName,
) -> Result<Node, NoMemory>
    requires order { ascends_by is_before_name engines.now ≡ true }
    requires few { length engines.now ≤ 4294967295 }
    requires there { NodeIsThere checked.now engines.now number name.now.path }
    ensures name { IfOk result (λ node. node.name ≡ name.now) }
    ensures node { IfOk result (IsNodeAt checked.now engines.now number) }
{
    match checked.events().get(number as usize) {
        Some(spec) => {
            let kind = kind_at(checked.engines(), engines, spec.kind, &name.path)?;
            let name = name.copy()?;
            Ok(Node { name, kind })
        }
        None => unreachable!(),
    }
}

/// The nodes of these names and numbers.
fn nodes_of(
    alloc: Global,
    checked: &Checked,
    engines: &[EventName],
    places: &Places,
) -> Result<Vec<Node>, NoMemory>
    requires order { ascends_by is_before_name engines.now ≡ true }
    requires few { length engines.now ≤ 4294967295 }
    requires there { AreNodesThere checked.now engines.now places.now.names.items
        places.now.numbers.items }
    ensures { IfOk result (λ nodes. AreNodesAt checked.now engines.now places.now.names.items
        places.now.numbers.items (length places.now.names.items) nodes.items) }
{
    let names = places.names.as_slice();
    let numbers = places.numbers.as_slice();
    let mut nodes = Vec::new(alloc);
    'names: for at in 0..names.len() {
        let node = node_of(checked, engines, numbers[at], &names[at])?;
        nodes.push(node)?;
    }
    Ok(nodes)
}

/// The number of the event at a path that a trip is.
fn trip_at(checked: &Checked, names: &[EventName], trip: u32, path: &Fmri) -> Result<u32, NoMemory>
    requires order { ascends_by is_before_name names.now ≡ true }
    requires few { length names.now ≤ 4294967295 }
    requires there { TripIsThere checked.now names.now trip path.now }
    ensures { IfOk result (IsTripAt checked.now names.now trip path.now) }
{
    match checked.events().get(trip as usize) {
        Some(spec) => place_of(names, &spec.event.class, path),
        None => unreachable!(),
    }
}

/// The engine declared by a number, with a name.
fn engine_of(
    checked: &Checked,
    names: &[EventName],
    number: u32,
    name: &EventName,
) -> Result<EngineSpec, NoMemory>
    requires order { ascends_by is_before_name names.now ≡ true }
    requires few { length names.now ≤ 4294967295 }
    requires there { EngineIsThere checked.now names.now number name.now.path }
    ensures name { IfOk result (λ engine. engine.name ≡ name.now) }
    ensures engine { IfOk result (IsEngineFor checked.now names.now number) }
{
    match checked.engines().get(number as usize) {
        Some(spec) => {
            let trip = trip_at(checked, names, spec.trip, &name.path)?;
            let name = name.copy()?;
            Ok(EngineSpec {
                name,
                n: spec.n,
                t: spec.t,
                trip,
            })
        }
        None => unreachable!(),
    }
}

/// The engines of these names and numbers.
fn engines_of(
    alloc: Global,
    checked: &Checked,
    names: &[EventName],
    places: &Places,
) -> Result<Vec<EngineSpec>, NoMemory>
    requires order { ascends_by is_before_name names.now ≡ true }
    requires few { length names.now ≤ 4294967295 }
    requires there { AreEnginesThere checked.now names.now places.now.names.items
        places.now.numbers.items }
    ensures { IfOk result (λ engines. AreEnginesAt checked.now names.now places.now.names.items
        places.now.numbers.items (length places.now.names.items) engines.items) }
{
    let own = places.names.as_slice();
    let numbers = places.numbers.as_slice();
    let mut engines = Vec::new(alloc);
    'names: for at in 0..own.len() {
        let engine = engine_of(checked, names, numbers[at], &own[at])?;
        engines.push(engine)?;
    }
    Ok(engines)
}

/// What the event statements of a file declare.
fn declared_events<'a>(alloc: Global, specs: &'a [EventSpec]) -> Result<Vec<&'a Declared>, NoMemory>
    ensures { IfOk result (λ found. map (λ d. d.now) found.items ≡ map spec_event specs.now) }
{
    let mut found = Vec::new(alloc);
    for spec in specs {
        found.push(&spec.event)?;
    }
    Ok(found)
}

/// What the engine statements of a file declare.
fn declared_engines<'a>(alloc: Global, specs: &'a [SerdSpec]) -> Result<Vec<&'a Declared>, NoMemory>
    ensures { IfOk result (λ found. map (λ d. d.now) found.items ≡ map spec_engine specs.now) }
{
    let mut found = Vec::new(alloc);
    for spec in specs {
        found.push(&spec.engine)?;
    }
    Ok(found)
}

/// The nodes and engines of a checked file over a topology, whose paths are grouped by their names:
/// every declared event and engine at every path with its names. None exactly where there are more
/// than 65,536 events. More than 2^32 - 1 engines are want of memory.
pub fn place_events(
    alloc: Global,
    checked: &Checked,
    topo: &Topo,
    groups: &Groups,
) -> Result<Option<PlacedEvents>, NoMemory>
    requires { IsGrouped topo.now groups.now }
    ensures { IfOk result (λ found. MatchOption found
        (AreMore topo.now (file_events checked.now) 65536)
        (λ placed. ArePlacedEvents checked.now topo.now placed.nodes.items placed.engines.items)) }
{
    let events = declared_events(alloc, checked.events())?;
    let Some(places) = placed_of(alloc, topo, groups, &events, MOST_NODES)? else {
        return Ok(None);
    };
    let serds = declared_engines(alloc, checked.engines())?;
    let Some(others) = placed_of(alloc, topo, groups, &serds, MOST_ENGINES)? else {
        return Err(NoMemory);
    };
    let nodes = nodes_of(alloc, checked, &others.names, &places)?;
    let engines = engines_of(alloc, checked, &places.names, &others)?;
    Ok(Some(PlacedEvents { nodes, engines }))
}
