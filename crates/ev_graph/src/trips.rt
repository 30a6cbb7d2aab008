//! Whether an upset reaches a trip.

ghost use Rattle.std.specs.Prelude.{◌≡◌, ◌<◌, ◌^◌, IfOk, true, length};
ghost use Rattle.std.specs.Bool.{OnTrue, OnFalse};
ghost use Rattle.std.specs.List.{list_any, list_all};
ghost use Rattle.ev_incidence.specs.Sets.{is_member};
ghost use Rattle.ev_graph.specs.Kinds.{is_report_node};
ghost use Rattle.ev_incidence.specs.Table.{wiring_of};
ghost use Rattle.ev_graph.specs.Lawful.{TripsUpset, AreAllUpsets};

use crate::nodes::{EngineSpec, Node, is_upset_node};
use ev_incidence::{Incidence, Marked, search};
use fm_bytes::NoMemory;
use std::alloc::Global;

fn upsets_of(alloc: Global, nodes: &[Node]) -> Result<Vec<u32>, NoMemory>
    requires { length nodes.now < 2 ^ 32 }
    ensures { IfOk result (λ upsets. AreAllUpsets nodes.now upsets.items) }
{
    let mut upsets = Vec::new(alloc);
    let count = nodes.len() as u32;
    for node in 0..count {
        if is_upset_node(nodes, node) {
            upsets.push(node)?;
        }
    }
    Ok(upsets)
}

fn some_trip_is_in(engines: &[EngineSpec], marked: &Marked) -> bool
    ensures { result ≡ list_any (λ engine. is_member marked.now.items engine.trip) engines.now }
{
    engines.iter().any(|engine| marked.has(engine.trip))
}

/// Whether some upset reaches a trip, where each trip is a report. It takes the time of nodes and
/// links.
pub(crate) fn upset_trips(
    alloc: Global,
    nodes: &[Node],
    engines: &[EngineSpec],
    table: &Incidence,
) -> Result<bool, NoMemory>
    requires count { length table.now.uses ≡ length nodes.now }
    requires few { length nodes.now < 2 ^ 32 }
    requires reports { list_all (λ engine. is_report_node nodes.now engine.trip) engines.now
        ≡ true }
    ensures trips { IfOk result (λ trips. OnTrue trips
        (TripsUpset nodes.now engines.now (wiring_of table.now))) }
    ensures apart { IfOk result (λ trips. OnFalse trips
        (TripsUpset nodes.now engines.now (wiring_of table.now) → ⊥)) }
{
    let upsets = upsets_of(alloc, nodes)?;
    let mut reached = Marked::new(alloc, table.nodes())?;
    let mut places = Marked::new(alloc, table.count())?;
    let (index, rows) = table.forwards();
    search(index, rows, upsets.as_slice(), &mut reached, &mut places)?;
    Ok(some_trip_is_in(engines, &reached))
}
