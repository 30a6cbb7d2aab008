//! Names of nodes, and their rates.

ghost use Rattle.std.specs.Prelude.{◌≡◌, ◌++◌, IfOk, OnOk, map};
ghost use Rattle.dx_step.specs.Said.{nodes_of, event_names, failures_of};
ghost use Rattle.dx_said.specs.Making.{node_at};

use ev_graph::{Graph, Node, NodeKind};
use fm_bytes::NoMemory;
use fm_name::EventName;
use std::alloc::Global;

/// The names of the nodes of these numbers, in their order.
pub fn names(alloc: Global, graph: &Graph, numbers: &[u32]) -> Result<Vec<EventName>, NoMemory>
    ensures { IfOk result (λ v. v.items ≡ event_names graph.now numbers.now) }
{
    let nodes = graph.nodes();
    let mut names = Vec::with_capacity(alloc, numbers.len())?;
    for number in numbers {
        push_name(nodes, *number, &mut names)?;
    }
    Ok(names)
}

/// Appends the name of the node of this number, if there is one.
fn push_name(nodes: &[Node], number: u32, names: &mut Vec<EventName>) -> Result<(), NoMemory>
    ensures { OnOk result (names.new.items
        ≡ names.old.items ++ map (λ n. n.name) (node_at nodes.now number)) }
{
    match nodes.get(number as usize) {
        Some(node) => {
            names.push(node.name.copy()?)?;
            Ok(())
        }
        None => Ok(()),
    }
}

/// The rates of the nodes of these numbers, in their order.
pub(crate) fn rates(alloc: Global, graph: &Graph, numbers: &[u32]) -> Result<Vec<u32>, NoMemory>
    ensures { IfOk result
        (λ v. v.items ≡ map (λ n. failures_of n.kind) (nodes_of graph.now numbers.now)) }
{
    let nodes = graph.nodes();
    let mut rates = Vec::with_capacity(alloc, numbers.len())?;
    for number in numbers {
        push_rate(nodes, *number, &mut rates)?;
    }
    Ok(rates)
}

/// Appends the rate of the node of this number, if there is one.
fn push_rate(nodes: &[Node], number: u32, rates: &mut Vec<u32>) -> Result<(), NoMemory>
    ensures { OnOk result (rates.new.items
        ≡ rates.old.items ++ map (λ n. failures_of n.kind) (node_at nodes.now number)) }
{
    match nodes.get(number as usize) {
        Some(node) => {
            rates.push(failures_of(node.kind))?;
            Ok(())
        }
        None => Ok(()),
    }
}

/// The failures of a fault or defect in a billion hours.
fn failures_of(kind: NodeKind) -> u32
    ensures { result ≡ failures_of kind }
{
    match kind {
        NodeKind::Fault { fit, .. } | NodeKind::Defect { fit, .. } => fit,
        _ => 0,
    }
}
