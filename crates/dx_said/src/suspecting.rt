//! Suspects.

ghost use Rattle.std.specs.Prelude.{◌≡◌, ◌++◌, ◌<◌, ◌≤◌, ◌^◌, IfOk, OnOk, IsTrue, map, length};
ghost use Rattle.std.specs.Prelude.{nat_lt, nat_le};
ghost use Rattle.std.specs.List.{list_all};
ghost use Rattle.dx_step.specs.Said.{nodes_of, retires, suspect_at, suspects_with, suspects_of};
ghost use Rattle.dx_step.specs.Said.{upsets_named};
ghost use Rattle.dx_step.specs.Certainty.{certainties};
ghost use Rattle.dx_said.specs.Making.{node_at};

use crate::certainty::certainties;
use crate::naming::rates;
use ev_graph::{Graph, Node, NodeKind};
use fm_bytes::NoMemory;
use fm_entry::{Mark, Suspect};
use std::alloc::Global;

/// The upsets of these numbers as suspects, without certainties.
pub fn upsets(alloc: Global, graph: &Graph, numbers: &[u32]) -> Result<Vec<Suspect>, NoMemory>
    ensures { IfOk result (λ v. v.items ≡ upsets_named (nodes_of graph.now numbers.now)) }
{
    let nodes = graph.nodes();
    let mut suspects = Vec::with_capacity(alloc, numbers.len())?;
    for number in numbers {
        push_suspect(nodes, *number, 0, &mut suspects)?;
    }
    Ok(suspects)
}

/// Appends the node of this number as a suspect, if there is one.
fn push_suspect(
    nodes: &[Node],
    number: u32,
    certainty: u8,
    suspects: &mut Vec<Suspect>,
) -> Result<(), NoMemory>
    ensures { OnOk result (suspects.new.items
        ≡ suspects.old.items ++ map (λ n. suspect_at n certainty) (node_at nodes.now number)) }
{
    match nodes.get(number as usize) {
        Some(node) => {
            suspects.push(suspect_at(node, certainty)?)?;
            Ok(())
        }
        None => Ok(()),
    }
}

/// A node as a suspect that is present.
fn suspect_at(node: &Node, certainty: u8) -> Result<Suspect, NoMemory>
    ensures { IfOk result (λ s. s ≡ suspect_at node.now certainty) }
{
    Ok(Suspect {
        class: node.name.class.copy()?,
        path: node.name.path.copy()?,
        certainty,
        retire: retires(node.kind),
        mark: Mark::Present,
    })
}

/// Whether the resource of a fault or defect is to be retired.
fn retires(kind: NodeKind) -> bool
    ensures { result ≡ retires kind }
{
    match kind {
        NodeKind::Fault { retire, .. } | NodeKind::Defect { retire, .. } => retire,
        _ => false,
    }
}

/// The faults and defects of these numbers, which are those of nodes and fewer than 2^32, as
/// suspects, each as certain as its rate says.
pub fn suspects(alloc: Global, graph: &Graph, numbers: &[u32]) -> Result<Vec<Suspect>, NoMemory>
    requires below { IsTrue (list_all (λ e. nat_lt e (length graph.now.nodes)) numbers.now) }
    requires few { length numbers.now < 2 ^ 32 }
    ensures { IfOk result (λ v. v.items ≡ suspects_of (nodes_of graph.now numbers.now)) }
{
    let rates = rates(alloc, graph, numbers)?;
    let certainties = certainties(alloc, &rates)?;
    suspects_with(alloc, graph, numbers, &certainties)
}

/// Suspects with their certainties.
fn suspects_with(
    alloc: Global,
    graph: &Graph,
    numbers: &[u32],
    certainties: &[u64],
) -> Result<Vec<Suspect>, NoMemory>
    requires below { IsTrue (list_all (λ e. nat_lt e (length graph.now.nodes)) numbers.now) }
    requires many { length certainties.now ≡ length numbers.now }
    requires low { IsTrue (list_all (λ p. nat_le p 100) certainties.now) }
    ensures { IfOk result
        (λ v. v.items ≡ suspects_with (nodes_of graph.now numbers.now) certainties.now) }
{
    let nodes = graph.nodes();
    let mut suspects = Vec::with_capacity(alloc, numbers.len())?;
    for at in 0..numbers.len() {
        push_suspect(nodes, numbers[at], certainties[at] as u8, &mut suspects)?;
    }
    Ok(suspects)
}
