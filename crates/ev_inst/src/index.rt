//! Nodes, with where those of each path begin.

use ev_graph::Node;
use fm_bytes::NoMemory;
use fm_name::Fmri;
use fm_topo::Topo;
use std::alloc::Global;

/// Nodes, and for each path of a topology the number at which its nodes are sought first. Nothing
/// but time rests on these numbers.
#[derive(Drop)]
pub(crate) struct NodeIndex<'a> {
    pub(crate) nodes: &'a [Node],
    pub(crate) firsts: &'a [u32],
}

/// The number at which the nodes of the path of a number are sought first.
pub(crate) fn first_at(index: &NodeIndex, at: u32) -> usize {
    match index.firsts.get(at as usize) {
        Some(first) => *first as usize,
        None => 0,
    }
}

/// The place of the first node, from one on, that is at another path.
fn behind(nodes: &[Node], from: usize, path: &Fmri) -> usize {
    for at in from..nodes.len() {
        if nodes[at].name.path != *path {
            return at;
        }
    }
    nodes.len()
}

/// For each path of a topology the number of its first node, where nodes are in event order.
pub(crate) fn first_nodes(
    alloc: Global,
    topo: &Topo,
    nodes: &[Node],
) -> Result<Vec<u32>, NoMemory> {
    let mut firsts = Vec::with_capacity(alloc, topo.len())?;
    let mut first = 0;
    for at in 0..topo.len() {
        firsts.push(u32::try_from(first).unwrap_or(0))?;
        first = behind(nodes, first, topo.path(at));
    }
    Ok(firsts)
}
