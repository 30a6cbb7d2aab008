//! Nodes at chassis.

ghost use Rattle.std.specs.Prelude.{◌≡◌, map, IfOk, IfSome};
ghost use Rattle.test_small_graph.specs.Small.{kinds_of};

use ev_graph::{Node, NodeKind};
use fm_bytes::NoMemory;
use fm_name::{EventName, read_class, read_fmri};
use std::alloc::Global;

/// The event of a class at the chassis of a number; none where the text is no class.
pub fn name_at(alloc: Global, class: &str, number: u32) -> Result<Option<EventName>, NoMemory>
    ensures { IfOk result (λ found. IfSome found (λ name. name.class ≡ class.now)) }
{
    let text = format!(in alloc; "hc:///chassis={number}")?;
    let Some(class) = read_class(alloc, class)? else {
        return Ok(None);
    };
    let Some(path) = read_fmri(alloc, text.as_str())? else {
        return Ok(None);
    };
    Ok(Some(EventName { class, path }))
}

fn class_of(kind: NodeKind) -> &'static str {
    match kind {
        NodeKind::Report { .. } => "ereport.part.seen",
        NodeKind::Inner => "error.part.off",
        NodeKind::Upset { .. } => "upset.part.hit",
        NodeKind::Defect { .. } => "defect.part.flaw",
        NodeKind::Fault { .. } => "fault.part.dead",
    }
}

/// The node of a number, of a kind.
pub fn node_at(alloc: Global, number: u32, kind: NodeKind) -> Result<Option<Node>, NoMemory>
    ensures { IfOk result (λ found. IfSome found (λ node. node.kind ≡ kind)) }
{
    match name_at(alloc, class_of(kind), number)? {
        Some(name) => Ok(Some(Node { name, kind })),
        None => Ok(None),
    }
}

/// A node of each of these kinds, by rising number.
pub fn nodes_of(alloc: Global, kinds: &[NodeKind]) -> Result<Option<Vec<Node>>, NoMemory>
    ensures { IfOk result (λ found. IfSome found (λ nodes. kinds_of nodes.items ≡ kinds.now)) }
{
    let mut nodes = Vec::new(alloc);
    let mut number = 0u32;
    for kind in kinds {
        let Some(node) = node_at(alloc, number, *kind)? else {
            return Ok(None);
        };
        nodes.push(node)?;
        number = number.saturating_add(1);
    }
    Ok(Some(nodes))
}
