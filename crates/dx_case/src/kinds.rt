//! Kinds of nodes that a case asks for.

ghost use Rattle.std.specs.Prelude.{◌≡◌};
ghost use Rattle.ev_graph.specs.Kinds.{is_upset_kind};
ghost use Rattle.dx_explain.specs.Cases.{is_solving_kind};
ghost use Rattle.dx_case.specs.Candidates.{is_of_kind};
ghost use Rattle.dx_case.specs.Kinds.{is_asked};

use ev_graph::{Node, NodeKind};

/// A kind of nodes.
#[derive(Clone, Copy)]
pub(crate) enum Asked {
    Roots,
    Reports,
    /// Faults and defects.
    Solving,
    Upsets,
}

impl Asked {
    fn has(self, kind: NodeKind) -> bool
        ensures { result ≡ is_asked self kind }
    {
        match self {
            Asked::Roots => kind.is_root(),
            Asked::Reports => kind.is_report(),
            Asked::Solving => solves(kind),
            Asked::Upsets => is_upset(kind),
        }
    }

    /// Whether the node is of the kind; no number past the end is.
    pub(crate) fn has_node(self, nodes: &[Node], node: u32) -> bool
        ensures { result ≡ is_of_kind (is_asked self) nodes.now node }
    {
        match nodes.get(node as usize) {
            Some(found) => self.has(found.kind),
            None => false,
        }
    }
}

fn solves(kind: NodeKind) -> bool
    ensures { result ≡ is_solving_kind kind }
{
    match kind {
        NodeKind::Fault { .. } | NodeKind::Defect { .. } => true,
        _ => false,
    }
}

fn is_upset(kind: NodeKind) -> bool
    ensures { result ≡ is_upset_kind kind }
{
    match kind {
        NodeKind::Upset { .. } => true,
        _ => false,
    }
}
