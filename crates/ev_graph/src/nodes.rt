//! Nodes and engines.

ghost use Rattle.std.specs.Prelude.{◌≡◌, ◌<◌, ◌^◌, length, nat_lt, nat_le};
ghost use Rattle.ev_graph.specs.Kinds.{is_root_kind, is_report_kind, is_upset_kind, has_limits};
ghost use Rattle.ev_graph.specs.Kinds.{has_engine_below, is_root_node, is_report_node};
ghost use Rattle.ev_graph.specs.Kinds.{is_upset_node};

use fm_name::EventName;

/// What an event is in a graph, whatever its category says.
#[derive(Clone, Copy, Debug, PartialEq, Eq, Drop)]
pub enum NodeKind {
    /// A root: a fault, with its failures in a billion hours, 1 at least, and whether its resource
    /// is to be retired.
    Fault { fit: u32, retire: bool },
    /// A root: a defect, likewise.
    Defect { fit: u32, retire: bool },
    /// A root: an upset, with the number of the engine that it notes at.
    Upset { engine: Option<u32> },
    /// Neither root nor report.
    Inner,
    /// A report, with how long others are waited for after it, in nanoseconds, 2^50 at most.
    Report { within: u64 },
}

/// An event at its place in event order.
#[derive(Debug, Drop)]
pub struct Node {
    pub name: EventName,
    pub kind: NodeKind,
}

/// An engine: it fires at `n` moments, 1 to 1,024, within `t` nanoseconds, 1 to 2^60, and then the
/// node `trip` is reported.
#[derive(Debug, Drop)]
pub struct EngineSpec {
    pub name: EventName,
    pub n: u32,
    pub t: u64,
    pub trip: u32,
}

impl NodeKind {
    /// Whether events of this kind are roots.
    pub fn is_root(self) -> bool
        ensures { result ≡ is_root_kind self }
    {
        match self {
            NodeKind::Fault { .. } | NodeKind::Defect { .. } | NodeKind::Upset { .. } => true,
            NodeKind::Inner | NodeKind::Report { .. } => false,
        }
    }

    /// Whether events of this kind are reports.
    pub fn is_report(self) -> bool
        ensures { result ≡ is_report_kind self }
    {
        match self {
            NodeKind::Report { .. } => true,
            _ => false,
        }
    }

    fn is_upset(self) -> bool
        ensures { result ≡ is_upset_kind self }
    {
        match self {
            NodeKind::Upset { .. } => true,
            _ => false,
        }
    }

    pub(crate) fn is_inside_limits(self) -> bool
        ensures { result ≡ has_limits self }
    {
        match self {
            NodeKind::Fault { fit, .. } | NodeKind::Defect { fit, .. } => 0 < fit,
            NodeKind::Report { within } => within <= 1 << 50,
            _ => true,
        }
    }

    pub(crate) fn is_of_engines(self, engines: usize) -> bool
        ensures { result ≡ has_engine_below engines self }
    {
        match self {
            NodeKind::Upset {
                engine: Some(engine),
            } => (engine as usize) < engines,
            _ => true,
        }
    }
}

/// Whether the node is a root; no number past the end is.
pub fn is_root_node(nodes: &[Node], node: u32) -> bool
    ensures { result ≡ is_root_node nodes.now node }
{
    match nodes.get(node as usize) {
        Some(found) => found.kind.is_root(),
        None => false,
    }
}

/// Whether the node is a report; no number past the end is.
pub fn is_report_node(nodes: &[Node], node: u32) -> bool
    ensures { result ≡ is_report_node nodes.now node }
{
    match nodes.get(node as usize) {
        Some(found) => found.kind.is_report(),
        None => false,
    }
}

/// Whether the node is an upset; no number past the end is.
pub(crate) fn is_upset_node(nodes: &[Node], node: u32) -> bool
    ensures { result ≡ is_upset_node nodes.now node }
{
    match nodes.get(node as usize) {
        Some(found) => found.kind.is_upset(),
        None => false,
    }
}
