//! The refusals of a graph.

ghost use Rattle.std.specs.Prelude.{◌≡◌};
ghost use Rattle.ev_graph.specs.declared.fault.GraphFault.TheVariants.{NoMemory};

/// Why there is no graph, in the order in which it is asked.
#[derive(Clone, Copy, Debug, PartialEq, Eq, Drop)]
pub enum GraphFault {
    /// More than 65,536 nodes.
    TooManyNodes,
    /// More than 1,048,576 causes and effects together.
    TooManyLinks,
    /// Nodes, engines, causes or effects that don't ascend strictly.
    Order,
    /// A number of a node or an engine that isn't there.
    Range,
    /// A root that is an effect, a report that is a cause, a trip that is no report, or an upset
    /// that reaches a trip.
    Kinds,
    /// A count that can't be met, an instance without causes or effects, or a value outside its
    /// limits.
    Counts,
    /// A node that reaches itself.
    Cyclic,
    /// Memory was wanted and not given.
    NoMemory,
}

impl From<fm_bytes::NoMemory> for GraphFault {
    ghost from_gives = { λ _ e. e ≡ NoMemory };

    fn from(_: fm_bytes::NoMemory) -> GraphFault {
        GraphFault::NoMemory
    }
}
