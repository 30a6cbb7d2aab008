//! Small graphs, made of the kinds of their nodes and of the numbers of causes and effects, for
//! tests and trials.
//!
//! The node of a number stands at the chassis of that number, so numbers are in the order of
//! events; its class says what its kind is ([`nodes_of`]). Instances are made of [`Wire`]s, and
//! [`small_graph`] makes the graph of some kinds and instances, without engines.
#![tactic(auto)]

mod nodes;
mod wires;

pub use nodes::{name_at, node_at, nodes_of};
pub use wires::{Wire, small_graph, wired_instances};
