//! The graph of a rule file over a topology: events as numbered nodes, and the instances that lead
//! from causes to effects.
//!
//! **Model.** Contracts see a [`Graph`] as its nodes, its engines and its instances
//! (`specs/Lawful`). A node's number is its place, and so is an instance's. What the instances say
//! of these numbers is a wiring (`specs/Wired`), so the words for sets of nodes and for chains,
//! which `ev_incidence` defines, serve the graph, a graph without some links (`specs/Cutting`) and
//! parts of graphs alike.
//!
//! **Invariant.** A graph is sorted, in range, of fitting kinds and counts, inside the limits, and
//! has numbers that rise from each cause to each effect. [`Graph::build`] makes it of just the
//! values that are all of this and refuses each other one by the first condition that it breaks.
//! Each accessor says so of its graph, so who is lent a graph need ask nothing.
//!
//! **Promises.** The rank of a node is the length of the longest chains that end in it, so it rises
//! from cause to effect. A graph keeps the incidence of its instances, which is made once, in the
//! time of nodes and links.
#![tactic(auto)]

mod checks;
mod copies;
mod cuts;
mod fault;
mod graph;
mod instances;
mod nodes;
mod trips;

pub use checks::{are_below, ascends};
pub use cuts::{CutList, CutTest, contains};
pub use fault::GraphFault;
pub use fm_bytes::NoMemory;
pub use graph::Graph;
pub use instances::{Instance, Link};
pub use nodes::{EngineSpec, Node, NodeKind, is_report_node, is_root_node};
