//! What a rule file comes to.

use ev_graph::Graph;

/// The graph of a rule file over a topology, and how many candidates gave no instance.
#[derive(Drop)]
pub struct Made {
    pub graph: Graph,
    pub skipped: u64,
}
