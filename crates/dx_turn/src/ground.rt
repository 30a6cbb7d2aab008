//! What a turn stands on.

use dx_rules::Rulebook;
use dx_serd::Engine;
use ev_graph::Graph;
use fm_entry::ListEvent;
use std::alloc::Global;

/// What a turn stands on, and never changes.
#[derive(Drop)]
pub struct Ground<'a> {
    pub alloc: Global,
    pub rules: &'a Rulebook,
    /// The number of the configuration in force, and its graph.
    pub conf: u32,
    pub graph: &'a Graph,
    /// The module's time, from the turn's beginning on.
    pub time: u64,
    /// The engines, as they are before the turn.
    pub engines: &'a [Engine],
    /// The last words of solved cases, as they are before the turn.
    pub last_words: &'a [ListEvent],
}
