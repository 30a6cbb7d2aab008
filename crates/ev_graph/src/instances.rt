//! Instances of propagations, and links.

use fm_bytes::Items;

/// One instance of a propagation: a cause that occurred must show `n` of the effects, and an effect
/// needs `k` of the causes. Causes and effects are numbers of nodes, ascending.
#[derive(Debug, Drop)]
pub struct Instance {
    pub causes: Items<u32>,
    pub effects: Items<u32>,
    pub n: u32,
    pub k: u32,
}

/// The link of an instance, by its place, and one of its effects. Links are in order of instance,
/// then effect.
#[derive(Clone, Copy, Debug, PartialEq, Eq, PartialOrd, Ord, Drop)]
pub struct Link {
    pub instance: u32,
    pub effect: u32,
}
