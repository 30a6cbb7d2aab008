//! Sets of nodes that shrink to the greatest one in which each member is produced and shows enough.
//!
//! **Model.** A set is fit for a root where each member other than the root is an effect of some
//! instance with `k` of its causes in the set, and each member shows `n` of the effects of each
//! instance that it is a cause of (`specs/Fit`). [`Sets`] has the set by marks, what left it and is
//! not yet looked at, and counters: how many causes and effects of each instance are in the set or
//! not yet looked at, and how many instances give each node (`specs/Sets`, `specs/Engine`).
//!
//! **Invariant.** Between calls all counters are right, each member but the root is given by some
//! instance, and each instance of which a member is a cause has enough effects left (`IsSteady`).
//! Nothing that is in a fit set within the set has left it. So when nothing is left to look at, the
//! set is fit, and it is the greatest fit set of those that it began with: whatever the order in
//! which nodes leave, the end is the same.
//!
//! **Promises.** [`fill`] puts all nodes in and counts; [`begin`] brings a set whose counters are
//! right to the greatest fit set in it; [`settle`] does so after members of a steady set have left,
//! and after [`lose_link`] took a link from it.
//! A step is one look at a node or a link. What is still to come at most is counted by `cost`, and
//! each step is paid from it.
#![tactic(auto)]

mod engine;
mod links;
mod sets;
mod start;
mod steps;

pub use engine::settle;
pub use ev_graph::NoMemory;
pub use links::lose_link;
pub use sets::Sets;
pub use start::{begin, fill};
pub use steps::Steps;
