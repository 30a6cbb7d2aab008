//! Ways along arrows between numbered nodes: shortest distances, and the first cycle.
//!
//! An arrow has a list of causes and a list of effects and leads from each of the first to each of
//! the second, so a drawing with few arrows may have very many links; nothing here ever lists the
//! links. The model of `Arrows` is a `Drawing`, the two lists of lists, and "leads to", "a way of n
//! steps" and "reaches" are relations over it (`specs/Ways.antt`).
//!
//! Both calls first make `Links`: the arrows with an index in each direction, whose facts each
//! function below takes with it.
//!
//! `Arrows::distances` searches breadth first, level by level. Its invariant, `Searched`, says that
//! each distance is that of a way, that the front has just the nodes of the greatest distance, and
//! that nodes before the front lead only to nodes that are at most one step further. So at the end
//! each distance is the least.
//!
//! `Arrows::first_cycle` first clears nodes all of whose ways end, forwards or backwards, in an
//! order that finds all of them quickly; that a cleared node stands on no cycle needs only that
//! what it leads to was cleared before. From each node that is left, in order, it searches
//! backwards; the first that is led back to itself begins the answer, and each next member is the
//! first of the nodes at the least distance.
#![tactic(auto)]

mod arrows;
mod choice;
mod clearing;
mod cycle;
mod index;
mod links;
mod rows;
mod search;
mod step;
mod walk;

pub use arrows::Arrows;
pub use fm_bytes::NoMemory;
