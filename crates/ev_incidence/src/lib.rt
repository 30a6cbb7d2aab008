//! Instances and nodes by each other: rows of numbers in one block, the ranks of nodes, and what a
//! few nodes reach.
//!
//! **Model.** Instances and nodes are numbers, their places. A set of nodes is a test of numbers
//! (`specs/Sets`), and what instances say of numbers, their causes, effects, N and K, is a wiring
//! (`specs/Wiring`). Contracts see [`Rows`] as a list of lists, an [`Incidence`] as the lists of
//! its instances and of its nodes (`specs/Table`), and [`Marked`] as its size and the numbers that
//! are noted.
//!
//! **Invariant.** An [`Incidence`] has for each node the instances that it is a cause of and those
//! that it is an effect of, as often as these name it; each accessor says so.
//!
//! **Promises.** An incidence is made once, in the time of nodes and links. `search` finds what a
//! few nodes reach along it, and nothing else. `ranks_of` finds for each node how long the longest
//! chains are that end in it, and finds none only where some node reaches itself.
#![tactic(auto)]

mod incidence;
mod ranks;
mod rows;
mod searches;

pub use fm_bytes::NoMemory;
pub use incidence::{Incidence, rows_of};
pub use ranks::ranks_of;
pub use rows::Rows;
pub use searches::{Marked, search};
