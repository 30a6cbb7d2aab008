//! Compiled rule files: what a rule file comes to over a topology, as bytes.
//!
//! **Model.** Contracts see what was made as its graph and a number of skipped candidates
//! (`Made`), and `file_bytes` (`specs/Files`) is its one spelling: eight first bytes, the nodes,
//! the engines, the instances, the number. Not every value has one: the graph is a graph, and each
//! node's category is that of its kind (`IsSpelledFile`).
//!
//! **Promises.** [`write_file`] appends the spelling. [`read_file`] gives what the front of the
//! bytes spells, and how many bytes that takes; `None` exactly where they begin with no spelling.
//! What is read is a graph, since it is made by `Graph::build`, which refuses everything else.
#![tactic(auto)]

mod engines;
mod files;
mod instances;
mod kinds;
mod made;
mod nodes;

pub use files::{read_file, write_file};
pub use fm_bytes::NoMemory;
pub use made::Made;
