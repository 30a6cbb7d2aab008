//! The text of the command `explain`: what each suspect of a case accounts for.
//!
//! A row of a status names the suspects of a case. Each of them is a root of the graph under which
//! the case was decided, less the links that the case's reports broke. What it accounts for is its
//! greatest story whose reports are among those that were observed.
//!
//! **Model.** `IsExplained` (`specs/Explained`) is the text of a row in a graph, or of one of which
//! no graph is kept.
//!
//! **Promises.** [`put_explained`] appends that text, or nothing where memory is wanted. For each
//! suspect it takes the time of the graph's nodes and links.
#![tactic(auto)]

mod explained;
mod story;

pub use ev_graph::NoMemory;
pub use explained::put_explained;
