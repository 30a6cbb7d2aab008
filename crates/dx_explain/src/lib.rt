//! Exact explanation: the greatest story of a root whose reports are allowed; and the words of open
//! cases: what is allowed and pending in one, what explains it, and how one comes and grows.
//!
//! **Model.** A root is possible for what was seen where some story of it has all of that and no
//! report that is not allowed (`specs/Explaining`). Since the union of two stories of a root is
//! one, there is a greatest such story then.
//!
//! An open case is the record `OpenCase` of fm_core: its number, when it was opened, the numbers of
//! its entries, its reports, and the links that their payloads break. The words of specs/Cases are
//! total functions of a graph, a time and such a record, and they compute: "some story of the root
//! has .." is a search over all sets of nodes (specs/Search, specs/Stories), which no code ever
//! makes. So a step of a module can be a function over plain values that is stated and tried before
//! any code stands.
//!
//! **Promises.** [`explain_in`] is true exactly where the root is possible in the graph less some
//! links, and then the [`Scratch`] has the greatest story. It takes no memory and the time of nodes
//! and links: all nodes but other roots and other reports are in the set, and what breaks a rule
//! leaves it, each link looked at once from each of its ends. [`explain`] makes a `Scratch` for one
//! call. The words of cases mean what the relations of stories say ([`explains_is`],
//! [`pending_is`], [`waits_is`], [`blamed_is`]), in every graph.
#![tactic(auto)]

mod case_laws;
mod laws;
mod solver;

pub use case_laws::{blamed_is, explains_is, pending_is, waits_is};
pub use ev_graph::NoMemory;
pub use laws::{decided, possible_shrinks, same_greatest};
pub use solver::{Scratch, explain, explain_in};
