//! The greatest story of one candidate root, which only shrinks.
//!
//! **Model.** Contracts see a [`Live`] as the part of the graph that its root reaches, the
//! shrinking set over that part with its counters, and what is cut (`specs/Live`). The part has
//! numbers of its own (`specs/Region`): a local number is a place among its nodes, and so is an
//! instance's among its instances. Of an instance of the part all effects are in it, and of the
//! causes those that the root reaches; so the part is no graph of its own, since K may exceed the
//! causes that are left. Where the root reaches more than half of the instances, the part is the
//! whole graph, and its incidence is not kept a second time (`table_over`).
//!
//! **Invariant.** Between calls all counters of the set are right, each member but the root is
//! given, each instance of which a member is a cause has enough effects left, and nothing waits to
//! be looked at (`IsLiveOf`). Each story of the root lies in what the root reaches, since numbers
//! rise from cause to effect and each member other than the root has a cause in the story. So the
//! greatest set of the part is that of the graph.
//!
//! **Promises.** [`Live::new`] gives the greatest story with all reports allowed.
//! [`Live::shrink`] takes a report away and [`Live::cut`] a link: where the set was the greatest
//! story with reports within some allowed ones, it is now the one without that report or that link,
//! whatever the order of calls. [`Live::alive`] is false exactly where there is none. All steps of
//! one `Live` together are at most its nodes, twice its links and one for each cut, by a cost that
//! each step is paid from; no call but `new` and `copy` takes memory.
#![tactic(auto)]

mod cuts;
mod live;
mod region;

pub use dx_sets::Steps;
pub use ev_graph::NoMemory;
pub use live::{Live, best_is_greatest};
