//! The candidates of a propagation over a set of parts, and the events that they give: the bindings
//! of its vertical iterators under which each pattern has a fitting path, at which paths each event
//! is declared, and at which a pattern gives its event under a binding.
//!
//! **Candidates.** The vertical iterators of a propagation are numbered by first appearance
//! (`specs/Names.antt`), and a binding is a list with an instance for each of them. A path fits a
//! pattern under a binding where it has the pattern's names and its instances are what is bound,
//! the constants, and equal at equal horizontal iterators (`specs/Fits.antt`). A binding is a
//! candidate where each pattern has a fitting path, and the fitting paths are its links
//! (`specs/Bindings.antt`).
//!
//! **Tables.** Of each pattern a table is made once: its columns are the numbers of its iterators,
//! and it has a row for each path with its names that agrees with itself, the instances at the
//! columns (`specs/Slots.antt`, `specs/Sheets.antt`). Whether a path fits under a binding is then
//! whether its row begins with what the binding gives, so that `ev_join` finds all candidates
//! without looking at a name again. It also says in which order the search best takes the
//! iterators. Where that is another than that of first appearance, tables are made over the names
//! in that order, and what is found over them is turned back and put in order
//! (`specs/Turned.antt`).
//!
//! **Declared events.** The nodes of a graph are every declared event at every path with its names,
//! and the engines every declared engine, both in event order (`specs/Nodes.antt`). They are
//! gathered in a map by name, whose order is event order, each with the number of what is declared
//! (`specs/Placed.antt`); then each upset is given the number of its engine and each engine that of
//! its trip, which are at the same path. That these are there, that kinds are those of the
//! categories, and that no upset reaches a trip, is what a checked file keeps (`specs/Whole.antt`).
//!
//! **Patterns.** At a path that fits, the condition of a pattern is asked with the names that are
//! bound there: the vertical iterators, and the horizontal ones of the pattern by the path
//! (`specs/Asking.antt`). The pattern gives its event where it has no condition, where the
//! condition holds, and where it asks the payload, which is not known before a report comes
//! (`specs/Giving.antt`).
//!
//! **Promises.** [`candidates_of`] answers all candidates of a propagation, each once, in order of
//! their numbers, what their links leave of a limit, and the tables, in which the fitting paths of
//! each binding are found; or it refuses, exactly where there are more links than the limit.
//! [`place_events`] answers all nodes and engines, each once, or that there are more than 65,536
//! events. [`places_of`] answers the numbers of just the paths at which a pattern gives its event,
//! ascending, of the rows that agree with the binding. [`asks_payload`] says whether a condition
//! asks the payload. Want of memory is the one other answer.
#![tactic(auto)]

mod asking;
mod candidates;
mod giving;
mod names;
mod nodes;
mod placed;
mod sheets;
mod slots;
mod turned;

pub use asking::{asks_payload, condition_names};
pub use candidates::{Candidates, candidates_of};
pub use ev_join::JoinFault;
pub use fm_bytes::NoMemory;
pub use giving::{Binding, places_of};
pub use names::{Iterators, iterators_of};
pub use nodes::{PlacedEvents, place_events};
