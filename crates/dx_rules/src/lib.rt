//! What a diagnosis module is made with: its own number, and its configurations.
//!
//! **Model.** Contracts see a [`Rulebook`] by `rules_in` (`specs/Rulebooks`), which makes it the
//! `Rules` of dx_state: a single configuration of some number, which is of no list, or a list in
//! which configurations are numbered from 0. A [`Ruled`] is one configuration (`ruled_of`).
//!
//! A configuration has guards of the links that payloads can break, or none where they can break no
//! link; and it keeps the [`Classes`] of its graph's reports and a [`ReportIndex`] of them, which
//! its meaning leaves out. Contracts see the `Guards` of a graph as a `GuardsValue` (ev_guards) and
//! a payload as its `Pairs` (fm_nv): `guarding_of` makes of the guards what dx_state says of a
//! configuration, which links payloads can break and which of them a payload breaks
//! (`specs/Payloads`).
//!
//! **Promises.** A rulebook gives a configuration and its graph by its number, how many
//! configurations it knows of a list, whether a report there has a class, the report of a name
//! there, and the links that a report breaks there. A [`Ruled`] tells which of its links payloads
//! can break. A condition can ask the pairs of a payload that have a number from 0 or a text as
//! value, and just the links to a node that a payload breaks are given.
#![tactic(auto)]

mod breaking;
mod classes;
mod pairs;
mod report_index;
mod rulebook;
mod ruled;

pub use classes::Classes;
pub use ev_graph::NoMemory;
pub use ev_guards::Guards;
pub use report_index::ReportIndex;
pub use rulebook::{Configs, Rulebook};
pub use ruled::Ruled;
