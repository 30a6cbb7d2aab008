//! Which kept states of a diagnosis module are lawful, in all but that each open case waits for a
//! report.
//!
//! **Model.** dx_state says which states are lawful (`is_state`). A [`KeptState`] that was read
//! from bytes has a spelling, so its words are words of the module and its links are in order;
//! what is left to be tried of it is said by the tests of `specs/Trials`.
//!
//! **Promises.** [`is_state`] answers yes of just the lawful ones. It takes time in proportion to
//! the state, but that each broken link, and the number of each open case, costs one search, and
//! memory for the numbers of the cases.
//!
//! [`KeptState`]: dx_kept::KeptState
#![tactic(auto)]

mod cases;
mod engines;
mod numbers;
mod state;
mod words;

pub use ev_graph::{CutTest, NoMemory};
pub use state::is_state;
