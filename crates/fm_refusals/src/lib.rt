//! What an operator is told of a rule file or a topology that is refused.
//!
//! A refused rule file is told by one line with its number, the place of the fault and a word for
//! it; for events that lead to one another in a ring the members follow. A refused topology is told
//! by the number of the line and a word. The words are those of docs/RULES.md and of the topology's
//! format.
//!
//! The model of a line is its bytes, a function of what it tells (specs/Refusals.antt).
#![tactic(auto)]

mod checks;
mod lines;

pub use fm_bytes::NoMemory;
pub use lines::{rules_line, topology_line};
