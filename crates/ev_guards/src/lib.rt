//! The links of a graph that payloads can break, and which of them a payload breaks.
//!
//! **Model.** A link of an instance to one of its effects is guarded where the patterns that give
//! the effect ask the payload. A [`Guards`] holds a topology, and for each node of a graph its path
//! and the guards of the links to it: an instance, and what is asked, a condition with the names
//! that are bound for it (`specs/Guards.antt`). A payload breaks a guarded link where none of these
//! conditions holds at the path of the node with the pairs of the payload. Where the conditions lie
//! in memory makes no difference to that (`specs/Watched.antt`). Of which file and topology the
//! guards are is for whoever makes them to say (ev_inst).
//!
//! **Promises.** [`Guards::is_guarded`] and [`Guards::broken_by`] answer just what the guards say,
//! and only guarded links break. A copy guards the same links, and each payload breaks the same of
//! them. Want of memory is the one other answer.
#![tactic(auto)]

mod copying;
mod few;
mod guards;

pub use fm_bytes::NoMemory;
pub use guards::{Guard, GuardedNode, Guards, Question};
