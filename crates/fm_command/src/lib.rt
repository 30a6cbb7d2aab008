//! The commands of the fault manager, and which words are which command.
//!
//! **Model.** A word is the list of its bytes, and the words of a run a list of such lists.
//! `Command` is a plain enum: each variant is what is to be done, with what the words say of it.
//! What an operator says of repairs is a `RepairRequest`, which contracts see as a record of its
//! moment and of what is said (`RepairAsked`).
//!
//! **Promises.** `command_of` is a function of the words and the moment, of the same name in
//! `specs/Words`, which says word by word what is a command. Words are compared as they stand. Only
//! those of a few commands take memory to be read (`TakesMemory`), so only these, or words that are
//! none, may end for want of it.
#![tactic(auto)]

mod request;
mod words;

pub use request::{Repair, RepairOrder, RepairRequest};
pub use words::{AdminCommand, Command, command_of};
