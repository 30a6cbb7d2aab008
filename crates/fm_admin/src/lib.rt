//! The operator's commands over an open store.
//!
//! **Model.** A store stands for a book, which hands of its modules follow. Each command drains it
//! and writes no checkpoint but that of a rotation. It tells something of the drained book, or of
//! the logs; or it accepts one entry more and drains the store again; or it moves the base.
//!
//! **Promises.** What is told is a function of the drained book, of the logs and of the words of
//! the command. Each refusal comes with its cause, and `Damaged` never comes while the store stands
//! for a book that the hands follow. Each crash, at a moment of the call or after it, leaves
//! contents that read like the book of before, or with the entry that was being accepted.
#![tactic(auto)]

mod dumping;
mod explaining;
mod marking;
mod named_rows;
mod repairing;
mod rotating;
mod telling;

pub use dumping::{dump_errors, dump_faults};
pub use explaining::explain;
pub use repairing::{Repaired, repair};
pub use rotating::rotate_drained;
pub use telling::tell_faulty;
