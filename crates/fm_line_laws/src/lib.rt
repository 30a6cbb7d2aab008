//! Laws over the lines of the input, and of the lines that are printed.
//!
//! `fm_line` says what a line is and what is printed for an entry, each by a definition over bytes.
//! Here stand the laws above these definitions, so that a change of the reader or the printer is
//! checked without them. A law of definitions alone is the contract of a function without a body; a
//! law of calls is the contract of a function that makes them.
//!
//! - What a line says is said by cases, each fault with its own condition (`faults_by_cases`).
//! - The line that is printed for the entry of a line reads as that entry, and is no longer than
//!   the line that was read (`print_back`).
//! - The names of a payload that was read ascend in byte order, at every depth (`names_ascend`).
//! - A stream has the same lines, however it is cut into pieces (`lines_of_pieces`).
#![tactic(auto)]

mod laws;
mod pieces;
mod printing;

pub use laws::{faults_by_cases, names_ascend};
pub use pieces::lines_of_pieces;
pub use printing::print_back;

#[cfg(test)]
mod tests;
