//! The logs as an operator reads them: which lines are asked for, and their texts.
//!
//! `read_options` reads the words behind `fmdump`. The words are those of one simple command of
//! `clap` with six options, and what that command takes is `clap`'s own definition
//! (`specs/Command`); what the values mean is `dump_options` (`specs/Options`). `write_errors`
//! writes the lines of entries, and `write_faults` those of words about cases, each as a function
//! of the whole list (`specs/Errors`, `specs/Faults`): a line for each that the options keep, and
//! with `full` what belongs to it below the line. After want of memory they leave the buffer as it
//! was.
#![tactic(auto)]

mod command;
mod errors;
mod faults;
mod kept;
mod options;

pub use errors::write_errors;
pub use faults::write_faults;
pub use fm_bytes::NoMemory;
pub use options::{DumpFault, DumpOptions, read_options};
