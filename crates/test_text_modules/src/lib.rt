//! Diagnosis modules of the texts of rule files and of a topology, which take the entries of lines:
//! for the programs that test and measure diagnosis.
//!
//! `twins` makes two modules of one rule file. A `Setup` says which rules and entries, and `run`
//! has a module take them: it answers what the module said, the bytes of its state, and what a
//! further module has that has loaded these. The functions that begin with `put_` append to a text.
#![tactic(auto)]

mod cases;
mod cores;
mod entries;
mod files;
mod heard;
mod runs;
mod setup;

pub use cases::{CaseRow, Cases, put_cases};
pub use cores::{loaded_from, saved};
pub use files::twins;
pub use heard::{Heard, kind_text, link_text, mark_text, put_word};
pub use runs::{Again, Ended, loaded, run};
pub use setup::Setup;
