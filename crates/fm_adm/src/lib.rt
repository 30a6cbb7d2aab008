//! The texts that an operator is shown of a fault manager: what is faulty, how it is configured,
//! and what stands after a run.
//!
//! `write_faulty`, `write_config` and `write_summary` each write one text behind the bytes that a
//! buffer holds, whole or not at all. Contracts say which text (`specs/Faulty`, `specs/Config`,
//! `specs/Summary`), as a function of the rows of a `Status`, of the sizes of the modules' graphs,
//! and of the open cases. The lines of cases in a summary are the open and the solved ones mixed,
//! in case order: contracts say that no case is left out or told twice, and their order.
//!
//! Every line ends with a newline, and numbers are decimal.
#![tactic(auto)]

mod config;
mod faulty;
mod summary;

pub use config::{ModuleSizes, put_listing, write_config};
pub use faulty::write_faulty;
pub use fm_bytes::NoMemory;
pub use summary::{OpenReports, write_summary};
