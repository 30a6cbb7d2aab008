//! The rule files and the topology that a command reads from its sources.
//!
//! A rule file goes from bytes to a checked file in three steps, tokens, statements and checks;
//! `read_rules` takes them in one, and its fault is the first of them (specs/Rules.antt), with the
//! place and the word that an operator is told. A topology is fm_topo's. `read_text` reads a source
//! to its end, or until it gave more bytes than a limit, so that a source without an end costs no
//! more than its limit and one piece. `read_sources` does so for each rule file in turn, each read
//! and then checked, and then for the topology.
//!
//! The model of a source is the bytes that it has left, where it tells them, and its count of
//! failures. What was read, or what was refused first, is said by one definition over the sources
//! before and after (specs/Sources.antt): a file is refused only where those before it are rule
//! files, and then nothing behind it was read; a fault of reading is answered only where that
//! source's count rose.
#![tactic(auto)]

mod faults;
mod files;
mod rules;
mod sources;
mod text;

pub use faults::{RulesFault, RulesKind, SourceFault, TextFault};
pub use files::RuleFile;
pub use rules::read_rules;
pub use sources::{Sources, read_sources};
pub use text::read_text;
