//! What the command `esc` puts: what rule files come to over a topology, listed or compiled, and
//! compiled files listed.
//!
//! **Model.** The text of a command is a function of what its rule files come to, one `Made` for
//! each (`specs/Compiling`): a line for each, or their compiled files one after another. The text
//! of the listing of compiled files is that of the files that the input holds up to its end or to
//! the first bad one (`specs/InputListing`).
//!
//! **Order.** The rule files and the topology are read first, all of them; then the graph of each
//! rule file is made in turn, up to the first that is past a limit. One graph is held at a time.
//!
//! **Promises.** [`compile_sources`] answers the whole text, or the first cause in that order.
//! [`list_input`] answers the lines of the good files and the place of the first bad one. Nothing
//! is put here: who puts the text has it whole.
#![tactic(auto)]

mod faults;
mod graphs;
mod input;
mod sources;

pub use faults::{CompileFault, GraphLimit, InputFault};
pub use fm_bytes::NoMemory;
pub use graphs::put_graphs;
pub use input::{InputListing, list_input};
pub use sources::compile_sources;
