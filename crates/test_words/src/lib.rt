//! What the scripts of tests are written with: words, numbers, texts and bytes, and how programs
//! write them.
//!
//! A program of tests goes through a script line by line, by `run_script`: it says what its lines
//! do by an `impl` of `Script`. `ScriptFault` is why a line has no answer. `text_in` reads texts,
//! `Named` reads bytes, and keeps those that have names; the functions that begin with `show_`
//! append to what is written. `Draws` are numbers for tests of what is drawn.
#![tactic(auto)]

mod draws;
mod fault;
mod named;
mod names;
mod script;
mod shown;
mod words;

pub use draws::Draws;
pub use fault::ScriptFault;
pub use named::Named;
pub use names::{class_in, event_in, path_in};
pub use script::{Script, run_script};
pub use shown::{
    show_bytes, show_count, show_difference, show_found, show_item, show_lines, show_number,
    show_whether,
};
pub use words::{first_word, number_in, small_in, text_in, text_of};
