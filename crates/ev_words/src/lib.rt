//! What is wrong with a statement of a rule file in itself, whatever the other statements are.
//!
//! A table has a word for each thing that can be wrong, in order: a class, an attribute or a
//! property of the payload that may not stand where it does, an attribute twice, one that is
//! lacking, a number or a time out of range, a name that is no iterator. `word_of` answers the
//! first word that holds of a statement. The words that take more than one statement to find, as
//! of a cycle, stand in the same type `CheckKind`, and who checks a whole file finds them.
//!
//! The model of a statement is the statement itself. `Categories` says which category of class may
//! stand where, `Attributes` what each attribute says and when it is out of place or range,
//! `Operands` what a condition asks, `Iterators` which names of a propagation go along it and which
//! are free, and `Words` puts them together. Each is a test that computes, and each function's
//! result is its test; a loop keeps that the test was false of each element before. The vertical
//! iterators of a statement and the horizontal ones of a pattern stand in sets of texts, whose
//! test of membership is the definition, so that a statement takes the time of its names.
#![tactic(auto)]

mod attributes;
mod categories;
mod iterators;
mod kinds;
mod operands;
mod words;

pub use attributes::{both, either, nanoseconds};
pub use categories::is_upset;
pub use fm_bytes::NoMemory;
pub use iterators::is_same;
pub use kinds::{CheckKind, Members};
pub use words::word_of;
