//! What a diagnosis module says of its cases, made: names, certainties, suspects, the place of a
//! word, and what repairs, replacements and acquittals say of solved cases.
//!
//! **Model.** All is made of a graph and of numbers of its nodes. What is said is defined in
//! dx_step (`specs/Said`, `specs/Certainty`), and each call answers just that.
//!
//! **Promises.** The names of nodes, in the order of their numbers. A suspect's certainty is its
//! share of 100 by its rate, rounded down, and the first suspect gets what is left, so certainties
//! come to 100. A word stands among the words of other cases by its number. A repair, a replacement
//! or an acquittal marks the suspects of which it speaks, and each case with such a suspect gets a
//! further word.
#![tactic(auto)]

mod certainty;
mod marked;
mod marking;
mod naming;
mod places;
mod suspecting;

pub use certainty::certainties;
pub use fm_bytes::NoMemory;
pub use marked::{AfterMarks, mark_words, marks_any};
pub use marking::{AtPath, Choice, OfCase, UnderPath, mark_word};
pub use naming::names;
pub use places::put_words;
pub use suspecting::{suspects, upsets};
