//! The pure core: modules that take each entry once, in order, in whatever order they are worked.
//!
//! A `Module` is an object with a state. It takes entries one at a time, by number, and says words
//! about cases. Contracts see it by its meaning, one value that says what it was made with (its own
//! number, how many configurations it knows, what it subscribes to, its steps, words and saves),
//! and by its state. A `Hand` is an object with the place that it has come to. A `Core` keeps the
//! entries in memory, a hand of each module as it was before them, a hand of each as it has come
//! on, and what was spoken.
//!
//! A core stands for a book (`stands_for`): the modules at the base, the entries, a cursor for each
//! module, and the records of what was said. A book is lawful where each module's records from the
//! base on are just what it says along the entries that it has taken. Each call of a core is one
//! move of its book: `accept`, `work` and `fall`; a new base is a move too. The theorem over whole
//! runs is the contract of `any_order`: after any list of moves a lawful book is lawful, it drains
//! to what one thread gets that takes every entry once, in order, and where a module has come to
//! the end, its state and its records are those. `IsCore` says of a core that its book is lawful
//! and that its hands follow it; each call asks for it and keeps it. A drained core shows of each
//! module what the drained book says of it (`modules_now`).
//!
//! Nothing of a core is lost where memory is wanted: `accept` and `work` leave it as it was, and
//! `Hand::step` gives the hand back.
//!
//! Further laws stand on functions without a body. What a module says from a lawful state on, along
//! entries that have spellings, are words that a log can hold (`words_are_spelled`). Its
//! configuration changes at a Reload that names a known one above it
//! (`configurations_follow_reloads`), and a module that knows more configurations does alike what
//! the other knows (`longer_lists_agree`). Hands follow on (`hands_follow_on`), and a book of which
//! all modules fall to their floors is the same book (`floors_are_lawful`): so a store, which reads
//! its book again from logs, rests on these. What `save` wrote, `load` takes back (`restore`).
//!
//! `Counter` is a small module, which counts reports by class and says an upset at every third
//! report of one class. It looks for a class first where a `Trail` of earlier places guesses it.
//! What its `save` writes, `load` takes back, and `load` refuses all other bytes.
#![tactic(auto)]

mod class_count;
mod cores;
mod counter;
mod counting;
mod hand;
mod laws;
mod module;
mod restoring;
mod saving;
mod trail;
mod worked;

pub use class_count::ClassCount;
pub use cores::Core;
pub use counter::Counter;
pub use fm_bytes::NoMemory;
pub use hand::Hand;
pub use laws::{
    any_order, configurations_follow_reloads, floors_are_lawful, hands_follow_on,
    longer_lists_agree, words_are_spelled,
};
pub use module::{LoadFault, Module};
pub use restoring::restore;
pub use worked::Worked;
