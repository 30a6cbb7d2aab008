//! What six disks read as, and the logs of a store: what the taking of an entry and the commit of a
//! step write, and what is read of them.
//!
//! A store keeps a book on six disks. One disk has its configurations, two have error journals, of
//! which one is active, two have slots, of which one is in force, and one has the fault log. The
//! slot in force says the base: which error journal is active, how many entries came before, their
//! greatest moment, and the states of the modules. The entries from the base on are those of the
//! active journal, and the records are those of the fault log.
//!
//! **Model.** The book is the core's, with the list of configurations and the number in force at
//! its base (`StoreBook`). What six contents read as is `ReadsAsBook`, with each module at its
//! floor. `Logs` is what accept and commit touch, and nothing of modules, so that a lock may hold
//! it; contracts see the two journals, the entries from the base, the cursors, and the disk that
//! failed (`LogsOf`). What logs keep is `LogsKeep`, and the book that they stand for beside the
//! four other disks is `LogsStandFor`.
//!
//! **Promises.** `accept` and `commit` have one clause each, a definition by cases on the answer
//! (`AcceptDoes`, `CommitDoes`), and one on each moment of the call: a crash leaves the log of
//! before, or the log with the entry or the words. Nothing is answered as done before it is on the
//! disk in every image. After `Disk` the logs are closed: each later call answers `Closed` with the
//! disk that failed and its count, and writes nothing. `spoken` and `logged` read a log and change
//! nothing: the records in order (`AreOrdered`), and the entries. The law over books is on
//! functions without a body: while logs stand for a lawful book, each image of the six disks, at
//! each moment of a call, reads as the book of before or as the one after the move.
#![tactic(auto)]

mod disks;
mod fault;
mod laws;
mod logs;
mod reading;

pub use disks::{DiskName, Disks};
pub use fault::StoreFault;
pub use laws::{
    a_step_is_worked, an_entry_is_accepted, logs_read_as_books, work_and_falls_drain_alike,
};
pub use logs::{Committed, Logs, LogsParts};
