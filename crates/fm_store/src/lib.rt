//! A store: six disks that stand for one book at every moment.
//!
//! What six contents read as, the two logs that taking an entry and committing a step write, how a
//! store is made, and the looks at one disk are of the crates below. Here a store is opened, takes
//! entries, steps and checkpoints, rotates its error journals, and tells what it logged.
//!
//! **Model.** Contracts see six disks as one record. A store that is open is a record (`OpenedOf`),
//! which has what the looks of an opening read (`Opens`). A store that is there is two parts
//! (`StoreOf`): its logs, which a lock may hold, and what stands beside them, the modules as they
//! were made among it. It stands for a book (`StoreStandsFor`) where its logs keep the book's
//! entries and records and its other disks say the rest, in each image.
//!
//! **Promises.** `Opened::open` writes nothing. It answers `Damaged` with the first place that a
//! look finds, and by `damage_is_no_book` the contents then read as no book; so it never does on an
//! image that reads as one. Contents read as one book at most (`looks_read_one_book`), and what is
//! opened of them has what the book has (`an_opening_has_the_book`), however often it is opened.
//!
//! `Opened::adopt` loads the modules' states and lets each take entries again up to where the fault
//! log says that it last spoke. After `Ok` the store stands for the book that all looks read, and
//! the hands follow it; `Damaged` comes only where a look at the states or the records finds it.
//!
//! `accept`, `commit`, `checkpoint` and `rotate` have one clause each on what they make of the
//! memory, by cases on the answer, and one on the book that the store stands for: after `Ok` it
//! stands for the book after the move, and whatever is answered, each crash at a moment of the call
//! or after it leaves contents that read as a book which drains to what the book of before does, or
//! with the entry that was being taken. A checkpoint writes the slot that is not in force; a
//! rotation first makes a journal of the error journal's disk that is not active. After `Disk` the
//! store is closed: each later call answers `Closed` with the disk that failed and its count.
#![tactic(auto)]

mod adopting;
mod checkpoints;
mod laws;
mod loading;
mod opened;
mod opening;
mod slots;
mod store;
mod store_base;
mod store_laws;

pub use fm_bytes::NoMemory;
pub use fm_init::{StoreRefused, a_new_store_reads_as_its_book, init};
pub use fm_logs::{Committed, DiskName, Disks, Logs, LogsParts, StoreFault};
pub use fm_saved::{Conf, ConfText};
pub use laws::{an_opening_has_the_book, damage_is_no_book, looks_read_one_book};
pub use opened::Opened;
pub use store::Store;
pub use store_base::StoreBase;
pub use store_laws::stores_read_like_their_books;
