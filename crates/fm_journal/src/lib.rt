//! A journal: one list of payloads on one disk, to which payloads are added one at a time.
//!
//! The disk begins with a header, eight characters and the first number. Records follow: a gate
//! byte, the payload's length and the payload. A gate byte 1 is open and every other closed, and
//! the list ends at the first closed gate. What stands behind that gate is not read, so a body that
//! was torn in the writing does no harm there.
//!
//! An append writes the length, the payload and a further closed gate behind the closed gate, and
//! syncs. Only then it writes 1 over the gate, and syncs again. A crash in the first part leaves
//! the list as it was, since the gate is closed in every image. One in the second leaves it as it
//! was or with the payload, since everything behind the gate is on the disk by then, whatever the
//! gate's byte has become.
//!
//! Contracts see a journal as a record (`JournalOf`): the disk, the first number, how many payloads
//! there are, the place of the closed gate, and whether an append has failed. Its invariant
//! (`IsSound`) says that the numbers are within the limits and, while the journal is open, that the
//! gate lies inside the disk and that all of the disk is synced: that is what makes the images of a
//! crash those of one write alone. What a journal promises of its list is `Keeps`: it is open, and
//! what a read gives and what any crash leaves are journals of just these payloads.
//!
//! - `append` keeps the list with the payload after `Ok`, and says of each moment of the call,
//!   whatever it answers, that a crash leaves a journal of the list from before or with the
//!   payload.
//! - `create` leaves, up to its first sync, fronts of what was there, then no journal with a
//!   payload, and after `Ok` the empty journal.
//! - `open` keeps the list that the bytes spell, and answers `Damaged` only where they are no
//!   journal, with the place where the reading stopped. It writes nothing, and reads the disk once,
//!   in pieces of 64 KiB.
//! - `size` and `read` give the payloads by their places, and say where the next one stands.
//!   `read_piecewise` gives them one after another through a `Piece` of the disk. At any place, of
//!   the list or not, each gives only what a record that stands there has.
//!
//! After a failed write or sync nobody knows what the disk holds, so the journal is closed from
//! then on and answers `Closed` until its disk is opened again. `Disk` comes only where the disk's
//! count of failures rose, and a call that is done leaves that count as it was.
#![tactic(auto)]

mod fault;
mod frame;
mod header;
mod journal;
mod look;
mod piece;
mod place;
mod refuse;
mod scan;
mod start;

pub use fault::{FullKind, JournalFault, Refused};
pub use fm_outer::FrameFault;
pub use frame::Frame;
pub use journal::Journal;
pub use piece::Piece;
