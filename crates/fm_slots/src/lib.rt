//! Two slots, of which one keeps what is in force while the other is written.
//!
//! A slot stands on a disk of its own: a gate byte, a sequence, the payload's length and the
//! payload. A gate byte 1 is open and every other closed; a closed slot counts for nothing,
//! whatever follows its gate. Of two open slots the one with the greater sequence is in force.
//!
//! To put a new slot in force one clears the other disk, then fills it with a greater sequence.
//! `clear` closes the gate and syncs. `fill` writes the body behind the closed gate and syncs, and
//! only then opens the gate and syncs again. So a crash at any moment leaves the old slot in force,
//! or the new one whole: as long as the body is not on the disk the gate is closed in every image.
//!
//! A closed gate is never written over a closed gate: a crash in that write may leave an open gate
//! before the torn body of an earlier `fill`. So `clear` reads the gate first, and writes only
//! where it is open or the disk is empty.
//!
//! Contracts see a frame as its sequence and payload (`SlotOf`), and bytes as a slot by `IsSlot`.
//! What a layer above takes from here is the clause of `replace`: while the kept slot of a pair
//! stays as it is, each image of the other one, at each moment, has the old slot in force or the
//! new one.
//!
//! A call fails only where its disk's count of failures rose, and a call that is done leaves the
//! count as it was.
#![tactic(auto)]

mod clearing;
mod fault;
mod filling;
mod frame;
mod laws;
mod pair;
mod standing;

pub use clearing::clear;
pub use fault::SlotFault;
pub use filling::{fill, replace};
pub use frame::SlotFrame;
pub use laws::slots_are_one;
pub use pair::{Found, newest};
