//! Small stores over disks in memory, whose modules count reports, for tests.
//!
//! A store of two counters takes one report after another, all of one class at one path. So what it
//! comes to is a matter of how many it took: at each third report of the class each counter says an
//! upset, and after n reports each has counted n.
//!
//! **Model.** A small store is a store and a hand of each of its modules ([`SmallStore`]). Each
//! step takes one by value and gives it back, or else the disks and why it stopped ([`Stopped`]),
//! so that a path of steps is written with `?`.
//!
//! **Promises.** Each step leaves the hands at their modules' cursors (`HasHandsAtCursors`), so
//! that a drain, which is of the programs above, may follow any step.
#![tactic(auto)]

mod disks;
mod later;
mod parts;
mod small;
mod told;

pub use disks::{bytes_of, crashed, disk_of, empty_disks, new_store};
pub use parts::{letter_at, moment_at, small_conf};
pub use small::{SmallStore, Stopped, opened};
pub use told::Told;
