//! What stands outside, over real files and streams: the objects that the program hands in.
//!
//! Each meets a trait of fm_outer or fm_act, and tells no content, since no contract can say what a
//! file holds. What is proved of them is that a fault is answered only with a count that rose, and
//! an Ok with the count as it was. Each keeps why it first failed, in the system's words.
//!
//! - `Streams` takes the descriptors of the standard streams that the program was started without,
//!   so that no file that it opens takes one.
//! - `Input` is a source over standard input or a file; `Output` is a sink over a writer.
//! - `StoreFolder` is the folder of the disks, which one process at a time works on.
//! - `StoreFile` is a disk over a file of that folder. Where a sync fails, the system may take for
//!   written what the device does not have; so the disk puts back what stood under its last small
//!   write, and every later call fails.
//! - `Retired` is an actuator over a file of paths.
//!
//! A file is opened at the first call of its object, so that what a command doesn't call is neither
//! opened nor made. The first disk that is called takes the lock of the folder for all of them, and
//! holds it as long as it is there.
#![tactic(auto)]

mod failures;
mod folder;
mod input;
mod output;
mod retired;
mod retired_note;
mod store_file;
mod streams;
mod trouble;

pub use folder::StoreFolder;
pub use input::Input;
pub use output::Output;
pub use retired::Retired;
pub use retired_note::RetiredNote;
pub use store_file::StoreFile;
pub use streams::Streams;
pub use trouble::Trouble;
