//! What stands outside of the fault manager: where bytes come from, where they go, and where they
//! are kept.
//!
//! Each is a trait that says what the object means, so that all code above is written and proved
//! once for every source, sink and disk:
//!
//! - a `Source` means the bytes that are left, where it tells them;
//! - a `Sink` means the bytes that were put, where it tells them;
//! - a `Disk` means the bytes that a read gives, the images that a crash now may leave, and the
//!   images that a crash at some moment since a given one might have left, so that a contract can
//!   speak of each moment within a call.
//!
//! Each counts its own failures, and answers `Failed` only where that count rose in the call, so
//! that a caller can tell what broke and no body can give up by itself.
//!
//! `write_through` and `add` are the two ways in which every layer above writes: each begins and
//! ends with a disk that is synced, and says what a crash at any moment within may leave.
//!
//! `MemSource`, `MemSink` and `MemDisk` are the kinds in memory. They tell all of their content,
//! take no memory after they are made, and fail exactly at the calls that they were told. A
//! `MemDisk` keeps a record of its writing calls, by which it gives each image of a crash; its
//! invariant ties what it reads to the replay of that record. `ReadSource`, `WriteSink` and
//! `FileDisk` adapt std's readers, writers and files. They tell no content, since no contract can
//! say what a file holds.
#![tactic(auto)]

mod bytes;
mod disk;
mod fail_plan;
mod failed;
mod fetch;
mod file_disk;
mod frame_fault;
mod image;
mod mem_disk;
mod mem_sink;
mod mem_source;
mod read_source;
mod record;
mod sink;
mod source;
mod through;
mod told;
mod write_sink;

pub use disk::Disk;
pub use failed::Failed;
pub use fetch::byte_at;
pub use file_disk::FileDisk;
pub use fm_bytes::NoMemory;
pub use frame_fault::FrameFault;
pub use image::Image;
pub use mem_disk::MemDisk;
pub use mem_sink::MemSink;
pub use mem_source::MemSource;
pub use read_source::ReadSource;
pub use sink::Sink;
pub use source::Source;
pub use through::{add, write_through};
pub use write_sink::WriteSink;
