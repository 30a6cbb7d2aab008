//! Disks that are lent: a disk behind a `&mut`, which is a disk with a name of its own.
//!
//! **Model.** A reference has a name, and so has the disk behind it; of a disk that is lent both
//! are one number, their pair (`specs/Lending`). All else that a disk means is that of the disk
//! behind the reference.
//!
//! **Promises.** Who lends a disk and gets one of the same name back knows that it is the same
//! reference, and that the disk behind it has the name that it had.
#![tactic(auto)]

mod lent;

pub use lent::Lent;
