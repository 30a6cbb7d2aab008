//! How a store is made.
//!
//! A store is six disks; what six contents read as is of the crate below. Here the first contents
//! are written, once.
//!
//! **Model.** Contracts see six disks as one record. A store is there where the configurations'
//! disk is a journal with a payload (`HasStore`). The contents of a new one are `IsNewStore`: the
//! configuration, two empty logs, and no open slot. They read as the book without entries and
//! records, with all modules as they are made (`a_new_store_reads_as_its_book`).
//!
//! **Promises.** `init` reads the configurations' disk, and refuses where a store is there. Then it
//! closes both slots and makes the two logs, and writes the configuration last. So a crash at any
//! moment leaves what was there before, no store, or the new one, and where there is none it may be
//! run again. `Disk` comes only where the count of a disk rose.
#![tactic(auto)]

mod laws;
mod making;
mod refused;

pub use fm_logs::{DiskName, Disks, StoreFault};
pub use fm_saved::{Conf, ConfText};
pub use laws::a_new_store_reads_as_its_book;
pub use making::init;
pub use refused::StoreRefused;
