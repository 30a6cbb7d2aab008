//! The looks at the disks of a store that is opened, one disk after another.
//!
//! What six contents read as is a book, and an opening reads them in an order: the configurations,
//! the slots, which say the base, the active error journal, and the fault log once there are
//! modules that say its records. Here each of these is read, and what is damaged is found; a store
//! is put together of them by the crate above.
//!
//! **Model.** An opening is a list of looks (`StoreLook`), each of which passes or finds damage at
//! a place, and what a look needs of those before it is a function of what these read (`WasRead`).
//! Contracts see a log that was read by what its disk told: a journal that keeps its payloads, and
//! values that these spell and that fit (`ConfsKept`, `EntriesKept`, `RecordsKept`); and slots by
//! what they say (`SlotsKept`).
//!
//! **Promises.** Each look writes nothing, and syncs its disk before it reads it. After `Ok` the
//! disk was such as the look passes. `Damaged` comes only where it is damaged so, with the first
//! place (`FirstBad`): of configurations the first that is not of the store, of entries the first
//! that spells none or reloads unlawfully, of records the first that the modules do not say. `Disk`
//! comes only where the disk's count of failures rose.
#![tactic(auto)]

mod base;
mod confs;
mod entries;
mod entry_reader;
mod fault_log;
mod look;

pub use base::{BaseRead, read_base, slot_disk};
pub use confs::{ConfsRead, open_confs};
pub use entries::{EntriesRead, force_after, force_of, open_entries};
pub use fault_log::{RecordsRead, open_records};
pub use look::{LookFault, LookRefused};
