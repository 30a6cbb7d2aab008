//! What the manager is told and what its modules say: entries, and the words spoken of cases.
//!
//! An `Entry` is one thing that happened: a report, a tick of the clock, a repair, a replacement,
//! an acquittal, or a reload, from which on another configuration is in force. A `Spoken` is what
//! one module said at one entry, a list of `ListEvent`.
//! Contracts see each value as plain data: a class and a path as the bytes of their texts, a
//! payload as its pairs, a list as a list. `moment_of` is an entry's moment.
//!
//! Not every value is allowed in a log: moments are below 2^62, a report's class has the category
//! `ereport`, a case is below 2^63, a module below 8. `IsSpelled` says so of an entry, `IsWordOf`
//! of one word of a module, `IsSpelledSpoken` of a record. The calls that write bytes ask for these
//! facts.
#![tactic(auto)]

mod broken;
mod case_name;
mod case_text;
mod entry;
mod entry_bytes;
mod entry_reading;
mod event_item;
mod list_event;
mod list_event_item;
mod parts;
mod spoken;
mod spoken_item;
mod suspect;
mod suspect_item;

pub use broken::{Broken, BrokenLinks};
pub use case_name::CaseName;
pub use case_text::read_case_name;
pub use entry::Entry;
pub use entry_bytes::write_entry;
pub use entry_reading::read_entry;
pub use event_item::{EventCodec, EventNames};
pub use fm_bytes::NoMemory;
pub use fm_name::EventName;
pub use list_event::{ListEvent, ListEvents, ListKind};
pub use list_event_item::{put_list_event, take_list_event};
pub use spoken::Spoken;
pub use spoken_item::{read_spoken, write_spoken};
pub use suspect::{Mark, Suspect, Suspects};
