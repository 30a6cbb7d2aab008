//! Entries made of a number: the same number, moment and reports give the same entries.
//!
//! A `Gen` is made of a number, the moment that stands before its entries, and the events that may
//! be reported. It gives 1,200 reports and then a tick, or the tick alone where there is nothing to
//! report. A linear congruential generator draws: in each turn one draw picks the event, and the
//! next one says how much later it is reported, less than two seconds; the tick comes 2^50
//! nanoseconds, some thirteen days, after the last report.
//!
//! Contracts see a `Gen` as the list of the entries that it still gives. What it gives at first is
//! `generated`, a function of what it was made of (`specs/Generated`): `next` takes the first entry
//! off that list, and answers none exactly where the list is empty. Each entry has a spelling, so
//! that a log can hold it, and is no reload. `entries_are_generated` says of the whole list how
//! long it is, and that its moments do not fall. `generated_lines` answers the lines of the whole
//! list.
#![tactic(auto)]

mod draws;
mod generator;
mod laws;
mod lines;

pub use fm_bytes::NoMemory;
pub use generator::Gen;
pub use laws::entries_are_generated;
pub use lines::generated_lines;
