//! Modules that take entries again, held against the records of what they said.
//!
//! A log has the records of what modules said, and nothing of the steps at which they said nothing.
//! Who opens it again has the modules as they were at a base, and the entries from there on. Here
//! each module takes entries again up to the last at which it spoke, and what it says is compared
//! with the log, record by record.
//!
//! **Model.** A book of fm_core with the log's records and with each module at its floor is lawful
//! exactly where the modules say just these records (`SayRecords`). `Retraced` is an object that
//! has come to its floor, with one past the last number that it spoke at.
//!
//! **Promises.** `retrace_record` answers whether a record behind others is what its module says
//! next, and then brings the object to its module's floor; nothing but want of memory keeps it from
//! that. `hands_of` makes the modules' hands.
#![tactic(auto)]

mod hands;
mod records;
mod retraced;
mod words;

pub use fm_bytes::NoMemory;
pub use hands::hands_of;
pub use records::retrace_record;
pub use retraced::Retraced;
