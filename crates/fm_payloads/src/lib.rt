//! All payloads of a journal, read in order and given to whatever takes them.
//!
//! A journal keeps a list of payloads on its disk, and not in memory. What stands above it reads
//! the whole list when it opens, and wants of it the values that the payloads spell, up to the
//! first payload that is none of these, and where that one stands.
//!
//! **Model.** A `PayloadReader` takes payloads one at a time. Contracts see by two relations which
//! list it has taken and which payload it refuses next, and by a third that it still takes by the
//! rule that it was made with. So each format's own rule, be it that a payload spells a value or
//! that values follow one another, stops the reading at its own first bad payload. A `PayloadCodec`
//! is the plain rule that each payload spells a value.
//!
//! **Promises.** `read_payloads` gives a reader all payloads that the journal keeps, or those
//! before the first that it refuses, and then the place of that one (`ReadsUpTo`). `read_values`
//! gives the list of values instead of a reader, and `place_of` the place of a payload by its
//! number. Whoever reads a journal in a loop of its own has one payload after another by
//! `read_into`. Each only reads the disk, once and in pieces of 64 KiB, and takes memory for the
//! longest payload besides what the reader takes. `Disk` comes only where the disk's count of
//! failures rose; `Changed`, that the disk no longer gives what the journal keeps, never where the
//! journal keeps any list.
#![tactic(auto)]

mod fault;
mod place;
mod reader;
mod reading;
mod values;

pub use fault::ReadingFault;
pub use fm_bytes::NoMemory;
pub use place::place_of;
pub use reader::PayloadReader;
pub use reading::{read_into, read_payloads};
pub use values::{PayloadCodec, ReadValues, read_values};
