//! Texts of numbers and moments, and the words of a command line.
//!
//! A number is a text of digits, and zeros may lead: that is how people write the number of a
//! record or of seconds. A moment is a count of nanoseconds below 2^62; its text counts seconds,
//! with nine digits behind a dot where it is written, and with none or one to nine where it is
//! read. Contracts see a text as its bytes: numbers are as `fm_bytes` has them, and `specs/Time`
//! says which texts are moments and what they mean, as tests and values of what stands before and
//! behind the first dot.
//!
//! `read_number` and `read_time` answer a value exactly where the text means one, and take no
//! memory. `write_time` writes the one text of a moment, and carries the law that `read_time` reads
//! it back.
//!
//! An `ArgText` is a word of the command line, which a program copies once from where the system
//! keeps it. Contracts see its bytes.
#![tactic(auto)]

mod numbers;
mod times;

pub use fm_bytes::NoMemory;
pub use numbers::read_number;
pub use times::{read_time, write_time};

/// A word of the command line, which contracts see as its bytes.
pub type ArgText = fm_bytes::Text;
