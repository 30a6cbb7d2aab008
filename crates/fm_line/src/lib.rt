//! Lines of the input: a stream of bytes falls into lines, a line says an entry or has a fault, and
//! an entry is printed as a line.
//!
//! The lines of a stream are a function of the whole stream, `lines_of`: what stands between its
//! newlines, and after the last newline what stands there, if anything does. A line has at most
//! 65,536 bytes, its final carriage return counted; of a longer one no byte is kept. A `Splitter`
//! is seen as what it keeps of the line in progress and the line last ended. `lines_from` says
//! which lines a stream gives when that line in progress stands before it, and the clause `lines`
//! of `take` and `finish` is the law of any cutting: the lines of what was pending, the piece and
//! whatever may follow are the line that was told of, if any, and those of what is pending now, the
//! rest of the piece and what follows. Both buffers are made once, so neither call takes memory.
//!
//! `line_entry` is what a line says, by cases over its bytes: an entry, or the first of its faults.
//! Of JSON it speaks by the value that the bytes read as. `read_line` answers just this, but for
//! want of memory, and what it answers has a spelling as bytes and is no reload. `code_of` numbers
//! the faults. Lines of blanks are skipped: `is_blank_line` tells them.
//!
//! `line_text` is the line of an entry that is no reload. `print_line` appends it.
//!
//! The laws above these definitions stand in `fm_line_laws`: what a line says, by one case for each
//! fault; that a printed line reads back and is the shortest; that names of payloads ascend; that
//! any cutting of a stream gives the same lines.
//!
//! A payload is a JSON object. It becomes a list of names and values by `list_of`, and
//! `payload_data` is the way back; a list that a line gives is what its own JSON says.
#![tactic(auto)]

mod blank;
mod data;
mod fault;
mod json_form;
mod number;
mod parts;
mod payload;
mod plain;
mod print;
mod read;
mod split;

pub use blank::is_blank_line;
pub use fault::LineFault;
pub use fm_bytes::NoMemory;
pub use print::{print_line, print_payload};
pub use read::read_line;
pub use split::{Splitter, Whole};
