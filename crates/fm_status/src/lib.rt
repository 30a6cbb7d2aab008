//! What is known of each case, from the words spoken of it.
//!
//! Modules say words about cases: a case is solved, and these are the suspects; some of them were
//! repaired; none is left. A `Status` takes the records of such words in the order in which they
//! were spoken, and keeps of each case the last word, its row. From the rows follow the resources
//! that are wanted out of use: those of present suspects to be retired, in the rows of solved
//! cases.
//! A case is known to the outside by a UUID, which is made of a namespace and the text of its name.
//!
//! Contracts see a status as the list of its rows, in the order of cases (`specs/Rows`), and the
//! wanted resources as the list of their paths, strictly ascending (`specs/Wanted`). `apply` says
//! both what the rows become, word by word, and what they are: of any words, the last of each case.
//!
//! The line of a suspect, and the pieces of lines that it is made of, stand here for all texts that
//! are printed (`specs/Lines`).
//!
//! The places of rows stand in a map by case, so n words take n log n steps whatever the order of
//! their cases.
#![tactic(auto)]

mod lines;
mod names;
mod status;
mod wanted;

pub use fm_bytes::NoMemory;
pub use lines::{put_case, put_event, put_number, put_suspects, put_text};
pub use names::uuid_of;
pub use status::Status;
pub use wanted::{Wanted, is_solved};
