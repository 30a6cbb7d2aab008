//! The listing of what rule files come to, and of compiled files.
//!
//! **Model.** What a rule file comes to is a graph and a number of skipped candidates. Its line
//! says how large these are (`specs/Listing.antt`). Compiled files stand one after another with
//! nothing between them.
//!
//! **Promises.** [`put_listing_of`] appends the line of one. [`put_files`] reads compiled files
//! from some bytes, appends the lines of all that come before the first bad one, and answers the
//! place of that one's first byte. A [`GraphForm`] says whether a graph is told by its line or as a
//! compiled file.
#![tactic(auto)]

mod form;
mod listing;

pub use ev_file::Made;
pub use fm_bytes::NoMemory;
pub use form::GraphForm;
pub use listing::{put_files, put_listing_of, sizes_of};
