//! All bindings with which each of some tables has a row, in order.
//!
//! **Model.** A statement has iterators, numbered from 0. A [`Table`] has ascending numbers of
//! iterators as its columns, and rows: a number for each column, and the number of what the row
//! stands for. Contracts see it as these two (`specs/Tables.antt`). A binding is a list with a
//! number below 2 ^ 32 for each iterator. Its candidates are the bindings with which each table has
//! a row (`specs/Candidates.antt`), and the rows that agree are the candidate's links.
//!
//! **Search.** [`join`] goes from one candidate to the next: it keeps a beginning of a binding for
//! which each table has a row, and a number from which to go on, and seeks the least number with
//! which each table still has one (`specs/Search.antt`). So a later table cuts early what an
//! earlier one leaves open, and nothing is kept but the beginning. Where a later iterator alone
//! ties two earlier ones their product is tried: [`search_order`] says in which order to number the
//! iterators so that this happens only where nothing ties them.
//!
//! **Promises.** [`join`] answers all candidates, each once, in order, and the number of their
//! links, where these are no more than its limit, and else refuses. [`in_order`] puts bindings in
//! order. Want of memory is the one other answer.
#![tactic(auto)]

mod join_fault;
mod joined;
mod order;
mod rows;
mod search;
mod table;

pub use fm_bytes::NoMemory;
pub use join_fault::JoinFault;
pub use joined::{Joined, join};
pub use order::{in_order, search_order};
pub use table::{Row, Table};
