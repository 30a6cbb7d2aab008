//! What diagnosis modules say along the entries of a book: exact suspects.
//!
//! **Model.** A book has modules at its base. Where each is a diagnosis module in a lawful state
//! (`IsDiagnoserOf`), all that dx_step says of one step holds of each step along the entries. A
//! drained book has, of each module, the state after all entries and the records of all that it
//! said; those numbered from the base on were said along the entries.
//!
//! **Promises.** Each word that solves a case names just the faults and defects that explain what
//! it observed, in the graph of its configuration; each upset just the upsets, where no fault or
//! defect does; and a case is undiagnosable only where no root explains it, or where the graph has
//! no report of its event. Each case that is open after the entries has a pending report. This is
//! said of one module ([`suspects_are_exact_along`]), of a drained book
//! ([`drained_books_are_exact`]), and of the book that the contents of a store's disks read as,
//! with more entries behind ([`books_on_disks_are_exact`]). Records from before the base were said
//! along earlier entries, and no move of a book changes them. Each law is the contract of a
//! function without a body.
#![tactic(auto)]

mod laws;

pub use laws::{
    books_on_disks_are_exact, drained_books_are_exact, graphs_make_rules, suspects_are_exact_along,
};
