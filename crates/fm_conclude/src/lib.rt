//! The end of a run: a store is drained, its base is moved to its end, and what its drained book
//! comes to is told.
//!
//! **Model.** A store stands for a book, which hands of diagnosis modules follow. A drained book
//! has a number of entries, and of each module its state and its words after them (`Drained` of
//! fm_core). Its summary (`IsSummaryOf`) tells how many entries there were, the open cases of the
//! states, by module and then by number, and what each case has come to, by the status of the
//! words. `conclude` drains the store and writes a checkpoint where entries are past the base,
//! reads what its records say of cases (fm_drain), and tells two things of the drained book: the
//! text of its summary, and the resources that it wants out of use. Both are functions of the
//! drained book alone.
//!
//! **Promises.** After `Ok` no disk failed, the store is open with its base at its end, and it
//! stands for the book that was drained (`StandsConcluded`), of which the conclusion tells. Each
//! refusal comes with its cause (`ConcludeRefused`, and `LimitReached` for a limit), and `Damaged`
//! never comes while the store stands for a book that the hands follow. Each crash, at a moment of
//! the call or after it, leaves contents that read like the book of before, whatever is answered.
#![tactic(auto)]

mod concluding;
mod open_cases;
mod summing;

pub use concluding::{Conclusion, conclude};
