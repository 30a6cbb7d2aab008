//! How a store is drained, and what it comes to then: each module takes the entries that it has not
//! taken, and what it says is committed; a checkpoint may follow; and the records tell what each
//! case has come to.
//!
//! **Model.** A drain goes over the modules in order, and lets the hand of each take one entry
//! after another until it is at the end. It commits each step before the next one. So the store
//! stands for the book after these works (`store_after`), which drains to what the book of before
//! does, since the order of works makes no difference to that. `drain_to_base` writes a checkpoint
//! at the end too, and the store stands for the same book with its base moved (`store_based`);
//! where no entry is past the base, nothing is written. What each case has come to is its last
//! word: a status is that of a drained book (`IsStatusOf`), whatever the order in which the modules
//! were worked, since a case is of one module, whose records ascend.
//!
//! **Promises.** After `Ok` each module is at the end of the entries and so is its hand; of
//! `drain_to_base`, the base is there too. After a refusal the hands still follow the book that the
//! store stands for; that of one module may be one step past its module's cursor (`IsStepPast`),
//! where the step was not committed. Such a hand is not drained again. Each refusal comes with its
//! cause (`StoppedAt`, `ToBaseRefused`). Each crash, at a moment of the call or after it, leaves
//! contents that read like the book of before, whatever is answered.
//!
//! `read_status` reads the records of the fault log and changes nothing. Where the store stands for
//! a book whose modules are at its end, the rows are the status of the drained book, which has one
//! status only (`a_drained_book_has_one_status`), and wants one list of paths out of use
//! (`a_drained_book_wants_one_list`).
#![tactic(auto)]

mod case_status;
mod draining;
mod status_laws;
mod steps;
mod to_base;
mod wanting;

pub use case_status::read_status;
pub use draining::drain;
pub use status_laws::a_drained_book_has_one_status;
pub use to_base::drain_to_base;
pub use wanting::a_drained_book_wants_one_list;
