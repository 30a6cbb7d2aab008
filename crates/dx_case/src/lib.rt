//! Cases: reports that belong together, from the first one until nothing more is pending, and what
//! explains them.
//!
//! **Model.** Contracts see a [`Case`] as an open case of fm_core (`open_of`: its number, when it
//! was opened, its entries, what was observed, the broken links) and the moment that it has come to
//! (`time_of`), none once it is finished. What is allowed and pending then and what explains the
//! case are the words of dx_explain, at a moment or, once the case is finished, with nothing
//! allowed but what was observed (specs/Cases). A call that needs the graph says that the case was
//! made in it (`IsCaseOf`).
//!
//! **Invariant.** A case has a candidate for each root that is possible, by rising number: the
//! greatest story of that root with reports within what is allowed, in the graph less the broken
//! links, which has the root and all that was observed (specs/Candidates). Each story that has the
//! first report has a root that reaches it, so the candidates are sought once, by a search
//! backwards from that report. What is possible only shrinks while time passes, reports join and
//! links break, so a candidate whose set has lost its root or a report that was observed is dropped
//! for good. A report is pending exactly where it was not observed and some candidate has it; and
//! where none is pending, the candidates' roots are just those that explain.
//!
//! **Promises.** [`Case::start_with`] and [`Case::join_with`] take a report with the links that its
//! payload breaks, [`Case::expire`] lets windows end, [`Case::finish`] all of them;
//! [`Case::is_pending`] and [`Case::fits`] answer exactly, and [`Case::outcome`] gives all faults
//! and defects that explain the case, else all such upsets, else says that nothing does. A case
//! takes memory for what its candidates' roots reach, and none to move in time. [`Case::restore`]
//! makes a case again from what is kept of it ([`CaseFacts`]), whatever the order in which its
//! reports had come.
//!
//! **Starts.** The candidates of a report and the reports that their roots reach depend on its node
//! and the graph alone. [`Starts`] keeps them for nodes that opened cases, within a bound, so that
//! the next case of such a node is opened with copies and no search. It doesn't know its graph: a
//! call that is handed some says that what was found is right in the graph (`AreStartsOf`).
#![tactic(auto)]

mod candidate;
mod case;
mod changes;
mod facts;
mod finding;
mod kinds;
mod lists;
mod numbers;
mod outcome;
mod starts;

pub use case::{Case, FirstReport};
pub use ev_graph::NoMemory;
pub use facts::CaseFacts;
pub use outcome::Outcome;
pub use starts::Starts;
