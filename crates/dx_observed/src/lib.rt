//! What the cases of diagnosis modules observe along entries: just their reports.
//!
//! **Model.** At an entry some events are reported: the entry's own, where the graph in force
//! declares its class, and those that engines report which fire at it (`reported_at`,
//! `reported_along` of `specs/Reported`). A report that is known to have joined a case is a
//! `JoinedReport`. What a case had observed in a state, be it open or solved, is `had_observed`.
//!
//! **Promises.** Along entries from a lawful state each report joins one case, in order, as long as
//! there are numbers for cases. An event is among those that a word says its case observed exactly
//! where the case had observed it in that state, or a report of it joined the case since, at the
//! entry of the word or before it; and so it is with each case that is open afterwards. A case that
//! was open, or that a report joined, has a word said of it or is open afterwards
//! ([`cases_observe_just_their_reports`]). So the suspects of a solved case are just the faults and
//! defects that explain all its reports: some story of each of them has exactly the nodes of these
//! reports as its reports, and no other fault or defect has one; likewise upsets, and cases that
//! nothing explains ([`suspects_explain_all_reports`], and [`drained_books_explain_all_reports`] of
//! each module of a drained book). What the engines report that fire is the report of an engine of
//! the graph in force ([`fired_reports_are_of_engines`]); a module begins with nothing observed
//! ([`fresh_states_have_observed_nothing`]). Each law is the contract of a function without a body.
#![tactic(auto)]

mod laws;

pub use laws::{
    cases_observe_just_their_reports, drained_books_explain_all_reports,
    fired_reports_are_of_engines, fresh_states_have_observed_nothing, small_module_observes,
    suspects_explain_all_reports,
};
