//! The steps of a diagnosis module: what it does and says at an entry, and the laws of it.
//!
//! **Model.** A module is made with its own number and with configurations, each a graph and what
//! payloads can break in it (`Rules` of dx_state). A step is a total function of a state, a number
//! and an entry (`specs/Step`). It goes in five parts: the time moves; each open case that waits
//! for no report any more is decided; the entry acts, as a report that joins a case or opens one,
//! or as a mark on suspects; what the engines that fired report acts likewise; and where a reload
//! names a configuration above the one in force, all open cases are decided and that one comes into
//! force. `Turn` is a step as far as it has come: the state, the engines that fired, the words.
//!
//! **Invariant.** `is_lawful` says which states are lawful: what `is_state` of dx_state asks, and
//! that each open case waits for a report. A case is decided where it waits for none, so nothing
//! about stories is needed to keep it.
//!
//! **Promises.** A lawful state is followed by a lawful one and what is said has spellings
//! ([`steps_stay_lawful`]). The suspects that are said are just the roots that explain what was
//! observed ([`suspects_are_exact`]), and each open case has a pending report
//! ([`open_cases_wait`]). The other laws are those that a module owes to the core: no class that is
//! not declared does more than pass the time, configurations only change at reloads, equal saves
//! are of equal states, and a longer list of configurations changes nothing that was known.
//! Each law is the contract of a function without a body. dx_engine makes of them the meaning of a
//! module, and runs it.
#![tactic(auto)]

mod laws;

pub use laws::{
    certainties_come_to_all, configurations_step, lawful_states_are_saved_once,
    longer_lists_do_alike, open_cases_wait, small_module_says, steps_stay_lawful,
    suspects_are_exact, undeclared_ticks,
};
