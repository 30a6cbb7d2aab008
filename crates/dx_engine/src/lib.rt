//! A diagnosis module: it takes entries, and says which faults explain the reports among them.
//!
//! **Model.** Contracts see a [`Diagnoser`] as the `Module` of fm_core whose meaning is
//! `diagnoser_meaning` of its rules (dx_meaning), in the state that its standing state stands for.
//! So all that fm_core says of modules holds of it. A `StandingState` stands ready for the next
//! entry: its open cases and engines as the things that work, beside the plain numbers and words.
//! Contracts see it by the `Diagnosis` of fm_core that it stands for (`state_of`), under the rules
//! of a rulebook, which it does not own. What a turn says and leaves is defined in dx_step.
//!
//! **Invariant.** What stands does so under the rules (`IsStanding`): the state is lawful; each
//! open case answers at the state's time as it does at the moment that it has come to, so that no
//! case is touched while none of its windows ends; the engines are those of the graph in force, and
//! keep nothing past that time.
//!
//! **Promises.** A step says and leaves what the step of dx_step does, and after want of memory the
//! state is as it was: a turn is worked out beside the state (dx_turn), and all that can be refused
//! is done before any of it is put in place. `save` writes the bytes that spell the state, and
//! `load` takes the state that some bytes spell, or says that they spell none
//! ([`fm_core::Module`]). [`Diagnoser::open_rows`] and [`Diagnoser::solved`] tell of the open and
//! the solved cases.
#![tactic(auto)]

mod checking;
mod diagnoser;
mod loading;
mod making;
mod putting;
mod rows;
mod saving;
mod standing;

pub use checking::can_begin;
pub use diagnoser::Diagnoser;
pub use ev_graph::NoMemory;
pub use rows::OpenRow;
