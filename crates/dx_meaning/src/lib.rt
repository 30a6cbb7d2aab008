//! A diagnosis module as the core sees modules: its meaning, one value with its laws.
//!
//! **Model.** `diagnoser_meaning` (`specs/DiagnoserMeaning`) is the `Meaning` of fm_core of the
//! module that is made with some rules. What it does is defined in dx_step, and its laws are those
//! proved there, so whatever fm_core says of modules holds of it. `fresh_of` is the state that it
//! begins in.
//!
//! **Promises.** A fresh state is lawful ([`fresh_states_are_lawful`]). A module that knows more
//! configurations is one that knows more in the sense of fm_core ([`longer_lists_know_more`]).
#![tactic(auto)]

mod laws;

pub use laws::{fresh_states_are_lawful, longer_lists_know_more};
