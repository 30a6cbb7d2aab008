//! The state of a diagnosis module: which states are lawful, and the bytes that each is kept as.
//!
//! **Model.** The state itself is a record of fm_core (`Diagnosis`). A module is made with its own
//! number and with configurations, each a graph and what payloads can break in it
//! (`specs/Configured`). `is_state` says which states are lawful in a configuration, in all but
//! that each open case waits for a report, which is asked where steps are defined
//! (`specs/LawfulState`). `diagnosis_bytes` is what a state is kept as (`specs/StateBytes`), and
//! `diagnosis_from` what the front of some bytes reads as (`specs/StateReading`).
//!
//! **Promises.** What is read is spelled so, and what is spelled is read again
//! (`proofs/StateReader`), so equal bytes are of equal states ([`states_are_told_apart`]). A lawful
//! state has a spelling wherever its bytes are fewer than 2^64, as all bytes in memory are
//! ([`lawful_states_are_spelled`]).
#![tactic(auto)]

mod laws;

pub use laws::{lawful_states_are_spelled, states_are_read, states_are_told_apart};
