//! What takes resources out of use, and how it comes to hold just what is wanted.
//!
//! An `Actuator` is for resources of one kind: those whose path ends in a part of that name. It
//! holds a set of paths, and takes a path in or out at a call. `reconcile` brings each of a list of
//! actuators to hold exactly the wanted paths of its kind: it lists what an actuator holds, takes
//! back what is not wanted, and retires what is missing. Where an actuator fails, the others are
//! brought there all the same, and nothing is said of what it holds then.
//!
//! Contracts see an actuator as its kind, the paths that it holds, where it tells them, and its
//! count of failures (`specs/Reconciled`, `ActuatorState`). What the calls do to the set is said
//! in `specs/HeldPaths`, what becomes of a list of actuators in `specs/Reconciled`. Nothing is
//! known of what an actuator holds that doesn't tell it; the kind and the count of each are known.
//!
//! An actuator lists at most 65,536 paths. So what `reconcile` promises of the paths is said of an
//! actuator that held no more.
//!
//! `MemActuator` keeps its set in memory, and fails at the calls that it was told.
#![tactic(auto)]

mod act_calls;
mod actuator;
mod faults;
mod kind;
mod mem_actuator;
mod reconciling;
mod settling;

pub use act_calls::ActCalls;
pub use actuator::Actuator;
pub use faults::{ActFault, ActRefused};
pub use fm_bytes::NoMemory;
pub use kind::ActKind;
pub use mem_actuator::MemActuator;
pub use reconciling::{reconcile, settle_actuators};
