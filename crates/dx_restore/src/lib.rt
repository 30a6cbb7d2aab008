//! A saved state of a diagnosis module, made the parts that the module works on again; and such
//! parts, saved.
//!
//! **Model.** [`Loaded`] has the parts of a state: its open cases as [`Case`]s that have come to
//! the state's time, its engines, the last words of solved cases, the time, and the numbers of the
//! next case and of the configuration. `loaded_state` is the state that they are of
//! (`specs/Parts`). [`Parts`] are the same to be saved, whoever holds them. What bytes spell a
//! state is said in dx_state, and which states are lawful in dx_step.
//!
//! **Promises.** [`load`] gives the parts of the lawful state that some bytes spell, and says that
//! they are bad exactly where they spell none: what each open case waits for, which is not saved,
//! is found anew, and a case that waits for nothing is refused. [`save`] writes the bytes that
//! spell the state of some parts, so that [`load`] gives its parts again. Both take time in
//! proportion to the state, but for what finding the candidates of its open cases takes.
//!
//! [`Case`]: dx_case::Case
#![tactic(auto)]

mod cases;
mod engines;
mod loading;
mod parts;
mod saving;

pub use ev_graph::NoMemory;
pub use fm_core::LoadFault;
pub use loading::load;
pub use parts::{Loaded, Parts};
pub use saving::{kept_case, save};
