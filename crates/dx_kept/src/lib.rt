//! States of diagnosis modules as values, written to bytes and read from them.
//!
//! **Model.** A `KeptCase` is an open case and a `KeptState` a whole state, which contracts see as
//! the records of fm_core. What bytes spell them is said in dx_state.
//!
//! **Promises.** What is written is the spelling. What is read is the state that all of the bytes
//! spell, and a fault other than want of memory comes only where they spell none.
#![tactic(auto)]

mod codecs;
mod kept_case;
mod kept_state;
mod reading;
mod writing;

pub use fm_bytes::{NoMemory, ReadFault};
pub use kept_case::KeptCase;
pub use kept_state::KeptState;
pub use reading::take_state;
pub use writing::{put_case, put_moments, version_of};
