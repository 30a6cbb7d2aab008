//! What a store saves as one payload: a configuration, and a checkpoint.
//!
//! A configuration is the namespace of a store, its rule files and its topology, each as the bytes
//! that were handed in. A checkpoint says what is known at a base: which of two error journals is
//! the active one, the base, the greatest moment before it, the number of the configuration in
//! force there, and the saved state of each module.
//!
//! **Model.** Contracts see saved bytes as their list, and a configuration and a checkpoint as
//! records of them. What bytes spell a configuration is `conf_bytes`. A checkpoint has two
//! spellings: `checkpoint_bytes`, and an older one without the number of the configuration, which
//! reads as number 0 (`SpellsCheckpoint`).
//!
//! **Promises.** A reader answers the value exactly where the bytes spell it, and `None` exactly
//! where they spell none. A writer adds the spelling behind what the buffer holds, or leaves the
//! buffer as it was; a checkpoint is written in the newer spelling. Want of memory alone is free.
#![tactic(auto)]

mod checkpoint;
mod checkpoint_bytes;
mod conf;
mod conf_bytes;
mod saved_bytes;

pub use checkpoint::{Checkpoint, SavedStates};
pub use checkpoint_bytes::{read_checkpoint, write_checkpoint};
pub use conf::{Conf, ConfText, RuleFiles};
pub use conf_bytes::{read_conf, write_conf};
pub use fm_bytes::NoMemory;
pub use saved_bytes::SavedBytes;
