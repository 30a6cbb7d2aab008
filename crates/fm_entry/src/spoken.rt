//! Records of words spoken.

use crate::list_event::ListEvents;
use fm_bytes::{Copies, NoMemory};
use std::alloc::Global;

/// What a module said at the entry with this number.
#[derive(Drop)]
pub struct Spoken {
    pub module: u32,
    /// Below 2^46.
    pub number: u64,
    pub events: ListEvents,
}

impl Copies for Spoken {
    fn copy(&self, alloc: Global) -> Result<Spoken, NoMemory> {
        Ok(Spoken {
            module: self.module,
            number: self.number,
            events: self.events.copy(alloc)?,
        })
    }
}
