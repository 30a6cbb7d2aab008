//! The configuration of a store.

ghost use Rattle.std.specs.Prelude.{◌≡◌, IfOk};

use crate::saved_bytes::SavedBytes;
use fm_bytes::{Copies, Items, NoMemory};
use std::alloc::Global;

/// A rule file or a topology, as the bytes that were handed in.
pub type ConfText = SavedBytes;

/// Rule files, in order.
pub type RuleFiles = Items<ConfText>;

/// What a store was made with: its namespace, its rule files, at most 8, and its topology.
#[derive(Drop)]
pub struct Conf {
    pub namespace: [u8; 16],
    pub rules: RuleFiles,
    pub topo: ConfText,
}

impl Copies for Conf {
    fn copy(&self, alloc: Global) -> Result<Conf, NoMemory> {
        Ok(Conf {
            namespace: self.namespace,
            rules: self.rules.copy(alloc)?,
            topo: self.topo.copy(alloc)?,
        })
    }
}
