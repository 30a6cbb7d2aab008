//! What comes back where a store was not made or not opened.

use fm_logs::{Disks, StoreFault};

/// What was asked did not come about, and the disks are handed back.
#[derive(Drop)]
pub struct StoreRefused<D> {
    pub disks: Disks<D>,
    pub fault: StoreFault,
}
