//! States as they are kept.

use crate::kept_case::KeptCase;
use fm_bytes::Items;
use fm_entry::ListEvent;

/// The state of a diagnosis module as it is kept.
#[derive(Drop)]
pub struct KeptState {
    pub conf: u32,
    pub time: u64,
    pub next: u64,
    pub open_cases: Items<KeptCase>,
    pub solved: Items<ListEvent>,
    pub engines: Items<Items<u64>>,
}
