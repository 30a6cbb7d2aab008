//! The parts of a state that a diagnosis module works on.

use dx_case::Case;
use dx_kept::KeptCase;
use dx_serd::Engine;
use fm_entry::ListEvent;

/// The parts of a state: the number of its configuration, its time, the number of the next case,
/// the open cases at that time, the last words of solved ones, and the engines.
#[derive(Drop)]
pub struct Loaded {
    pub conf: u32,
    pub time: u64,
    pub next: u64,
    pub cases: Vec<Case>,
    pub solved: Vec<ListEvent>,
    pub engines: Vec<Engine>,
}

/// The same parts, to be saved: the open cases as they are kept.
#[derive(Drop)]
pub struct Parts<'a> {
    pub conf: u32,
    pub time: u64,
    pub next: u64,
    pub cases: &'a [KeptCase],
    pub solved: &'a [ListEvent],
    pub engines: &'a [Engine],
}
