//! A turn as far as it has come.

use crate::told::Told;
use crate::tracked::Tracked;
use dx_case::Starts;

/// A turn as far as it has come: the open cases, what was found for nodes that open some, the
/// number of the next one, and what was told.
#[derive(Drop)]
pub struct Work {
    pub cases: Vec<Tracked>,
    pub starts: Starts,
    pub next: u64,
    pub told: Told,
}
