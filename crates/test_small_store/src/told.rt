//! What a small store tells of itself.

use crate::small::SmallStore;

/// What a store tells: its base, the number of the next entry, and both cursors.
pub type Told = (u64, u64, u64, u64);

impl SmallStore {
    /// What the store tells; zeros where it has not two modules.
    pub fn told(&self) -> Told {
        if self.store.modules() != 2 {
            return (0, 0, 0, 0);
        }
        (
            self.store.base(),
            self.store.next_entry(),
            self.store.cursor(0),
            self.store.cursor(1),
        )
    }
}
