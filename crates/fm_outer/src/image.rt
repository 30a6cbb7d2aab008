// Which image a crash leaves, where one is played.

/// What a crash leaves of the ranges that were written since the last sync.
#[derive(Clone, Copy, Debug, PartialEq, Eq)]
pub enum Image {
    /// What was there at the last sync.
    Old,
    /// What was written, also by a write that failed.
    New,
    /// This byte throughout.
    Fill(u8),
}
