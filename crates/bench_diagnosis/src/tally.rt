// What an operation came to.

/// How many entries were taken, how many words were said, and how many cases are open and solved.
#[derive(Clone, Copy, Drop)]
pub struct Tally {
    pub entries: u64,
    pub words: u64,
    pub open: u64,
    pub solved: u64,
}

impl Tally {
    /// The same with another's words and cases.
    pub fn with(self, other: Tally) -> Tally {
        Tally {
            entries: self.entries,
            words: self.words.saturating_add(other.words),
            open: self.open.saturating_add(other.open),
            solved: self.solved.saturating_add(other.solved),
        }
    }
}
