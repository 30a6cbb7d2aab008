// A source that notes what it is asked.
use fm_outer::{Failed, Source};

/// A source that notes how often it was called, and the most bytes that it was asked for at once.
#[derive(Drop)]
pub struct Noting<S> {
    source: S,
    calls: u64,
    most: usize,
}

impl<S> Noting<S> {
    /// A source that was not yet called.
    pub fn new(source: S) -> Noting<S> {
        Noting {
            source,
            calls: 0,
            most: 0,
        }
    }

    /// How often it was called.
    pub fn calls(&self) -> u64 {
        self.calls
    }

    /// The most bytes that it was asked for at once.
    pub fn most(&self) -> usize {
        self.most
    }
}

impl<S: Source> Source for Noting<S> {
    ghost left = { λ n. S.left n.source };

    ghost failures = { λ n. S.failures n.source };

    fn next(&mut self, buf: &mut [u8]) -> Result<usize, Failed> {
        self.calls = self.calls.saturating_add(1);
        self.most = self.most.max(buf.len());
        self.source.next(buf)
    }
}
