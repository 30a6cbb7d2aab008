/// How many places a trail tells apart.
const TRAIL_LEN: usize = 64;

/// Which place was wanted after which. One trouble makes the same reports in the same order again
/// and again, so the place that came after a place the last time is a good guess at the next. It is
/// a guess alone: who takes it looks whether it is right, so nothing is promised of it.
#[derive(Clone, Copy, Drop)]
pub(crate) struct Trail {
    last: usize,
    next: [u16; TRAIL_LEN],
}

impl Trail {
    /// The trail before any place.
    pub(crate) fn new() -> Trail {
        Trail {
            last: 0,
            next: [0; TRAIL_LEN],
        }
    }

    /// The place that came next the last time.
    pub(crate) fn guess(&self) -> usize {
        usize::from(self.next[self.last % TRAIL_LEN])
    }

    /// Takes down the place that was wanted.
    pub(crate) fn follow(&mut self, place: usize) {
        self.next[self.last % TRAIL_LEN] = u16::try_from(place).unwrap_or(0);
        self.last = place;
    }
}
