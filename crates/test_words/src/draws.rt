// Numbers that follow from a first one, for tests of what is drawn.
/// A state that gives numbers, each from the one before it.
#[derive(Drop)]
pub struct Draws {
    state: u64,
}

impl Draws {
    /// The numbers that follow from this one.
    pub fn new(seed: u64) -> Draws {
        Draws { state: seed }
    }

    /// The next number, below 2^16.
    fn draw(&mut self) -> u32 {
        self.state = self
            .state
            .wrapping_mul(6_364_136_223_846_793_005)
            .wrapping_add(1_442_695_040_888_963_407);
        ((self.state >> 40) & 65_535) as u32
    }

    /// Some of these bits.
    pub fn some_of(&mut self, bits: u32) -> u32 {
        self.draw() & bits
    }

    /// A number from 0 to the greatest.
    pub fn up_to(&mut self, greatest: u32) -> u32 {
        self.draw() % greatest.saturating_add(1).max(1)
    }

    /// Whether the next number is one of half of all.
    pub fn is_even(&mut self) -> bool {
        self.some_of(1) == 0
    }
}
