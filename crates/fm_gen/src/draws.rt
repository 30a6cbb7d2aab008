//! TurnDraws: a linear congruential generator with a state of 64 bits.

ghost use Rattle.std.specs.Prelude.{◌≡◌};
ghost use Rattle.fm_gen.specs.Generated.{drawn, draw_of};

const FACTOR: u64 = 6_364_136_223_846_793_005;

const INCREMENT: u64 = 1_442_695_040_888_963_407;

/// What is drawn for one turn.
#[derive(Clone, Copy, Drop)]
pub struct TurnDraws {
    /// The first number, which picks the event.
    pub event: u64,
    /// The second number, of which the delay is made.
    pub delay: u64,
    /// The state after both.
    pub state: u64,
}

impl TurnDraws {
    /// What two draws from a state give.
    pub fn from_state(state: u64) -> TurnDraws
        ensures event { result.event ≡ draw_of (drawn state) }
        ensures delay { result.delay ≡ draw_of (drawn (drawn state)) }
        ensures state { result.state ≡ drawn (drawn state) }
    {
        let picking = drawn(state);
        let delaying = drawn(picking);
        TurnDraws {
            event: draw_of(picking),
            delay: draw_of(delaying),
            state: delaying,
        }
    }
}

/// The state after a draw.
#[tactic(auto, using(crate::proofs::Remainders::drawn_is))]
fn drawn(state: u64) -> u64
    ensures { result ≡ drawn state }
{
    state.wrapping_mul(FACTOR).wrapping_add(INCREMENT)
}

/// The number that a draw gives, of the state that it leaves: its 31 high bits.
fn draw_of(state: u64) -> u64
    ensures { result ≡ draw_of state }
{
    state >> 33
}
