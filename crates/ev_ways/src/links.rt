//! The arrows that are searched, with an index in each direction.
ghost use Rattle.std.specs.Prelude.{◌≡◌, ◌<◌, ◌^◌, length};
ghost use Rattle.ev_ways.specs.Lists.{IsTurned, RowsBelow};

use fm_bytes::Items;

/// The arrows, and for each node those of which it is a cause and those of which it is an effect.
#[derive(Drop)]
pub(crate) struct Links<'a> {
    pub(crate) causes: &'a [Items<u32>],
    pub(crate) effects: &'a [Items<u32>],
    /// For each node, the arrows of which it is a cause.
    pub(crate) uses: &'a [Items<u32>],
    /// For each node, the arrows of which it is an effect.
    pub(crate) gets: &'a [Items<u32>],
    ghost arrows: { length causes.now ≡ length effects.now },
    ghost nodes: { length gets.now ≡ length uses.now },
    ghost few: { length uses.now < 2 ^ 32 },
    ghost causes_below: { RowsBelow (length uses.now) causes.now },
    ghost effects_below: { RowsBelow (length uses.now) effects.now },
    ghost uses_below: { RowsBelow (length effects.now) uses.now },
    ghost gets_below: { RowsBelow (length effects.now) gets.now },
    ghost uses_turn: { IsTurned causes.now uses.now },
    ghost gets_turn: { IsTurned effects.now gets.now },
}

impl<'a> Links<'a> {
    /// The same arrows, each from its effects to its causes.
    pub(crate) fn turned(&self) -> Links<'a>
        ensures causes { result.causes.now ≡ self.now.effects.now }
        ensures effects { result.effects.now ≡ self.now.causes.now }
        ensures nodes { length result.uses.now ≡ length self.now.uses.now }
    {
        Links {
            causes: self.effects,
            effects: self.causes,
            uses: self.gets,
            gets: self.uses,
        }
    }

    /// The number of nodes.
    pub(crate) fn count(&self) -> u32
        ensures { result ≡ length self.now.uses.now }
    {
        self.uses.len() as u32
    }
}
