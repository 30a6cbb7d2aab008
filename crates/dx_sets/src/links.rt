//! A link that is cut: the instance gives the effect no more, and has an effect less.

ghost use Rattle.std.specs.Prelude.{◌≡◌, ◌+◌, ◌<◌, [], slice_index};
ghost use Rattle.ev_incidence.specs.Sets.{occurs};
ghost use Rattle.dx_sets.specs.Engine.{uncut, IsSteady, cost};
ghost use Rattle.dx_sets.specs.Links.{GiftIsLost, EffectLeaves, LinkIsLost};

use crate::engine::{lose_giver, remove_causes_of};
use crate::sets::Sets;
use crate::steps::Steps;
use ev_graph::{CutTest, Link};
use ev_incidence::Incidence;
use std::sync::ledger::Ledger;

/// Where the instance gives its effects, the effect of the link has one giver fewer.
fn lose_gift<C: CutTest>(table: &Incidence, cuts: &C, link: Link, root: u32, sets: &mut Sets)
    requires steady { IsSteady table.now (C.is_cut cuts.now) root sets.old }
    requires once { occurs link.effect (uncut table.now (C.is_cut cuts.now) link.instance) ≡ 1 }
    ensures { GiftIsLost table.now (C.is_cut cuts.now) root link sets.old sets.new }
{
    let _ = cuts;
    if table.k(link.instance) <= sets.causes_left(link.instance) {
        lose_giver(sets, link.effect, root);
    }
}

/// The instance has an effect less: where too few are left, its causes leave.
fn lose_effect_at<L: Ledger>(table: &Incidence, place: u32, sets: &mut Sets, steps: &mut Steps<L>)
    requires { 0 < slice_index sets.old.effects_left place }
    ensures { EffectLeaves table.now place sets.old steps.old sets.new steps.new }
{
    if sets.effects_left(place) == table.n(place) {
        remove_causes_of(table, place, sets, steps);
    }
    sets.lose_effect(place);
}

/// A link of a steady set, of which nothing waits to be looked at, counts no more: what may not
/// stay without it is to be looked at then.
pub fn lose_link<C: CutTest, L: Ledger>(
    table: &Incidence,
    cuts: &C,
    link: Link,
    root: u32,
    sets: &mut Sets,
    steps: &mut Steps<L>,
)
    requires steady { IsSteady table.now (C.is_cut cuts.now) root sets.old }
    requires over { sets.old.pending ≡ [] }
    requires once { occurs link.effect (uncut table.now (C.is_cut cuts.now) link.instance) ≡ 1 }
    ensures lost { LinkIsLost table.now (C.is_cut cuts.now) root link sets.old sets.new }
    ensures cost { steps.new + cost table.now sets.new ≡ steps.old + cost table.now sets.old + 1 }
{
    steps.tick();
    let was_in = sets.has(link.effect);
    lose_gift(table, cuts, link, root, sets);
    if was_in {
        lose_effect_at(table, link.instance, sets, steps);
    }
}
