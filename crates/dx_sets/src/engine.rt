//! How a set comes to the greatest one: what leaves is looked at, and with it may leave what it
//! gave and what it showed.

ghost use Rattle.std.specs.Prelude.{◌≡◌, ◌+◌, ◌<◌, [], length, slice_index};
ghost use Rattle.ev_incidence.specs.Table.{row_at, IsIncidence};
ghost use Rattle.dx_sets.specs.Engine.{uncut_gets, AreGiven, IsLooking, cost};
ghost use Rattle.dx_sets.specs.Engine.{hangs_by_one, left_if_last, giver_lost, IsOwed, IsPaying};
ghost use Rattle.dx_sets.specs.Engine.{CausesLeave};
ghost use Rattle.dx_sets.specs.Engine.{IsSteady, SettlesTo};

use crate::sets::Sets;
use crate::steps::Steps;
use ev_graph::CutTest;
use ev_incidence::Incidence;
use std::sync::ledger::Ledger;

/// Whether a node is given by one instance alone and is not the root.
fn hangs_by_one(sets: &Sets, node: u32, root: u32) -> bool
    ensures { result ≡ hangs_by_one sets.now node root }
{
    sets.support(node) == 1 && node != root
}

/// The node leaves if one instance alone gives it.
fn leave_if_last(sets: &mut Sets, node: u32, root: u32)
    ensures { sets.new ≡ left_if_last sets.old node root }
{
    if hangs_by_one(sets, node, root) {
        sets.remove(node);
    }
}

/// One instance gives a node no more: the node leaves if it was the last one.
pub(crate) fn lose_giver(sets: &mut Sets, node: u32, root: u32)
    requires { 0 < slice_index sets.old.support node }
    ensures { sets.new ≡ giver_lost sets.old node root }
{
    leave_if_last(sets, node, root);
    sets.lose_support(node);
}

/// The instance gives its effects no more, since too few of its causes are left.
fn lose_effects_of<C: CutTest, L: Ledger>(
    table: &Incidence,
    cuts: &C,
    place: u32,
    root: u32,
    sets: &mut Sets,
    steps: &mut Steps<L>,
)
    requires owed { IsOwed table.now (C.is_cut cuts.now) place sets.old }
    requires given { AreGiven root sets.old }
    ensures paid { IsPaying table.now (C.is_cut cuts.now) root [] sets.old sets.new }
    ensures cost { steps.new ≡ steps.old + length (row_at table.now.effects place) }
{
    for effect in table.effects(place) {
        steps.tick();
        if !cuts.has(place, *effect) {
            lose_giver(sets, *effect, root);
        }
    }
}

/// The causes of an instance leave.
pub(crate) fn remove_causes_of<L: Ledger>(
    table: &Incidence,
    place: u32,
    sets: &mut Sets,
    steps: &mut Steps<L>,
)
    ensures leave { CausesLeave table.now place sets.old sets.new }
    ensures cost { steps.new ≡ steps.old + length (row_at table.now.causes place) }
{
    for cause in table.causes(place) {
        steps.tick();
        sets.remove(*cause);
    }
}

/// A node is looked at: each instance that it is a cause of has a cause less, and where too few are
/// left, the instance gives its effects no more.
fn lose_causes<C: CutTest, L: Ledger>(
    table: &Incidence,
    cuts: &C,
    node: u32,
    root: u32,
    sets: &mut Sets,
    steps: &mut Steps<L>,
)
    requires incidence { IsIncidence table.now }
    requires looking { IsLooking table.now (C.is_cut cuts.now) root (row_at table.now.uses node)
        (uncut_gets table.now (C.is_cut cuts.now) node) sets.old sets.old }
    ensures looking { IsLooking table.now (C.is_cut cuts.now) root []
        (uncut_gets table.now (C.is_cut cuts.now) node) sets.old sets.new }
    ensures cost { steps.new + cost table.now sets.new
        ≡ steps.old + cost table.now sets.old + length (row_at table.now.uses node) }
{
    for place in table.uses(node) {
        steps.tick();
        let is_last = sets.causes_left(*place) == table.k(*place);
        sets.lose_cause(*place);
        if is_last {
            lose_effects_of(table, cuts, *place, root, sets, steps);
        }
    }
}

/// A node is looked at: each instance that it is an effect of has an effect less, and where too few
/// are left, the causes of the instance leave.
fn lose_effects<C: CutTest, L: Ledger>(
    table: &Incidence,
    cuts: &C,
    node: u32,
    root: u32,
    sets: &mut Sets,
    steps: &mut Steps<L>,
)
    requires incidence { IsIncidence table.now }
    requires looking { IsLooking table.now (C.is_cut cuts.now) root []
        (uncut_gets table.now (C.is_cut cuts.now) node) sets.old sets.old }
    ensures looking { IsLooking table.now (C.is_cut cuts.now) root [] [] sets.old sets.new }
    ensures cost { steps.new + cost table.now sets.new
        ≡ steps.old + cost table.now sets.old + length (row_at table.now.gets node) }
{
    for place in table.gets(node) {
        steps.tick();
        if !cuts.has(*place, node) {
            if sets.effects_left(*place) == table.n(*place) {
                remove_causes_of(table, *place, sets, steps);
            }
            sets.lose_effect(*place);
        }
    }
}

/// Looks at all that left, until nothing waits any more.
pub fn settle<C: CutTest, L: Ledger>(
    table: &Incidence,
    cuts: &C,
    root: u32,
    sets: &mut Sets,
    steps: &mut Steps<L>,
)
    requires { IsSteady table.now (C.is_cut cuts.now) root sets.old }
    ensures steady { IsSteady table.now (C.is_cut cuts.now) root sets.new }
    ensures over { sets.new.pending ≡ [] }
    ensures settles { SettlesTo table.now (C.is_cut cuts.now) root sets.old sets.new }
    ensures cost { steps.new + cost table.now sets.new ≡ steps.old + cost table.now sets.old }
{
    while let Some(node) = sets.pop_front() {
        steps.tick();
        lose_causes(table, cuts, node, root, sets, steps);
        lose_effects(table, cuts, node, root, sets, steps);
    }
}
