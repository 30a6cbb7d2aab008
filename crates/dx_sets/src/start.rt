//! The beginning: all nodes are in the set, and then those leave that nothing gives or that don't
//! show enough.

ghost use Rattle.std.specs.Prelude.{◌≡◌, ◌<◌, [], length, not};
ghost use Rattle.std.specs.Bool.{OnTrue};
ghost use Rattle.std.specs.List.{count_by};
ghost use Rattle.ev_incidence.specs.Table.{row_at, IsIncidence};
ghost use Rattle.dx_sets.specs.Engine.{uncut, AreSized, AreExact, AreGiven, IsOnWay, IsSteady};
ghost use Rattle.dx_sets.specs.Engine.{has_enough, HaveEnough};
ghost use Rattle.dx_sets.specs.Engine.{SettlesTo, is_giver, AreFilled, HaveCounts, is_ungiven};

use crate::engine::{remove_causes_of, settle};
use crate::sets::Sets;
use crate::steps::Steps;
use ev_graph::CutTest;
use ev_incidence::Incidence;
use std::marker::Brand;
use std::sync::ledger::{Blank, Ledger};

/// How many effects of the instance have a link that is not cut.
fn count_uncut<C: CutTest>(table: &Incidence, cuts: &C, place: u32) -> u32
    ensures { result ≡ length (uncut table.now (C.is_cut cuts.now) place) }
{
    let effects = table.effects(place);
    effects
        .iter()
        .filter(|effect| !cuts.has(place, **effect))
        .count() as u32
}

/// Whether the instance has K causes.
fn has_enough(table: &Incidence, place: u32) -> bool
    ensures { result ≡ has_enough table.now place }
{
    table.k(place) as usize <= table.causes(place).len()
}

/// Whether each instance has K causes.
fn all_have_enough(table: &Incidence) -> bool
    ensures { OnTrue result (HaveEnough table.now (length table.now.causes)) }
{
    let count = table.count() as u32;
    for place in 0..count {
        if !has_enough(table, place) {
            return false;
        }
    }
    true
}

/// Whether the instance gives the node at the beginning.
fn is_giver<C: CutTest>(table: &Incidence, cuts: &C, node: u32, place: u32) -> bool
    ensures { result ≡ is_giver table.now (C.is_cut cuts.now) node place }
{
    !cuts.has(place, node) && has_enough(table, place)
}

/// How many instances have the node as an effect by a link that is not cut.
fn count_uncut_gets<C: CutTest>(table: &Incidence, cuts: &C, node: u32) -> u32
    ensures { result ≡ count_by (λ j. not (C.is_cut cuts.now j node)) (row_at table.now.gets node) }
{
    let places = table.gets(node);
    places
        .iter()
        .filter(|place| !cuts.has(**place, node))
        .count() as u32
}

/// How many instances give the node at the beginning; where all have K causes, none is asked again.
fn count_givers<C: CutTest>(table: &Incidence, cuts: &C, all: bool, node: u32) -> u32
    requires incidence { IsIncidence table.now }
    requires all { OnTrue all (HaveEnough table.now (length table.now.causes)) }
    ensures { result ≡ count_by (is_giver table.now (C.is_cut cuts.now) node)
        (row_at table.now.gets node) }
{
    if all {
        return count_uncut_gets(table, cuts, node);
    }
    let places = table.gets(node);
    places
        .iter()
        .filter(|place| is_giver(table, cuts, node, **place))
        .count() as u32
}

fn fill_instances<C: CutTest>(table: &Incidence, cuts: &C, sets: &mut Sets)
    requires { AreSized table.now sets.old }
    ensures counts { HaveCounts table.now (C.is_cut cuts.now) (length table.now.causes) sets.new }
    ensures sized { AreSized table.now sets.new }
    ensures same { sets.new ≡ record sets.old {
      causes_left = sets.new.causes_left;
      effects_left = sets.new.effects_left;
    } }
{
    let count = table.count() as u32;
    for place in 0..count {
        let causes = table.causes(place).len() as u32;
        let effects = count_uncut(table, cuts, place);
        sets.set_counts(place, causes, effects);
    }
}

/// Puts all nodes into the set, and counts.
pub fn fill<C: CutTest>(table: &Incidence, cuts: &C, sets: &mut Sets)
    requires sized { AreSized table.now sets.old }
    requires incidence { IsIncidence table.now }
    ensures exact { AreExact table.now (C.is_cut cuts.now) sets.new [] [] }
    ensures all { AreFilled table.now sets.new }
{
    sets.mark_all();
    fill_instances(table, cuts, sets);
    let all = all_have_enough(table);
    let count = table.nodes() as u32;
    for node in 0..count {
        sets.set_support(node, count_givers(table, cuts, all, node));
    }
}

/// Whether nothing gives the node, which is not the root.
fn is_ungiven(sets: &Sets, node: u32, root: u32) -> bool
    ensures { result ≡ is_ungiven sets.now node root }
{
    sets.support(node) == 0 && node != root
}

fn remove_ungiven<C: CutTest>(table: &Incidence, cuts: &C, root: u32, sets: &mut Sets)
    requires incidence { IsIncidence table.now }
    requires exact { AreExact table.now (C.is_cut cuts.now) sets.old [] [] }
    ensures exact { AreExact table.now (C.is_cut cuts.now) sets.new [] [] }
    ensures given { AreGiven root sets.new }
    ensures goes { IsOnWay table.now (C.is_cut cuts.now) root sets.old sets.new }
{
    let count = table.nodes() as u32;
    for node in 0..count {
        if is_ungiven(sets, node, root) {
            sets.remove(node);
        }
    }
}

fn remove_unmet<C: CutTest, L: Ledger>(
    table: &Incidence,
    cuts: &C,
    root: u32,
    sets: &mut Sets,
    steps: &mut Steps<L>,
)
    requires incidence { IsIncidence table.now }
    requires exact { AreExact table.now (C.is_cut cuts.now) sets.old [] [] }
    requires given { AreGiven root sets.old }
    ensures steady { IsSteady table.now (C.is_cut cuts.now) root sets.new }
    ensures goes { IsOnWay table.now (C.is_cut cuts.now) root sets.old sets.new }
{
    let count = table.count() as u32;
    for place in 0..count {
        if sets.effects_left(place) < table.n(place) {
            remove_causes_of(table, place, sets, steps);
        }
    }
}

fn begin_counted<C: CutTest, L: Ledger>(
    table: &Incidence,
    cuts: &C,
    root: u32,
    sets: &mut Sets,
    blank: Blank,
)
    requires name { blank.name ≡ L.name }
    requires parts { blank.parts ≡ L.parts }
    requires some { 0 < blank.parts }
    requires incidence { IsIncidence table.now }
    requires exact { AreExact table.now (C.is_cut cuts.now) sets.old [] [] }
    ensures steady { IsSteady table.now (C.is_cut cuts.now) root sets.new }
    ensures over { sets.new.pending ≡ [] }
    ensures settles { SettlesTo table.now (C.is_cut cuts.now) root sets.old sets.new }
{
    let mut steps = Steps::<L>::open(blank);
    remove_ungiven(table, cuts, root, sets);
    remove_unmet(table, cuts, root, sets, &mut steps);
    settle(table, cuts, root, sets, &mut steps);
}

/// Brings a set whose counters are right to the greatest fit set in it.
pub fn begin<C: CutTest>(table: &Incidence, cuts: &C, root: u32, sets: &mut Sets)
    requires incidence { IsIncidence table.now }
    requires exact { AreExact table.now (C.is_cut cuts.now) sets.old [] [] }
    ensures steady { IsSteady table.now (C.is_cut cuts.now) root sets.new }
    ensures over { sets.new.pending ≡ [] }
    ensures settles { SettlesTo table.now (C.is_cut cuts.now) root sets.old sets.new }
{
    begin_counted::<C, Brand>(table, cuts, root, sets, Blank::new(1));
}
