//! The set of one candidate root.

ghost use Rattle.std.specs.Prelude.{◌≡◌, ◌+◌, ◌*◌, ◌<◌, ◌≤◌, [], ℕ, true, false, length, IfOk};
ghost use Rattle.std.specs.Prelude.{◌^◌, nat_lt, slice_index, IfSome, None};
ghost use Rattle.ev_incidence.specs.Sets.{NodeSet, has_mark, is_member, ascends};
ghost use Rattle.ev_graph.specs.Kinds.{is_root_node, is_report_node};
ghost use Rattle.ev_incidence.specs.Table.{row_at, IsIncidence};
ghost use Rattle.ev_graph.specs.Lawful.{links};
ghost use Rattle.dx_sets.specs.Sets.{removed};
ghost use Rattle.dx_sets.specs.Engine.{CutsOf, IsSteady, SettlesTo, cost};
ghost use Rattle.dx_live.specs.Cuts.{mark_place, cut_at, AreCutsOf, CutIsMade};
ghost use Rattle.dx_live.specs.Region.{IsLinkOf, IsNoLinkOf};
ghost use Rattle.dx_live.specs.Live.{live_root, live_set, live_cost, IsLiveOf, IsLiveBest, no_cut};
ghost use Rattle.dx_live.specs.Live.{all_allowed, all_but, cut_with, HasEveryFit, BestIsGreatest};

use crate::cuts::{Cuts, LocalCuts, NoneCut};
use crate::region::{Region, place_among};
use dx_sets::{Sets, Steps, begin, fill, lose_link, settle};
use ev_graph::{CutTest, Graph, Link, NoMemory};
use ev_incidence::Incidence;
use std::alloc::Global;
use std::marker::Model;
use std::sync::ledger::Ledger;

/// The greatest story of one root, which shrinks while reports go and links are cut. It has room
/// for what the root reaches alone.
#[derive(Drop)]
pub struct Live {
    region: Region,
    sets: Sets,
    cuts: Cuts,
    /// The root, by its local number.
    here: u32,
}

impl Model for Live {
    ghost use Rattle.std.specs.Prelude.{◌≡◌, ◌<◌, true, length};
    ghost use Rattle.ev_incidence.specs.Sets.{ascends};
    ghost use Rattle.dx_live.specs.Live.{LiveValue};

    ghost Value = { LiveValue };

    ghost view = { λ l. record {
      region = l.region;
      sets = l.sets;
      cuts = l.cuts;
      here = l.here;
    } };

    ghost invariant = { λ l.
        (l.here < length l.region.nodes) × (ascends l.region.nodes ≡ true) };
}

/// The local number of the root.
fn number_of_root(nodes: &[u32], root: u32) -> u32
    requires ascend { ascends nodes.now ≡ true }
    requires few { length nodes.now < 2 ^ 32 }
    requires there { is_member nodes.now root ≡ true }
    ensures inside { result < length nodes.now }
    ensures is { slice_index nodes.now result ≡ root }
{
    match place_among(nodes, root) {
        Some(at) => at,
        None => 0,
    }
}

/// The greatest set of the nodes of a part, of which no link is cut, in which each member but the
/// root is produced and each shows enough.
fn first_sets(alloc: Global, table: &Incidence, cuts: &Cuts, here: u32) -> Result<Sets, NoMemory>
    requires none { (e : ℕ) → has_mark cuts.now.marks e ≡ false }
    requires incidence { IsIncidence table.now }
    ensures steady { IfOk result
        (λ sets. IsSteady table.now (cut_at table.now.effects cuts.now) here sets) }
    ensures over { IfOk result (λ sets. sets.pending ≡ []) }
    ensures every { IfOk result
        (λ sets. HasEveryFit table.now (cut_at table.now.effects cuts.now) here sets) }
{
    let mut sets = Sets::new(alloc, table.nodes(), table.count())?;
    let local = NoneCut { table, cuts };
    fill(table, &local, &mut sets);
    begin(table, &local, here, &mut sets);
    Ok(sets)
}

/// A member leaves, and with it what may not stay without it.
fn lose_member<C: CutTest, L: Ledger>(
    table: &Incidence,
    cuts: &C,
    here: u32,
    at: u32,
    sets: &mut Sets,
    steps: &mut Steps<L>,
)
    requires { IsSteady table.now (C.is_cut cuts.now) here sets.old }
    ensures steady { IsSteady table.now (C.is_cut cuts.now) here sets.new }
    ensures over { sets.new.pending ≡ [] }
    ensures settles { SettlesTo table.now (C.is_cut cuts.now) here (removed sets.old at) sets.new }
    ensures cost { steps.new + cost table.now sets.new ≡ steps.old + cost table.now sets.old }
{
    sets.remove(at);
    settle(table, cuts, here, sets, steps);
}

/// An effect whose mark stands at a place loses its link, and with it leaves what may not stay.
fn cut_there<L: Ledger>(
    table: &Incidence,
    link: Link,
    here: u32,
    at: usize,
    cuts: &mut Cuts,
    sets: &mut Sets,
    steps: &mut Steps<L>,
)
    requires cuts { AreCutsOf table.now.effects cuts.old }
    requires there { is_member (row_at table.now.effects link.instance) link.effect ≡ true }
    requires at { at ≡ mark_place cuts.old (row_at table.now.effects link.instance) link.instance
        link.effect }
    requires uncut { has_mark cuts.old.marks at ≡ false }
    requires steady { IsSteady table.now (cut_at table.now.effects cuts.old) here sets.old }
    requires over { sets.old.pending ≡ [] }
    ensures made { CutIsMade table.now here link cuts.old sets.old cuts.new sets.new }
    ensures cost { steps.new + cost table.now sets.new ≡ steps.old + cost table.now sets.old + 1 }
{
    let before = LocalCuts {
        table,
        cuts: &*cuts,
    };
    lose_link(table, &before, link, here, sets, steps);
    cuts.mark(at);
    let after = LocalCuts {
        table,
        cuts: &*cuts,
    };
    settle(table, &after, here, sets, steps);
}

/// A link by local numbers is cut, if it is one that is not cut yet.
fn cut_link<L: Ledger>(
    table: &Incidence,
    link: Link,
    here: u32,
    cuts: &mut Cuts,
    sets: &mut Sets,
    steps: &mut Steps<L>,
)
    requires cuts { AreCutsOf table.now.effects cuts.old }
    requires steady { IsSteady table.now (cut_at table.now.effects cuts.old) here sets.old }
    requires over { sets.old.pending ≡ [] }
    ensures made { CutIsMade table.now here link cuts.old sets.old cuts.new sets.new }
    ensures cost { steps.new + cost table.now sets.new ≤ steps.old + cost table.now sets.old + 1 }
    ensures counted { steps.old + cost table.now sets.old ≤ steps.new + cost table.now sets.new }
{
    let effects = table.effects(link.instance);
    match cuts.place_of(effects, link.instance, link.effect) {
        Some(at) => {
            if !cuts.has(at) {
                cut_there(table, link, here, at, cuts, sets, steps);
            }
        }
        None => {}
    }
}

/// The local numbers of a link, if its instance and its effect are of the part.
fn local_link(region: &Region, link: Link) -> Option<Link>
    ensures found { IfSome result
        (λ local. IsLinkOf region.now.nodes region.now.places link local) }
    ensures none { result ≡ None → IsNoLinkOf region.now.nodes region.now.places link }
{
    match place_among(region.places(), link.instance) {
        Some(instance) => match place_among(region.nodes(), link.effect) {
            Some(effect) => Some(Link { instance, effect }),
            None => None,
        },
        None => None,
    }
}

impl Live {
    /// The greatest story of the root, with all reports allowed and no link cut. It takes the time
    /// of what the root reaches and that of sorting it, or the time of the graph if the root
    /// reaches the most of it; while it runs, it takes 5 bytes for each node and one for each
    /// instance of the graph.
    pub fn new(alloc: Global, graph: &Graph, root: u32) -> Result<Live, NoMemory>
        requires { is_root_node graph.now.nodes root ≡ true }
        ensures live { IfOk result (λ live. IsLiveOf graph.now live) }
        ensures root { IfOk result (λ live. live_root live ≡ root) }
        ensures best { IfOk result (λ live. IsLiveBest graph.now no_cut all_allowed live) }
        ensures cost { IfOk result (λ live.
            live_cost graph.now live ≤ length graph.now.nodes + 2 * links graph.now.instances) }
    {
        let table = graph.incidence();
        let region = Region::new(alloc, table, root)?;
        let here = number_of_root(region.nodes(), root);
        let local = region.table(table);
        let cuts = Cuts::new(alloc, local)?;
        let sets = first_sets(alloc, local, &cuts, here)?;
        Ok(Live {
            region,
            sets,
            cuts,
            here,
        })
    }

    /// An equal one.
    pub fn copy(&self, alloc: Global) -> Result<Live, NoMemory>
        ensures { IfOk result (λ live. live ≡ self.now) }
    {
        let region = self.region.copy()?;
        let sets = self.sets.copy(alloc)?;
        let cuts = self.cuts.copy(alloc)?;
        Ok(Live {
            region,
            sets,
            cuts,
            here: self.here,
        })
    }

    /// A report goes, and with it what may not stay without it. It takes no memory.
    pub fn shrink<L: Ledger>(&mut self, graph: &Graph, gone: u32, steps: &mut Steps<L>)
        requires live { IsLiveOf graph.now self.old }
        requires report { is_report_node graph.now.nodes gone ≡ true }
        ensures live { IsLiveOf graph.now self.new }
        ensures root { live_root self.new ≡ live_root self.old }
        ensures best { (cut : CutsOf) (allowed : NodeSet)
            → IsLiveBest graph.now cut allowed self.old
            → IsLiveBest graph.now cut (all_but allowed gone) self.new }
        ensures cost { steps.new + live_cost graph.now self.new
            ≡ steps.old + live_cost graph.now self.old }
    {
        let whole = graph.incidence();
        match place_among(self.region.nodes(), gone) {
            Some(at) => {
                let table = self.region.table(whole);
                let cuts = LocalCuts {
                    table,
                    cuts: &self.cuts,
                };
                lose_member(table, &cuts, self.here, at, &mut self.sets, steps);
            }
            None => {}
        }
    }

    /// A link of an instance and an effect of it is cut, and with it goes what may not stay without
    /// it. It takes no memory.
    pub fn cut<L: Ledger>(&mut self, graph: &Graph, gone: Link, steps: &mut Steps<L>)
        requires { IsLiveOf graph.now self.old }
        ensures live { IsLiveOf graph.now self.new }
        ensures root { live_root self.new ≡ live_root self.old }
        ensures best { (cut : CutsOf) (allowed : NodeSet)
            → IsLiveBest graph.now cut allowed self.old
            → IsLiveBest graph.now (cut_with cut gone) allowed self.new }
        ensures cost { steps.new + live_cost graph.now self.new
            ≤ steps.old + live_cost graph.now self.old + 1 }
        ensures counted { steps.old + live_cost graph.now self.old
            ≤ steps.new + live_cost graph.now self.new }
    {
        let whole = graph.incidence();
        match local_link(&self.region, gone) {
            Some(link) => {
                let table = self.region.table(whole);
                cut_link(
                    table,
                    link,
                    self.here,
                    &mut self.cuts,
                    &mut self.sets,
                    steps,
                );
            }
            None => {}
        }
    }

    /// Whether the set has its root, so that it is a story.
    pub fn alive(&self) -> bool
        ensures { result ≡ live_set self.now (live_root self.now) }
    {
        self.sets.has(self.here)
    }

    /// Whether the node is in the set.
    pub fn has(&self, node: u32) -> bool
        ensures { result ≡ live_set self.now node }
    {
        match place_among(self.region.nodes(), node) {
            Some(at) => self.sets.has(at),
            None => false,
        }
    }

    /// How many nodes and instances its root reaches, or the graph has if those are the most.
    pub fn size(&self) -> usize
        ensures { result ≡ length self.now.region.nodes + length self.now.region.places }
    {
        self.region.nodes().len() + self.region.places().len()
    }
}

/// Where the set is the best one, it has the root exactly where there is a story, and then it is
/// the greatest.
pub fn best_is_greatest()
    ensures { BestIsGreatest }
{}
