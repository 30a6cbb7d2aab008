//! The greatest story of a root.

ghost use Rattle.std.specs.Prelude.{◌≡◌, ◌<◌, ◌^◌, ◌&&◌, [], Ok, None, IfOk, IfSome, not, true};
ghost use Rattle.std.specs.Prelude.{length};
ghost use Rattle.std.specs.Bool.{OnTrue, OnFalse};
ghost use Rattle.std.specs.List.{list_all};
ghost use Rattle.ev_incidence.specs.Sets.{ascends, is_member};
ghost use Rattle.ev_graph.specs.Kinds.{is_root_node};
ghost use Rattle.ev_graph.specs.Cutting.{AreLinks, is_cut, without};
ghost use Rattle.ev_graph.specs.Wired.{wiring};
ghost use Rattle.dx_sets.specs.Fit.{IsGreatestFit};
ghost use Rattle.dx_sets.specs.Engine.{HaveLeftBelow};
ghost use Rattle.dx_explain.specs.Explaining.{may_stay, set_of, FitsGraph, AreMembers, IsPossible};
ghost use Rattle.dx_explain.specs.Explaining.{IsExplanation, IsExplanationList};

use dx_sets::{Sets, begin, fill};
use ev_graph::{
    CutList, CutTest, Graph, Link, NoMemory, Node, contains, is_report_node, is_root_node,
};
use std::alloc::Global;
use std::marker::Model;

/// Room for one explanation at a time. It takes 13 bytes a node and 8 an instance.
#[derive(Drop)]
pub struct Scratch {
    sets: Sets,
}

impl Model for Scratch {
    ghost use Rattle.dx_sets.specs.Sets.{SetsValue};

    ghost Value = { SetsValue };

    ghost view = { λ s. s.sets };
}

impl Scratch {
    /// Room for graphs with as many nodes and instances as this one.
    pub fn new(alloc: Global, graph: &Graph) -> Result<Scratch, NoMemory>
        ensures { IfOk result (λ room. FitsGraph graph.now room) }
    {
        let sets = Sets::new(alloc, graph.node_count(), graph.instances().len())?;
        Ok(Scratch { sets })
    }

    /// Whether the node is in the set that was found last.
    pub fn has(&self, node: u32) -> bool
        ensures { result ≡ set_of self.now node }
    {
        self.sets.has(node)
    }
}

/// Whether the node may be in a story of the root: it is no other root, and no report but one of
/// these.
fn may_stay(nodes: &[Node], root: u32, allowed: &[u32], node: u32) -> bool
    requires { ascends allowed.now ≡ true }
    ensures { result ≡ may_stay nodes.now root (is_member allowed.now) node }
{
    (!is_root_node(nodes, node) || node == root)
        && (!is_report_node(nodes, node) || contains(allowed, node))
}

/// Takes out of the set what may not be in a story of the root.
fn withhold(nodes: &[Node], root: u32, allowed: &[u32], sets: &mut Sets)
    requires ascend { ascends allowed.now ≡ true }
    requires few { length sets.old.marks < 2 ^ 32 }
    ensures { HaveLeftBelow (λ e. not (may_stay nodes.now root (is_member allowed.now) e))
        (length sets.old.marks) sets.old sets.new }
{
    let count = sets.nodes() as u32;
    for node in 0..count {
        if !may_stay(nodes, root, allowed, node) {
            sets.remove(node);
        }
    }
}

/// No links, as a test of which links are cut that looks nowhere.
#[derive(Drop)]
struct NoLinks<'a> {
    less: &'a [Link],
    ghost none: { less.now ≡ [] },
}

impl CutTest for NoLinks<'_> {
    ghost is_cut = { λ cuts. is_cut cuts.less.now };

    fn has(&self, instance: u32, effect: u32) -> bool {
        let _ = (instance, effect);
        false
    }
}

/// Finds the greatest set within what may stay, in the graph less the links that are cut, in which
/// each member but the root is produced and each shows enough.
fn solve_by<C: CutTest>(graph: &Graph, cuts: &C, root: u32, allowed: &[u32], sets: &mut Sets)
    requires ascend { ascends allowed.now ≡ true }
    requires root { is_root_node graph.now.nodes root ≡ true }
    requires room { FitsGraph graph.now sets.old }
    ensures greatest { IsGreatestFit (without (wiring graph.now.instances) (C.is_cut cuts.now)) root
        (may_stay graph.now.nodes root (is_member allowed.now)) (set_of sets.new) }
    ensures room { FitsGraph graph.now sets.new }
{
    let table = graph.incidence();
    fill(table, cuts, sets);
    withhold(graph.nodes(), root, allowed, sets);
    begin(table, cuts, root, sets);
}

/// The same in the graph less these links.
fn solve(graph: &Graph, less: &[Link], root: u32, allowed: &[u32], sets: &mut Sets)
    requires links { AreLinks (wiring graph.now.instances) less.now }
    requires ascend { ascends allowed.now ≡ true }
    requires root { is_root_node graph.now.nodes root ≡ true }
    requires room { FitsGraph graph.now sets.old }
    ensures greatest { IsGreatestFit (without (wiring graph.now.instances) (is_cut less.now)) root
        (may_stay graph.now.nodes root (is_member allowed.now)) (set_of sets.new) }
    ensures room { FitsGraph graph.now sets.new }
{
    if less.is_empty() {
        let cuts = NoLinks { less };
        solve_by(graph, &cuts, root, allowed, sets);
    } else {
        let cuts = CutList { less };
        solve_by(graph, &cuts, root, allowed, sets);
    }
}

fn has_all(sets: &Sets, seen: &[u32]) -> bool
    ensures { result ≡ list_all (set_of sets.now) seen.now }
{
    seen.iter().all(|number| sets.has(*number))
}

fn has_root_and_all(sets: &Sets, root: u32, seen: &[u32]) -> bool
    ensures { result ≡ (set_of sets.now root && list_all (set_of sets.now) seen.now) }
{
    sets.has(root) && has_all(sets, seen)
}

/// Whether some story of the root, in the graph less these links of it, has all that was seen and
/// no report but those allowed, which ascend. Then the room has the greatest story with no other
/// report.
pub fn explain_in(
    graph: &Graph,
    less: &[Link],
    root: u32,
    seen: &[u32],
    allowed: &[u32],
    room: &mut Scratch,
) -> bool
    requires links { AreLinks (wiring graph.now.instances) less.now }
    requires ascend { ascends allowed.now ≡ true }
    requires room { FitsGraph graph.now room.old }
    ensures possible { OnTrue result (IsExplanation graph.now (is_cut less.now) root
        (is_member seen.now) (is_member allowed.now) (set_of room.new)) }
    ensures impossible { OnFalse result (IsPossible graph.now (is_cut less.now) root
        (is_member seen.now) (is_member allowed.now) → ⊥) }
    ensures room { FitsGraph graph.now room.new }
{
    if !is_root_node(graph.nodes(), root) {
        return false;
    }
    solve(graph, less, root, allowed, &mut room.sets);
    has_root_and_all(&room.sets, root, seen)
}

/// The members of the set, ascending.
fn members_of(alloc: Global, sets: &Sets) -> Result<Vec<u32>, NoMemory>
    requires { length sets.now.marks < 2 ^ 32 }
    ensures { IfOk result
        (λ list. AreMembers (set_of sets.now) (length sets.now.marks) list.items) }
{
    let mut list = Vec::new(alloc);
    let count = sets.nodes() as u32;
    for node in 0..count {
        if sets.has(node) {
            list.push(node)?;
        }
    }
    Ok(list)
}

/// The greatest story of the root whose reports are among those allowed, which ascend, if it has
/// all that was seen; its nodes ascend. There is none where no such story has all of that.
pub fn explain(
    alloc: Global,
    graph: &Graph,
    root: u32,
    seen: &[u32],
    allowed: &[u32],
) -> Result<Option<Vec<u32>>, NoMemory>
    requires { ascends allowed.now ≡ true }
    ensures found { IfOk result (λ found. IfSome found (λ list.
        IsExplanationList graph.now (is_cut []) root (is_member seen.now) (is_member allowed.now)
        list.items)) }
    ensures none { result ≡ Ok None → IsPossible graph.now (is_cut []) root (is_member seen.now)
        (is_member allowed.now) → ⊥ }
{
    let mut room = Scratch::new(alloc, graph)?;
    if !explain_in(graph, &[], root, seen, allowed, &mut room) {
        return Ok(None);
    }
    let list = members_of(alloc, &room.sets)?;
    Ok(Some(list))
}
