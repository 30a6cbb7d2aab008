//! Changes of live sets: links that are cut, and reports that go.

ghost use Rattle.std.specs.Prelude.{◌≡◌, ◌<◌, ◌≤◌, [], true, false};
ghost use Rattle.std.specs.List.{list_all};
ghost use Rattle.ev_incidence.specs.Sets.{ascends};
ghost use Rattle.ev_graph.specs.Kinds.{is_report_node};
ghost use Rattle.dx_live.specs.Live.{IsLiveOf};
ghost use Rattle.dx_case.specs.Changes.{node_within, is_over, goes, gone_of, IsChanged, AreChanged};
ghost use Rattle.dx_case.specs.Changes.{AreLivesOf};
ghost use Rattle.dx_case.specs.Cases.{AreAwaited};

use crate::candidate::Candidate;
use dx_live::{Live, Steps};
use ev_graph::{Graph, Link, Node, NodeKind, contains};
use std::marker::Brand;
use std::sync::ledger::{Blank, Ledger};

/// Links that are cut, and reports of which those go that were not observed and whose windows are
/// over at an age of the case; without an age, all that were not observed.
#[derive(Drop)]
pub(crate) struct Change<'a> {
    pub(crate) links: &'a [Link],
    pub(crate) reports: &'a [u32],
    pub(crate) observed: &'a [u32],
    pub(crate) age: Option<u64>,
}

/// How long others are awaited after a report of the node, 0 for what is no report.
fn within_of(nodes: &[Node], node: u32) -> u64
    ensures { result ≡ node_within nodes.now node }
{
    match nodes.get(node as usize) {
        Some(found) => match found.kind {
            NodeKind::Report { within } => within,
            _ => 0,
        },
        None => 0,
    }
}

fn is_over(nodes: &[Node], age: Option<u64>, report: u32) -> bool
    ensures { result ≡ is_over nodes.now age report }
{
    match age {
        Some(age) => within_of(nodes, report) < age,
        None => true,
    }
}

fn goes(nodes: &[Node], observed: &[u32], age: Option<u64>, report: u32) -> bool
    requires { ascends observed.now ≡ true }
    ensures { result ≡ goes nodes.now observed.now age report }
{
    !contains(observed, report) && is_over(nodes, age, report)
}

/// Cuts links of a live set.
fn cut_all<L: Ledger>(graph: &Graph, links: &[Link], live: &mut Live, steps: &mut Steps<L>)
    requires { IsLiveOf graph.now live.old }
    ensures { IsChanged graph.now links.now (λ e. false) live.old live.new }
{
    for link in links {
        live.cut(graph, *link, steps);
    }
}

/// Takes those reports out of a live set that go.
fn lose_all<L: Ledger>(
    graph: &Graph,
    reports: &[u32],
    observed: &[u32],
    age: Option<u64>,
    live: &mut Live,
    steps: &mut Steps<L>,
)
    requires live { IsLiveOf graph.now live.old }
    requires ascend { ascends observed.now ≡ true }
    requires reports { list_all (is_report_node graph.now.nodes) reports.now ≡ true }
    ensures { IsChanged graph.now [] (gone_of graph.now.nodes reports.now observed.now age)
        live.old live.new }
{
    for report in reports {
        if goes(graph.nodes(), observed, age, *report) {
            live.shrink(graph, *report, steps);
        }
    }
}

/// Makes a change of a live set.
fn change_live<L: Ledger>(graph: &Graph, change: &Change<'_>, live: &mut Live, steps: &mut Steps<L>)
    requires live { IsLiveOf graph.now live.old }
    requires ascend { ascends change.now.observed.now ≡ true }
    requires reports { list_all (is_report_node graph.now.nodes) change.now.reports.now ≡ true }
    ensures { IsChanged graph.now change.now.links.now (gone_of graph.now.nodes
        change.now.reports.now change.now.observed.now change.now.age) live.old live.new }
{
    cut_all(graph, change.links, live, steps);
    lose_all(
        graph,
        change.reports,
        change.observed,
        change.age,
        live,
        steps,
    );
}

/// Makes a change of each candidate.
fn change_counted<L: Ledger>(
    graph: &Graph,
    change: &Change<'_>,
    candidates: &mut [Candidate],
    blank: Blank,
)
    requires name { blank.name ≡ L.name }
    requires parts { blank.parts ≡ L.parts }
    requires some { 0 < blank.parts }
    requires lives { AreLivesOf graph.now candidates.old }
    requires ascend { ascends change.now.observed.now ≡ true }
    requires reports { list_all (is_report_node graph.now.nodes) change.now.reports.now ≡ true }
    ensures { AreChanged graph.now change.now.links.now (gone_of graph.now.nodes
        change.now.reports.now change.now.observed.now change.now.age)
        candidates.old candidates.new }
{
    let mut steps: Steps<L> = Steps::open(blank);
    for at in 0..candidates.len() {
        change_live(graph, change, &mut candidates[at].live, &mut steps);
    }
}

/// Makes a change of each candidate. It takes no memory.
pub(crate) fn change_each(graph: &Graph, change: &Change<'_>, candidates: &mut [Candidate])
    requires lives { AreLivesOf graph.now candidates.old }
    requires ascend { ascends change.now.observed.now ≡ true }
    requires reports { list_all (is_report_node graph.now.nodes) change.now.reports.now ≡ true }
    ensures { AreChanged graph.now change.now.links.now (gone_of graph.now.nodes
        change.now.reports.now change.now.observed.now change.now.age)
        candidates.old candidates.new }
{
    change_counted::<Brand>(graph, change, candidates, Blank::new(1));
}

/// The age up to which each of these reports whose window is not over at another age is awaited.
pub(crate) fn awaited_until(nodes: &[Node], reports: &[u32], age: u64) -> u64
    ensures { AreAwaited nodes.now reports.now age result }
{
    let mut until = u64::MAX;
    for report in reports {
        until = sooner(age, within_of(nodes, *report), until);
    }
    until
}

/// The lesser of two ages, where the first is not before an age; else the second.
fn sooner(age: u64, within: u64, until: u64) -> u64
    ensures kept { result ≤ until }
    ensures within { age ≤ within → result ≤ within }
{
    if within < age {
        return until;
    }
    until.min(within)
}
