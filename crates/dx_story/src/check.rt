//! The checker of stories.

ghost use Rattle.std.specs.Prelude.{◌≡◌, ◌==◌, ◌↔◌, ◌&&◌, ◌||◌, not, [], IsTrue, true, slice_index};
ghost use Rattle.std.specs.List.{count_by, filter, list_all, list_any};
ghost use Rattle.ev_incidence.specs.Sets.{is_member, ascends};
ghost use Rattle.ev_graph.specs.Kinds.{is_root_node, is_report_node};
ghost use Rattle.ev_incidence.specs.Table.{row_at};
ghost use Rattle.ev_graph.specs.Wired.{wiring};
ghost use Rattle.ev_graph.specs.Cutting.{AreLinks};
ghost use Rattle.dx_story.specs.Story.{IsExactStory};
ghost use Rattle.dx_story.specs.Tests.{gives_at, shows_at, is_fit_at, are_nodes, are_reports};
ghost use Rattle.dx_story.specs.Tests.{has_one_root};

use ev_graph::{
    CutList, CutTest, Graph, Link, Node, are_below, ascends, contains, is_report_node, is_root_node,
};
use ev_incidence::Incidence;

/// Whether `story` is a story of `root` in the graph whose reports are exactly `seen`, both lists
/// ascending and in range and `seen` not empty.
pub fn check_story(graph: &Graph, root: u32, seen: &[u32], story: &[u32]) -> bool
    ensures { IsTrue result ↔ IsExactStory graph.now [] root seen.now story.now }
{
    check_story_less(graph, &[], root, seen, story)
}

/// The same in the graph less these links of it, which ascend.
pub fn check_story_less(
    graph: &Graph,
    less: &[Link],
    root: u32,
    seen: &[u32],
    story: &[u32],
) -> bool
    requires { AreLinks (wiring graph.now.instances) less.now }
    ensures { IsTrue result ↔ IsExactStory graph.now less.now root seen.now story.now }
{
    let nodes = graph.nodes();
    let count = graph.node_count();
    if !are_nodes(count, seen) {
        return false;
    }
    if !are_nodes(count, story) {
        return false;
    }
    if seen.is_empty() {
        return false;
    }
    if !are_reports(nodes, seen, story) {
        return false;
    }
    if !has_one_root(nodes, root, story) {
        return false;
    }
    all_fit(graph.incidence(), &CutList { less }, root, story)
}

fn are_nodes(count: usize, numbers: &[u32]) -> bool
    ensures { result ≡ are_nodes count numbers.now }
{
    ascends(numbers) && are_below(count, numbers)
}

fn is_seen_report(nodes: &[Node], story: &[u32], node: u32) -> bool
    requires { ascends story.now ≡ true }
    ensures { result ≡ (is_report_node nodes.now node && is_member story.now node) }
{
    is_report_node(nodes, node) && contains(story, node)
}

fn is_seen_if_report(nodes: &[Node], seen: &[u32], node: u32) -> bool
    requires { ascends seen.now ≡ true }
    ensures { result ≡ (not (is_report_node nodes.now node) || is_member seen.now node) }
{
    !is_report_node(nodes, node) || contains(seen, node)
}

fn all_are_reports(nodes: &[Node], seen: &[u32], story: &[u32]) -> bool
    requires { ascends story.now ≡ true }
    ensures { result ≡ list_all (λ e. is_report_node nodes.now e && is_member story.now e)
        seen.now }
{
    seen.iter().all(|node| is_seen_report(nodes, story, *node))
}

fn all_reports_are_seen(nodes: &[Node], seen: &[u32], story: &[u32]) -> bool
    requires { ascends seen.now ≡ true }
    ensures { result ≡ list_all (λ e. not (is_report_node nodes.now e) || is_member seen.now e)
        story.now }
{
    story
        .iter()
        .all(|node| is_seen_if_report(nodes, seen, *node))
}

fn are_reports(nodes: &[Node], seen: &[u32], story: &[u32]) -> bool
    requires seen { ascends seen.now ≡ true }
    requires story { ascends story.now ≡ true }
    ensures { result ≡ are_reports nodes.now seen.now story.now }
{
    all_are_reports(nodes, seen, story) && all_reports_are_seen(nodes, seen, story)
}

fn is_root_or_none(nodes: &[Node], root: u32, node: u32) -> bool
    ensures { result ≡ (not (is_root_node nodes.now node) || node == root) }
{
    !is_root_node(nodes, node) || node == root
}

fn no_other_root(nodes: &[Node], root: u32, story: &[u32]) -> bool
    ensures { result ≡ list_all (λ e. not (is_root_node nodes.now e) || e == root) story.now }
{
    story.iter().all(|node| is_root_or_none(nodes, root, *node))
}

fn has_one_root(nodes: &[Node], root: u32, story: &[u32]) -> bool
    requires { ascends story.now ≡ true }
    ensures { result ≡ has_one_root nodes.now root story.now }
{
    is_root_node(nodes, root) && (contains(story, root) && no_other_root(nodes, root, story))
}

fn count_in(story: &[u32], numbers: &[u32]) -> usize
    requires { ascends story.now ≡ true }
    ensures { result ≡ count_by (is_member story.now) numbers.now }
{
    numbers
        .iter()
        .filter(|number| contains(story, **number))
        .count()
}

fn count_uncut<C: CutTest>(cuts: &C, place: u32, story: &[u32], effects: &[u32]) -> usize
    requires { ascends story.now ≡ true }
    ensures { result ≡ count_by (is_member story.now)
        (filter (λ e. not (C.is_cut cuts.now place e)) effects.now) }
{
    effects
        .iter()
        .filter(|effect| !cuts.has(place, **effect))
        .filter(|effect| contains(story, **effect))
        .count()
}

fn gives<C: CutTest>(table: &Incidence, cuts: &C, story: &[u32], node: u32, place: u32) -> bool
    requires { ascends story.now ≡ true }
    ensures { result ≡ gives_at table.now (C.is_cut cuts.now) (is_member story.now) node place }
{
    !cuts.has(place, node) && table.k(place) as usize <= count_in(story, table.causes(place))
}

fn shows<C: CutTest>(table: &Incidence, cuts: &C, story: &[u32], place: u32) -> bool
    requires { ascends story.now ≡ true }
    ensures { result ≡ shows_at table.now (C.is_cut cuts.now) (is_member story.now) place }
{
    let shown = count_uncut(cuts, place, story, table.effects(place));
    table.n(place) as usize <= shown
}

fn is_given<C: CutTest>(table: &Incidence, cuts: &C, story: &[u32], node: u32) -> bool
    requires { ascends story.now ≡ true }
    ensures { result ≡ list_any (gives_at table.now (C.is_cut cuts.now) (is_member story.now) node)
        (row_at table.now.gets node) }
{
    let places = table.gets(node);
    places
        .iter()
        .any(|place| gives(table, cuts, story, node, *place))
}

fn is_shown<C: CutTest>(table: &Incidence, cuts: &C, story: &[u32], node: u32) -> bool
    requires { ascends story.now ≡ true }
    ensures { result ≡ list_all (shows_at table.now (C.is_cut cuts.now) (is_member story.now))
        (row_at table.now.uses node) }
{
    let places = table.uses(node);
    places.iter().all(|place| shows(table, cuts, story, *place))
}

fn fits<C: CutTest>(table: &Incidence, cuts: &C, root: u32, story: &[u32], node: u32) -> bool
    requires { ascends story.now ≡ true }
    ensures { result ≡ is_fit_at table.now (C.is_cut cuts.now) root (is_member story.now) node }
{
    (node == root || is_given(table, cuts, story, node)) && is_shown(table, cuts, story, node)
}

fn all_fit<C: CutTest>(table: &Incidence, cuts: &C, root: u32, story: &[u32]) -> bool
    requires { ascends story.now ≡ true }
    ensures { result ≡ list_all (is_fit_at table.now (C.is_cut cuts.now) root (is_member story.now))
        story.now }
{
    story
        .iter()
        .all(|node| fits(table, cuts, root, story, *node))
}
