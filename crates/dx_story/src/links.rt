//! Whether links are links of a graph.

ghost use Rattle.std.specs.Prelude.{◌≡◌, ◌↔◌, ◌&&◌, IsTrue};
ghost use Rattle.std.specs.List.{list_all};
ghost use Rattle.ev_incidence.specs.Sets.{ascends_by};
ghost use Rattle.ev_graph.specs.Wired.{wiring};
ghost use Rattle.ev_graph.specs.Cutting.{AreLinks, is_before_link};
ghost use Rattle.dx_story.specs.Tests.{is_link_of};

use ev_graph::{Graph, Instance, Link};

/// Whether these are links of the graph, in order: what a call that takes links to leave out asks.
pub fn are_links(graph: &Graph, less: &[Link]) -> bool
    ensures { IsTrue result ↔ AreLinks (wiring graph.now.instances) less.now }
{
    links_ascend(less) && each_is_link(graph.instances(), less)
}

fn is_before(a: Link, b: Link) -> bool
    ensures { result ≡ is_before_link a b }
{
    a.instance < b.instance || (a.instance == b.instance && a.effect < b.effect)
}

fn links_ascend(less: &[Link]) -> bool
    ensures { result ≡ ascends_by is_before_link less.now }
{
    less.is_sorted_by(|a, b| is_before(*a, *b))
}

fn is_link_of(instances: &[Instance], link: Link) -> bool
    ensures { result ≡ is_link_of instances.now link }
{
    match instances.get(link.instance as usize) {
        Some(found) => found.effects.as_slice().contains(&link.effect),
        None => false,
    }
}

fn each_is_link(instances: &[Instance], less: &[Link]) -> bool
    ensures { result ≡ list_all (is_link_of instances.now) less.now }
{
    less.iter().all(|link| is_link_of(instances, *link))
}
