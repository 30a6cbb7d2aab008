//! The events that a row's names stand for, and its broken links.

ghost use Rattle.std.specs.Prelude.{◌≡◌, map, IfOk};
ghost use Rattle.ev_graph.specs.Lawful.{IsNodeNamed};
ghost use Rattle.fm_explain.specs.Explained.{AreNamed, broken_link, suspect_name};

use ev_graph::{Graph, Link, NoMemory};
use fm_entry::{Broken, Suspect};
use fm_name::EventName;
use std::alloc::Global;

/// The events of these names that the graph has, ascending.
pub(crate) fn reports_named(
    alloc: Global,
    graph: &Graph,
    names: &[EventName],
) -> Result<Vec<u32>, NoMemory>
    ensures { IfOk result (λ list. AreNamed graph.now.nodes names.now list.items) }
{
    let mut list = Vec::new(alloc);
    'names: for name in names {
        match graph.find(name) {
            Some(node) => list.push(node)?,
            None => {}
        }
    }
    list.sort_unstable();
    list.dedup();
    Ok(list)
}

/// The event of the suspect's name, if the graph has it.
pub(crate) fn root_of(graph: &Graph, suspect: &Suspect) -> Result<Option<u32>, NoMemory>
    ensures { IfOk result (IsNodeNamed graph.now.nodes (suspect_name suspect.now)) }
{
    let name = EventName {
        class: suspect.class.copy()?,
        path: suspect.path.copy()?,
    };
    Ok(graph.find(&name))
}

/// Broken links as links of a graph.
pub(crate) fn links_of(alloc: Global, broken: &[Broken]) -> Result<Vec<Link>, NoMemory>
    ensures { IfOk result (λ links. links.items ≡ map broken_link broken.now) }
{
    let mut links = Vec::new(alloc);
    'links: for link in broken {
        links.push(Link {
            instance: link.instance,
            effect: link.effect,
        })?;
    }
    Ok(links)
}
