//! What is kept of a case.

ghost use Rattle.std.specs.Prelude.{◌≡◌, map, IfOk};
ghost use Rattle.std.specs.List.{list_all};
ghost use Rattle.ev_incidence.specs.Sets.{ascends_by};
ghost use Rattle.ev_graph.specs.Kinds.{is_report_node};
ghost use Rattle.fm_entry.specs.Words.{is_link_before};
ghost use Rattle.dx_explain.specs.Cases.{broken_of};
ghost use Rattle.dx_case.specs.Facts.{case_of_facts, facts_fit};

use ev_graph::{Graph, Link, NoMemory, Node, ascends, is_report_node};
use fm_entry::Broken;
use std::alloc::Global;

/// What is kept of a case: its number, when it was opened, the numbers of the entries of its
/// reports, the reports that were observed, and the links that their payloads break.
#[derive(Drop)]
pub struct CaseFacts<'a> {
    pub number: u64,
    pub opened: u64,
    pub entries: &'a [u64],
    pub observed: &'a [u32],
    pub broken: &'a [Broken],
}

impl CaseFacts<'_> {
    /// Whether a case of the graph can be so at a moment: it was opened before or then, and has
    /// some reports of the graph, and broken links, both in order.
    pub fn fit(&self, graph: &Graph, moment: u64) -> bool
        ensures { result ≡ facts_fit graph.now moment (case_of_facts self.now) }
    {
        self.opened <= moment
            && !self.observed.is_empty()
            && ascends(self.observed)
            && are_reports(graph.nodes(), self.observed)
            && rise(self.broken)
    }
}

fn are_reports(nodes: &[Node], numbers: &[u32]) -> bool
    ensures { result ≡ list_all (is_report_node nodes.now) numbers.now }
{
    numbers.iter().all(|number| is_report_node(nodes, *number))
}

fn is_before(a: &Broken, b: &Broken) -> bool
    ensures { result ≡ is_link_before a.now b.now }
{
    a.instance < b.instance || (a.instance == b.instance && a.effect < b.effect)
}

/// Whether each link stands before the next.
fn rise(links: &[Broken]) -> bool
    ensures { result ≡ ascends_by is_link_before links.now }
{
    links.is_sorted_by(|a, b| is_before(a, b))
}

/// These broken links as links of a graph.
pub(crate) fn as_links(alloc: Global, broken: &[Broken]) -> Result<Vec<Link>, NoMemory>
    ensures { IfOk result (λ links. map broken_of links.items ≡ broken.now) }
{
    let mut links = Vec::new(alloc);
    for link in broken {
        links.push(Link {
            instance: link.instance,
            effect: link.effect,
        })?;
    }
    Ok(links)
}
