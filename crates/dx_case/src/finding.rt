//! The roots that reach a report, and the reports that roots reach.

ghost use Rattle.std.specs.Prelude.{◌≡◌, ◌<◌, true, length, IfOk};
ghost use Rattle.std.specs.List.{list_all};
ghost use Rattle.ev_graph.specs.Kinds.{is_root_node, is_report_node};
ghost use Rattle.ev_incidence.specs.Sets.{ascends};
ghost use Rattle.dx_case.specs.Candidates.{AreCovered, is_of_kind};
ghost use Rattle.dx_case.specs.Kinds.{is_asked};
ghost use Rattle.dx_case.specs.Finding.{AreSorted, AreRootsOf, AreAsMade};
ghost use Rattle.dx_case.specs.Starts.{IsFreshOf};

use crate::candidate::{Candidate, copies_of};
use crate::kinds::Asked;
use dx_live::Live;
use ev_graph::{Graph, NoMemory, Node};
use ev_incidence::{Marked, search};
use std::alloc::Global;

/// Those of some nodes that are of a kind, ascending.
fn sorted_among(
    alloc: Global,
    nodes: &[Node],
    numbers: &[u32],
    kind: Asked,
) -> Result<Vec<u32>, NoMemory>
    ensures { IfOk result
        (λ list. AreSorted (is_of_kind (is_asked kind) nodes.now) numbers.now list.items) }
{
    let mut list = Vec::new(alloc);
    for number in numbers {
        if kind.has_node(nodes, *number) {
            list.push(*number)?;
        }
    }
    list.sort_unstable();
    list.dedup();
    Ok(list)
}

/// The roots of all stories that have the node, ascending: those that a search backwards from it
/// meets. It takes the time of what it meets, and a byte for each node and instance of the graph
/// while it runs.
fn roots_of(alloc: Global, graph: &Graph, node: u32) -> Result<Vec<u32>, NoMemory>
    requires { node < length graph.now.nodes }
    ensures { IfOk result (λ list. AreRootsOf graph.now node list.items) }
{
    let table = graph.incidence();
    let mut reached = Marked::new(alloc, table.nodes())?;
    let mut taken = Marked::new(alloc, table.count())?;
    let (index, rows) = table.backwards();
    search(index, rows, &[node], &mut reached, &mut taken)?;
    let roots = sorted_among(alloc, graph.nodes(), reached.as_slice(), Asked::Roots)?;
    Ok(roots)
}

/// The reports that these roots reach, ascending, likewise.
fn reports_of(alloc: Global, graph: &Graph, roots: &[u32]) -> Result<Vec<u32>, NoMemory>
    requires { list_all (is_root_node graph.now.nodes) roots.now ≡ true }
    ensures ascend { IfOk result (λ list. ascends list.items ≡ true) }
    ensures reports { IfOk result
        (λ list. list_all (is_report_node graph.now.nodes) list.items ≡ true) }
    ensures covered { IfOk result (λ list. AreCovered graph.now roots.now list.items) }
{
    let table = graph.incidence();
    let mut reached = Marked::new(alloc, table.nodes())?;
    let mut taken = Marked::new(alloc, table.count())?;
    let (index, rows) = table.forwards();
    search(index, rows, roots, &mut reached, &mut taken)?;
    let reports = sorted_among(alloc, graph.nodes(), reached.as_slice(), Asked::Reports)?;
    Ok(reports)
}

/// Candidates of these roots, with all reports allowed and no link cut.
fn candidates_of(alloc: Global, graph: &Graph, roots: &[u32]) -> Result<Vec<Candidate>, NoMemory>
    requires { list_all (is_root_node graph.now.nodes) roots.now ≡ true }
    ensures { IfOk result (λ made. AreAsMade graph.now roots.now made.items) }
{
    let mut candidates = Vec::new(alloc);
    for root in roots {
        let live = Live::new(alloc, graph, *root)?;
        candidates.push(Candidate { root: *root, live })?;
    }
    Ok(candidates)
}

/// Candidates, and the reports that their roots reach, ascending.
#[derive(Drop)]
pub(crate) struct Fresh {
    pub(crate) candidates: Vec<Candidate>,
    pub(crate) reports: Vec<u32>,
}

impl Fresh {
    /// Equal ones.
    pub(crate) fn copy(&self, alloc: Global) -> Result<Fresh, NoMemory>
        ensures candidates { IfOk result
            (λ made. made.candidates.items ≡ self.now.candidates.items) }
        ensures reports { IfOk result (λ made. made.reports.items ≡ self.now.reports.items) }
    {
        let candidates = copies_of(alloc, self.candidates.as_slice())?;
        let reports = Vec::from_slice(alloc, self.reports.as_slice())?;
        Ok(Fresh {
            candidates,
            reports,
        })
    }

    /// How much room they take: one, and one for each report, and for each node and instance that
    /// a candidate has.
    pub(crate) fn size(&self) -> usize {
        let mut size = self.reports.len().saturating_add(1);
        for candidate in self.candidates.as_slice() {
            size = size.saturating_add(candidate.live.size());
        }
        size
    }
}

/// Candidates of all roots whose stories have the node, with all reports allowed and no link cut,
/// and the reports that these roots reach.
pub(crate) fn fresh_from(alloc: Global, graph: &Graph, node: u32) -> Result<Fresh, NoMemory>
    requires { node < length graph.now.nodes }
    ensures { IfOk result (IsFreshOf graph.now node) }
{
    let roots = roots_of(alloc, graph, node)?;
    let reports = reports_of(alloc, graph, roots.as_slice())?;
    let candidates = candidates_of(alloc, graph, roots.as_slice())?;
    Ok(Fresh {
        candidates,
        reports,
    })
}
