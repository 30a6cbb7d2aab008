//! The reports of a graph by their names.

ghost use Rattle.std.specs.Prelude.{◌≡◌, IfOk, OnOk};
ghost use Rattle.dx_rules.specs.ReportIndex.{IndexesReports, PutsReport, event_by, indexed_number};

use ev_graph::{Graph, NoMemory, Node};
use fm_name::{Class, Fmri};
use std::alloc::Global;
use std::collections::HashMap;
use std::marker::Model;
use std::sync::Arc;

/// The numbers of a graph's reports by their paths and classes. They never change, and copies share
/// them.
#[derive(Drop)]
pub struct ReportIndex {
    numbers: Arc<HashMap<(Fmri, Class), u32>>,
}

impl Model for ReportIndex {
    ghost use Rattle.dx_rules.specs.ReportIndex.{IndexValue};

    ghost Value = { IndexValue };

    ghost view = { λ r. r.numbers.value.entries };
}

/// Puts the number of a node at its name, if it is a report.
fn put_report(
    node: &Node,
    number: u32,
    numbers: &mut HashMap<(Fmri, Class), u32>,
) -> Result<(), NoMemory>
    ensures { OnOk result (PutsReport node.now number numbers.old.entries numbers.new.entries) }
{
    if !node.kind.is_report() {
        return Ok(());
    }
    let name = (node.name.path.copy()?, node.name.class.copy()?);
    numbers.insert(name, number)?;
    Ok(())
}

/// The numbers of the reports of a graph.
fn numbers_of(alloc: Global, graph: &Graph) -> Result<HashMap<(Fmri, Class), u32>, NoMemory>
    ensures { IfOk result (λ numbers. IndexesReports graph.now numbers.entries) }
{
    let nodes = graph.nodes();
    let mut numbers = HashMap::new(alloc);
    'nodes: for at in 0..graph.node_count() {
        put_report(&nodes[at], at as u32, &mut numbers)?;
    }
    Ok(numbers)
}

impl ReportIndex {
    /// The index of a graph. It takes time for each node, and memory for each report.
    pub fn of(alloc: Global, graph: &Graph) -> Result<ReportIndex, NoMemory>
        ensures { IfOk result (IndexesReports graph.now) }
    {
        let numbers = numbers_of(alloc, graph)?;
        let numbers = Arc::new(alloc, numbers)?;
        Ok(ReportIndex { numbers })
    }

    /// The same index. It takes no memory: it is want of memory alone where 2^63 share one map.
    pub fn copy(&self) -> Result<ReportIndex, NoMemory>
        ensures { IfOk result (λ index. index ≡ self.now) }
    {
        let numbers = self.numbers.clone()?;
        Ok(ReportIndex { numbers })
    }

    /// The number at a path and a class.
    pub fn number(&self, name: &(Fmri, Class)) -> Option<u32>
        ensures { result ≡ indexed_number self.now (event_by name.now) }
    {
        self.numbers.get(name).copied()
    }
}
