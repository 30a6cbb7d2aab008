//! Configurations by themselves.

ghost use Rattle.std.specs.Prelude.{◌≡◌, ℕ, List};
ghost use Rattle.dx_step.specs.Reports.{declares};
ghost use Rattle.dx_rules.specs.Classes.{is_class_among};
ghost use Rattle.dx_rules.specs.ReportIndex.{IndexesReports};

use crate::breaking::broken_links;
use crate::classes::Classes;
use crate::report_index::ReportIndex;
use ev_graph::{CutTest, Graph, Link, NoMemory};
use ev_guards::Guards;
use fm_name::{Class, Fmri};
use fm_nv::Nv;
use std::alloc::Global;

/// One configuration: its graph, and the guards of the links that payloads can break; none where
/// they can break no link.
#[derive(Drop)]
pub struct Ruled {
    pub graph: Graph,
    pub guards: Option<Guards>,
    /// The classes of the graph's reports, and their numbers by their names.
    classes: Classes,
    index: ReportIndex,
    ghost declared: { (class : List ℕ) → is_class_among classes class ≡ declares graph class },
    ghost indexed: { IndexesReports graph index },
}

/// Which links of the configuration payloads can break.
impl CutTest for Ruled {
    ghost use Rattle.ev_graph.specs.Cutting.{is_cut};
    ghost use Rattle.dx_rules.specs.Rulebooks.{ruled_of};

    ghost is_cut = { λ x. is_cut (ruled_of x).guarding.guarded };

    fn has(&self, instance: u32, effect: u32) -> bool {
        match &self.guards {
            Some(guards) => guards.is_guarded(instance, effect),
            None => false,
        }
    }
}

impl Ruled {
    ghost use Rattle.std.specs.Prelude.{IfOk};
    ghost use Rattle.dx_step.specs.Reports.{links_broken, report_named};
    ghost use Rattle.dx_rules.specs.ReportIndex.{event_by};
    ghost use Rattle.dx_rules.specs.Rulebooks.{guarding_if_any, ruled_of};

    /// The configuration of a graph, and of guards, if any. It takes time for each node, and memory
    /// for each report.
    pub fn new(alloc: Global, graph: Graph, guards: Option<Guards>) -> Result<Ruled, NoMemory>
        ensures graph { IfOk result (λ ruled. ruled.graph ≡ graph) }
        ensures guards { IfOk result (λ ruled. ruled.guards ≡ guards) }
    {
        let classes = Classes::of(alloc, &graph)?;
        let index = ReportIndex::of(alloc, &graph)?;
        Ok(Ruled {
            graph,
            guards,
            classes,
            index,
        })
    }

    /// Equal guards, if any.
    fn copy_guards(&self, alloc: Global) -> Result<Option<Guards>, NoMemory>
        ensures { IfOk result (λ copy. guarding_if_any copy ≡ guarding_if_any self.now.guards) }
    {
        match &self.guards {
            Some(guards) => {
                let copy = guards.copy(alloc)?;
                Ok(Some(copy))
            }
            None => Ok(None),
        }
    }

    /// An equal configuration.
    pub fn copy(&self, alloc: Global) -> Result<Ruled, NoMemory>
        ensures { IfOk result (λ copy. ruled_of copy ≡ ruled_of self.now) }
    {
        let graph = self.graph.copy(alloc)?;
        let guards = self.copy_guards(alloc)?;
        let classes = self.classes.copy()?;
        let index = self.index.copy()?;
        Ok(Ruled {
            graph,
            guards,
            classes,
            index,
        })
    }

    /// Whether some report of the graph has the class.
    pub(crate) fn declares(&self, class: &Class) -> bool
        ensures { result ≡ declares self.now.graph class.now }
    {
        self.classes.has(class)
    }

    /// The number of the report of a path and a class.
    pub(crate) fn report_named(&self, name: &(Fmri, Class)) -> Option<u32>
        ensures { result ≡ report_named self.now.graph (event_by name.now) }
    {
        self.index.number(name)
    }

    /// The links of a report that its payload breaks.
    pub(crate) fn broken_by(
        &self,
        alloc: Global,
        node: u32,
        payload: &Nv,
    ) -> Result<Vec<Link>, NoMemory>
        ensures { IfOk result
            (λ links. links.items ≡ links_broken (ruled_of self.now) node payload.now) }
    {
        match &self.guards {
            Some(guards) => broken_links(alloc, guards, node, payload),
            None => Ok(Vec::new(alloc)),
        }
    }
}
