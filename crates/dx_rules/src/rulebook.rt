//! Rulebooks.

ghost use Rattle.std.specs.Prelude.{◌≡◌, None, Some, IsTrue, IfOk, MatchOption};
ghost use Rattle.fm_nv.specs.Data.{no_pairs};
ghost use Rattle.dx_state.specs.Configured.{found_at, known_of, configuration_at};
ghost use Rattle.dx_step.specs.Lawful.{is_there};
ghost use Rattle.dx_step.specs.Reports.{declares, links_broken, report_named};
ghost use Rattle.dx_rules.specs.ReportIndex.{event_by};
ghost use Rattle.dx_rules.specs.Rulebooks.{ruled_of, rules_in};

use crate::ruled::Ruled;
use ev_graph::{Graph, Link, NoMemory};
use fm_name::{Class, Fmri};
use fm_nv::Nv;
use std::alloc::Global;

/// The configurations of a module: a single one of some number, which is of no list, or a list, in
/// which they are numbered from 0.
#[derive(Drop)]
pub enum Configs {
    Single { number: u32, ruled: Ruled },
    Listed(Vec<Ruled>),
}

/// A module's own number, and its configurations.
#[derive(Drop)]
pub struct Rulebook {
    pub own: u32,
    pub configs: Configs,
}

impl Rulebook {
    /// The configuration of this number, if there is one.
    fn found(&self, conf: u32) -> Option<&Ruled>
        ensures { MatchOption result (found_at (rules_in self.now).configurations conf ≡ None)
            (λ ruled. found_at (rules_in self.now).configurations conf
            ≡ Some (ruled_of ruled.now)) }
    {
        match &self.configs {
            Configs::Single { number, ruled } => {
                if conf == *number { Some(ruled) } else { None }
            }
            Configs::Listed(list) => {
                if (conf as usize) < list.len() {
                    Some(&list[conf as usize])
                } else {
                    None
                }
            }
        }
    }

    /// The configuration of this number.
    pub fn ruled(&self, conf: u32) -> &Ruled
        requires { IsTrue (is_there (found_at (rules_in self.now).configurations conf)) }
        ensures { ruled_of result.now ≡ configuration_at (rules_in self.now) conf }
    {
        match &self.configs {
            Configs::Single { ruled, .. } => ruled,
            Configs::Listed(list) => &list[conf as usize],
        }
    }

    /// The graph of the configuration of this number.
    pub fn graph(&self, conf: u32) -> &Graph
        requires { IsTrue (is_there (found_at (rules_in self.now).configurations conf)) }
        ensures { result.now ≡ (configuration_at (rules_in self.now) conf).graph }
    {
        match &self.configs {
            Configs::Single { ruled, .. } => &ruled.graph,
            Configs::Listed(list) => &list[conf as usize].graph,
        }
    }

    /// Whether some report of the graph has the class, in the configuration of this number. It is
    /// a search among the classes that reports have.
    #[tactic(auto, unfolding(dx_step::specs::Reports::declares))]
    pub fn declares(&self, conf: u32, class: &Class) -> bool
        ensures { result ≡ declares (configuration_at (rules_in self.now) conf).graph class.now }
    {
        match self.found(conf) {
            Some(ruled) => ruled.declares(class),
            None => false,
        }
    }

    /// The number of the report of a path and a class, in the configuration of this number. It is a
    /// search in an index, whatever the number of nodes.
    pub fn report_named(&self, conf: u32, name: &(Fmri, Class)) -> Option<u32>
        ensures { result ≡ report_named (configuration_at (rules_in self.now) conf).graph
            (event_by name.now) }
    {
        match self.found(conf) {
            Some(ruled) => ruled.report_named(name),
            None => None,
        }
    }

    /// How many configurations it knows of a list.
    pub fn known(&self) -> usize
        ensures { result ≡ known_of (rules_in self.now).configurations }
    {
        match &self.configs {
            Configs::Single { .. } => 0,
            Configs::Listed(list) => list.len(),
        }
    }

    /// The links of a report, in the configuration of this number, that its payload breaks.
    pub fn broken_by(
        &self,
        alloc: Global,
        conf: u32,
        node: u32,
        payload: &Nv,
    ) -> Result<Vec<Link>, NoMemory>
        ensures { IfOk result (λ links. links.items
            ≡ links_broken (configuration_at (rules_in self.now) conf) node payload.now) }
    {
        match self.found(conf) {
            Some(ruled) => ruled.broken_by(alloc, node, payload),
            None => Ok(Vec::new(alloc)),
        }
    }

    /// The links of a report, in the configuration of this number, that it breaks where it carries
    /// nothing.
    pub fn broken_by_none(&self, alloc: Global, conf: u32, node: u32) -> Result<Vec<Link>, NoMemory>
        ensures { IfOk result (λ links. links.items
            ≡ links_broken (configuration_at (rules_in self.now) conf) node no_pairs) }
    {
        let none = Nv::new(alloc);
        self.broken_by(alloc, conf, node, &none)
    }
}
