// A case as plain values, and a search over all stories for what is pending in it and what explains
// it.
use crate::case_steps::{CaseStep, Opening};
use crate::case_texts::{CaseEnd, CaseView};
use crate::drawn::{REPORTS, bit_of, numbers_of, stories_of};
use ev_graph::{Graph, Link, NodeKind};
use std::alloc::Global;
use test_words::ScriptFault;

/// A case: its reports as bits, and the broken links in order.
#[derive(Drop)]
pub struct Plain {
    opened: u64,
    pub time: Option<u64>,
    entries: Vec<u64>,
    pub observed: u32,
    broken: Vec<Link>,
}

/// What is pending in a case, and which faults and defects and which upsets explain it, as bits.
#[derive(Clone, Copy, Drop)]
pub struct Searched {
    pub pending: u32,
    pub faults: u32,
    pub upsets: u32,
}

/// Whether a node is an upset.
fn is_upset(graph: &Graph, root: u32) -> bool {
    match graph.nodes().get(root as usize) {
        Some(node) => match node.kind {
            NodeKind::Upset { .. } => true,
            _ => false,
        },
        None => false,
    }
}

impl Plain {
    /// A case that a report opens, by the entry 7.
    pub fn opened(alloc: Global, opening: &Opening) -> Result<Plain, ScriptFault> {
        let mut plain = Plain {
            opened: opening.moment,
            time: Some(opening.moment),
            entries: Vec::new(alloc),
            observed: 0,
            broken: Vec::new(alloc),
        };
        plain.take(opening.node, 7, &opening.broken)?;
        Ok(plain)
    }

    /// A report of the node comes by an entry, and breaks these links.
    fn take(&mut self, node: u32, entry: u64, links: &[Link]) -> Result<(), ScriptFault> {
        self.entries.push(entry)?;
        self.observed |= bit_of(node);
        for link in links {
            self.broken.push(*link)?;
        }
        self.broken.sort_unstable();
        self.broken.dedup();
        Ok(())
    }

    /// The case takes a step.
    pub fn turn(&mut self, step: &CaseStep) -> Result<(), ScriptFault> {
        match step {
            CaseStep::Move(moment) => self.time = Some(*moment),
            CaseStep::Join {
                node,
                entry,
                broken,
            } => self.take(*node, *entry, broken)?,
            CaseStep::Finish => self.time = None,
        }
        Ok(())
    }

    /// Whether a report of such a node is awaited.
    fn awaits(&self, kind: NodeKind) -> bool {
        match (kind, self.time) {
            (NodeKind::Report { within }, Some(time)) => time <= self.opened.saturating_add(within),
            _ => false,
        }
    }

    /// The bits of the reports that are allowed.
    fn allowed(&self, graph: &Graph) -> u32 {
        let mut bits = self.observed;
        let mut number = 0u32;
        for node in graph.nodes() {
            if self.awaits(node.kind) {
                bits |= bit_of(number);
            }
            number = number.saturating_add(1);
        }
        bits
    }

    /// What all stories of both roots say.
    pub fn search(&self, alloc: Global, graph: &Graph) -> Result<Searched, ScriptFault> {
        let allowed = self.allowed(graph);
        let mut found = Searched {
            pending: 0,
            faults: 0,
            upsets: 0,
        };
        for root in [6, 7] {
            for story in stories_of(alloc, graph, &self.broken, root)? {
                found.add(graph, root, story & REPORTS, self.observed, allowed);
            }
        }
        Ok(found)
    }

    /// The case as it is told where this was found.
    pub fn view(&self, alloc: Global, found: Searched) -> Result<CaseView, ScriptFault> {
        let entries = self.entries.as_slice().to_vec(alloc)?;
        let observed = numbers_of(alloc, self.observed)?;
        let broken = self.broken.as_slice().to_vec(alloc)?;
        let fits = numbers_of(alloc, self.observed | found.pending)?;
        let end = found.end(alloc)?;
        Ok(CaseView {
            number: 0,
            opened: self.opened,
            time: self.time,
            entries,
            observed,
            broken,
            fits,
            end,
        })
    }
}

impl Searched {
    /// Adds what a story of the root says that has these reports.
    fn add(&mut self, graph: &Graph, root: u32, reports: u32, observed: u32, allowed: u32) {
        if observed & !reports == 0 && reports & !allowed == 0 {
            self.pending |= reports & !observed;
        }
        if observed != reports {
            return;
        }
        if is_upset(graph, root) {
            self.upsets |= bit_of(root);
        } else {
            self.faults |= bit_of(root);
        }
    }

    /// What a case comes to where this was found.
    fn end(self, alloc: Global) -> Result<CaseEnd, ScriptFault> {
        if self.pending != 0 {
            Ok(CaseEnd::Pending)
        } else if self.faults != 0 {
            Ok(CaseEnd::Solved(numbers_of(alloc, self.faults)?))
        } else if self.upsets != 0 {
            Ok(CaseEnd::Upset(numbers_of(alloc, self.upsets)?))
        } else {
            Ok(CaseEnd::Unexplained)
        }
    }
}
