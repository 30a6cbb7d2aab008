//! What was found for nodes that opened cases.

ghost use Rattle.std.specs.Prelude.{◌<◌, length, IfOk};
ghost use Rattle.ev_graph.specs.Lawful.{GraphValue};
ghost use Rattle.dx_case.specs.Starts.{IsFreshOf, AreStartsOf};

use crate::finding::{Fresh, fresh_from};
use ev_graph::{Graph, NoMemory};
use std::alloc::Global;
use std::collections::BTreeMap;

/// The room that all that is kept takes at most.
const ROOM: usize = 1 << 18;

/// What was found for nodes of a graph that opened cases, so that it need not be sought again. It
/// keeps at most 2^18 reports, nodes and instances of live sets: where there would be more, all is
/// forgotten first.
#[derive(Drop)]
pub struct Starts {
    found: BTreeMap<u32, Fresh>,
    /// The sum of the sizes of what was found.
    size: usize,
}

impl Starts {
    /// Nothing was found yet, whatever the graph.
    pub fn new(alloc: Global) -> Starts
        ensures { (g : GraphValue) → AreStartsOf g result }
    {
        Starts {
            found: BTreeMap::new(alloc),
            size: 0,
        }
    }

    /// Forgets all that was found, so that it serves whatever graph.
    pub fn forget(&mut self)
        ensures { (g : GraphValue) → AreStartsOf g self.new }
    {
        self.found.clear();
        self.size = 0;
    }

    /// Forgets all, if what takes that much would not fit beside it.
    fn make_room(&mut self, size: usize)
        ensures { (g : GraphValue) → AreStartsOf g self.old → AreStartsOf g self.new }
    {
        if size > ROOM.saturating_sub(self.size) {
            self.forget();
        }
    }

    /// Keeps a copy of what was found for a node, unless that alone takes more than the room.
    fn keep(&mut self, alloc: Global, node: u32, fresh: &Fresh) -> Result<(), NoMemory>
        ensures { (g : GraphValue) → AreStartsOf g self.old → IsFreshOf g node fresh.now
            → AreStartsOf g self.new }
    {
        let size = fresh.size();
        if size > ROOM {
            return Ok(());
        }
        self.make_room(size);
        let kept = fresh.copy(alloc)?;
        self.found.insert(node, kept)?;
        self.size = self.size.saturating_add(size);
        Ok(())
    }

    /// What `fresh_from` finds for a node: a copy of what was found before, or found now. Without
    /// memory some of what was found may be forgotten.
    pub(crate) fn fresh(
        &mut self,
        alloc: Global,
        graph: &Graph,
        node: u32,
    ) -> Result<Fresh, NoMemory>
        requires node { node < length graph.now.nodes }
        requires starts { AreStartsOf graph.now self.old }
        ensures fresh { IfOk result (IsFreshOf graph.now node) }
        ensures starts { AreStartsOf graph.now self.new }
    {
        if let Some(found) = self.found.get(&node) {
            return found.copy(alloc);
        }
        let fresh = fresh_from(alloc, graph, node)?;
        self.keep(alloc, node, &fresh)?;
        Ok(fresh)
    }
}
