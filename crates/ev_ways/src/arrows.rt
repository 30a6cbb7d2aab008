//! The arrows of a drawing, and the two calls that look along them.
ghost use Rattle.std.specs.Prelude.{◌≡◌, ◌<◌, ◌+◌, ◌^◌, ◌++◌, ◌∷◌, ℕ, [], length, Ok, None, IfOk};
ghost use Rattle.std.specs.Prelude.{IfSome, OnOk, OnErr};
ghost use Rattle.ev_ways.specs.Drawing.{Drawing, IsDrawing};
ghost use Rattle.ev_ways.specs.Lists.{AllBelow};
ghost use Rattle.ev_ways.specs.Ways.{Reaches};
ghost use Rattle.ev_ways.specs.Search.{AreDistances};
ghost use Rattle.ev_ways.specs.Cycle.{IsFirstCycle};

use crate::cycle;
use fm_bytes::{Items, NoMemory};
use std::alloc::Global;
use std::marker::Model;

/// Arrows between numbered nodes. An arrow leads from each of its causes to each of its effects.
#[derive(Drop)]
pub struct Arrows {
    nodes: u32,
    causes: Vec<Items<u32>>,
    effects: Vec<Items<u32>>,
}

impl Model for Arrows {
    ghost Value = { Drawing };

    ghost view = { λ a. record {
      nodes = a.nodes;
      causes = a.causes.items;
      effects =
          a.effects.items;
    } };

    ghost invariant = { λ a. IsDrawing
        (record { nodes = a.nodes; causes = a.causes.items; effects = a.effects.items }) };
}

impl Arrows {
    /// So many nodes, and no arrow.
    pub fn new(alloc: Global, nodes: u32) -> Arrows
        ensures { result ≡ record { nodes = nodes; causes = []; effects = [] } }
    {
        Arrows {
            nodes,
            causes: Vec::new(alloc),
            effects: Vec::new(alloc),
        }
    }

    /// Draws one more arrow.
    pub fn push(&mut self, causes: Items<u32>, effects: Items<u32>) -> Result<(), NoMemory>
        requires causes { AllBelow self.old.nodes causes }
        requires effects { AllBelow self.old.nodes effects }
        requires few { length self.old.causes + 1 < 2 ^ 32 }
        ensures ok { OnOk result
            (self.new ≡ record {
              nodes = self.old.nodes;
              causes =
                  self.old.causes ++ causes ∷ [];
              effects = self.old.effects ++ effects ∷ [];
            }) }
        ensures err { OnErr result (self.new ≡ self.old) }
    {
        self.causes.push(causes)?;
        match self.effects.push(effects) {
            Ok(()) => Ok(()),
            Err(refused) => {
                let _ = self.causes.pop();
                Err(NoMemory::from(refused))
            }
        }
    }

    /// For each node, the length of a shortest way from one of the starts; none where no way comes
    /// there. It takes the time of the nodes and the members of arrows.
    pub fn distances(&self, alloc: Global, starts: &[u32]) -> Result<Vec<Option<u32>>, NoMemory>
        requires starts { AllBelow self.now.nodes starts.now }
        ensures nodes { IfOk result (λ distance. length distance.items ≡ self.now.nodes) }
        ensures found { IfOk result
            (λ distance. AreDistances self.now.causes self.now.effects starts.now distance.items) }
    {
        cycle::distances(
            alloc,
            self.nodes,
            starts,
            self.causes.as_slice(),
            self.effects.as_slice(),
        )
    }

    /// The first cycle: a shortest one from the first node that reaches itself, whose next member
    /// is each time the first of those that stand on a shortest way. Where there is none, it takes
    /// the time of the nodes and the members of arrows.
    pub fn first_cycle(&self, alloc: Global) -> Result<Option<Vec<u32>>, NoMemory>
        ensures none { result ≡ Ok None → (x : ℕ) → Reaches self.now.causes self.now.effects x x
            → ⊥ }
        ensures found { IfOk result
            (λ cycle. IfSome cycle
            (λ members. IsFirstCycle self.now.causes self.now.effects members.items)) }
    {
        cycle::first_cycle(
            alloc,
            self.nodes,
            self.causes.as_slice(),
            self.effects.as_slice(),
        )
    }
}
