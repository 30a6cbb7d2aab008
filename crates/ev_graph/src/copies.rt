//! Equal values with memory of their own.

ghost use Rattle.std.specs.Prelude.{◌≡◌, IfOk};

use crate::instances::Instance;
use crate::nodes::{EngineSpec, Node};
use fm_bytes::{Copies, NoMemory};
use std::alloc::Global;

impl Copies for Node {
    fn copy(&self, _alloc: Global) -> Result<Node, NoMemory> {
        let name = self.name.copy()?;
        Ok(Node {
            name,
            kind: self.kind,
        })
    }
}

impl Copies for EngineSpec {
    fn copy(&self, _alloc: Global) -> Result<EngineSpec, NoMemory> {
        let name = self.name.copy()?;
        Ok(EngineSpec {
            name,
            n: self.n,
            t: self.t,
            trip: self.trip,
        })
    }
}

impl Copies for Instance {
    fn copy(&self, alloc: Global) -> Result<Instance, NoMemory> {
        let causes = self.causes.copy(alloc)?;
        let effects = self.effects.copy(alloc)?;
        Ok(Instance {
            causes,
            effects,
            n: self.n,
            k: self.k,
        })
    }
}

/// Equal items, in the same order.
pub(crate) fn copies_of<T: Copies>(alloc: Global, items: &[T]) -> Result<Vec<T>, NoMemory>
    ensures { IfOk result (λ copies. copies.items ≡ items.now) }
{
    let mut copies = Vec::new(alloc);
    for item in items {
        copies.push(item.copy(alloc)?)?;
    }
    Ok(copies)
}
