// What a module's `save` wrote, its `load` takes back.
ghost use Rattle.std.specs.Prelude.{◌≡◌, OnOk, OnErr};

use crate::module::{LoadFault, Module};
use fm_bytes::NoMemory;
use std::alloc::Global;

/// Brings a module to the state of another one that was made alike, by way of the bytes of its
/// save. Want of memory alone can keep it from that; its state is then as it was.
pub fn restore<M: Module>(alloc: Global, from: &M, to: &mut M) -> Result<(), NoMemory>
    requires alike { M.meaning from.now ≡ M.meaning to.old }
    ensures restored { OnOk result (M.state to.new ≡ M.state from.now) }
    ensures err { OnErr result (M.state to.new ≡ M.state to.old) }
    ensures kept { M.meaning to.new ≡ M.meaning to.old }
{
    let mut bytes = Vec::new(alloc);
    from.save(&mut bytes)?;
    match to.load(alloc, &bytes) {
        Ok(()) => Ok(()),
        Err(LoadFault::NoMemory) => Err(NoMemory),
        Err(LoadFault::Bad) => unreachable!(),
    }
}
