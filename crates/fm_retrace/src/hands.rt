//! The hands of modules that have come to their floors.

ghost use Rattle.std.specs.Prelude.{◌≡◌, ◌<◌, ◌^◌, length, IfOk};
ghost use Rattle.fm_retrace.specs.Retracing.{AreNumbered, meanings_of, hands_from, cursors_of};

use crate::retraced::Retraced;
use fm_bytes::NoMemory;
use fm_core::{Hand, Module};
use std::alloc::Global;

/// A hand of each module, at the cursor that it has come to, and these cursors.
pub fn hands_of<M: Module>(
    alloc: Global,
    base: u64,
    modules: Vec<Retraced<M>>,
) -> Result<(Vec<Hand<M>>, Vec<u64>), NoMemory>
    requires few { length modules.items < 2 ^ 32 }
    requires numbered { AreNumbered (meanings_of M.Module modules.items) }
    ensures hands { IfOk result (λ (hands, _). hands.items ≡ hands_from base 0 modules.items) }
    ensures cursors { IfOk result (λ (_, cursors).
        cursors.items ≡ cursors_of base modules.items) }
{
    let mut rest = modules;
    let mut hands = Vec::new(alloc);
    let mut cursors = Vec::new(alloc);
    'modules: while !rest.is_empty() {
        let Retraced { object, past } = rest.remove(0);
        let cursor = base.max(past);
        hands.push(Hand::new(hands.len() as u32, cursor, object))?;
        cursors.push(cursor)?;
    }
    Ok((hands, cursors))
}
