//! Whether the names of some pairs are distinct.

ghost use Rattle.std.specs.Prelude.{◌≡◌, IfOk};
ghost use Rattle.fm_nv.specs.Spelled.{distinct};

use crate::nv::Content;
use fm_bytes::NoMemory;
use std::alloc::Global;
use std::collections::BTreeSet;

/// Whether no name stands twice. The names are looked up in a set of those that stand behind, so
/// the time is that of a sort, whatever the names are.
pub(crate) fn are_distinct(alloc: Global, pairs: &Content) -> Result<bool, NoMemory>
    ensures { IfOk result (λ b. b ≡ distinct pairs.now) }
{
    let mut behind = BTreeSet::new(alloc);
    let mut at = pairs.len();
    'pairs: while at > 0 {
        at -= 1;
        if !behind.insert(pairs.name_bytes(at))? {
            return Ok(false);
        }
    }
    Ok(true)
}
