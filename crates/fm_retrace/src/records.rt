//! Modules that take entries again, as far as a record of a log tells.

ghost use Rattle.std.specs.Prelude.{◌≡◌, ◌+◌, ◌<◌, ◌≤◌, ◌^◌, ℕ, List, [], ◌∷◌, ◌++◌, length, All};
ghost use Rattle.std.specs.Prelude.{IfOk, OnOk, true, false};
ghost use Rattle.fm_core.specs.Book.{Book};
ghost use Rattle.fm_entry.specs.Entries.{IsSpelled};
ghost use Rattle.fm_entry.specs.Words.{IsSpelledSpoken};
ghost use Rattle.fm_entry.specs.declared.spoken.Spoken.{Spoken};
ghost use Rattle.fm_retrace.specs.Retracing.{SayRecords, IsBookOf, HaveRetraced};
ghost use Rattle.fm_retrace.specs.Retracing.{AreNumbered, AreWithin, meanings_of};

use crate::retraced::Retraced;
use fm_bytes::NoMemory;
use fm_core::Module;
use fm_entry::{Entry, Spoken};
use std::alloc::Global;

/// Whether the record's module says it next, along the entries from the base on. Then it has come
/// there.
pub fn retrace_record<M: Module>(
    alloc: Global,
    base: u64,
    entries: &[Entry],
    modules: &mut Vec<Retraced<M>>,
    record: &Spoken,
) -> Result<bool, NoMemory>
    requires few { base + length entries.now ≤ 2 ^ 46 }
    requires entries { All IsSpelled entries.now }
    requires spelled { IsSpelledSpoken record.now }
    requires numbered { AreNumbered (meanings_of M.Module modules.old.items) }
    ensures yes { IfOk result (λ says. says ≡ true → (k : Book) (records : List Spoken)
        → IsBookOf base entries.now k → SayRecords k records
        → HaveRetraced M.Module k records modules.old.items
        → SayRecords k (records ++ record.now ∷ [])
        × HaveRetraced M.Module k (records ++ record.now ∷ []) modules.new.items) }
    ensures no { IfOk result (λ says. says ≡ false → (k : Book) (records : List Spoken)
        → IsBookOf base entries.now k → SayRecords k records
        → HaveRetraced M.Module k records modules.old.items
        → SayRecords k (records ++ record.now ∷ []) → ⊥) }
    ensures kept { meanings_of M.Module modules.new.items
        ≡ meanings_of M.Module modules.old.items }
    ensures within { AreWithin (base + length entries.now) modules.old.items
        → AreWithin (base + length entries.now) modules.new.items }
{
    let at = record.module as usize;
    if at >= modules.len() {
        return Ok(false);
    }
    let own = &mut modules[at];
    own.take(alloc, base, entries, record)
}
