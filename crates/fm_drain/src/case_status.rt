//! What each case has come to, by the records of a store.

ghost use Rattle.std.specs.Prelude.{◌≡◌, List, IfOk, IfErr};
ghost use Rattle.fm_core.specs.Book.{ModuleState};
ghost use Rattle.fm_logs.specs.LogReads.{ReadsSpoken, UnreadLog};
ghost use Rattle.fm_logs.specs.StoreBook.{StoreBook};
ghost use Rattle.fm_logs.specs.declared.disks.DiskName.TheVariants.{Flt};
ghost use Rattle.fm_drain.specs.CaseStatus.{StatusWasRead, IsStatusOfBook, words_in};
ghost use Rattle.fm_status.specs.Rows.{AreRows};
ghost use Rattle.fm_store.specs.StoreLeft.{AreSameStore};
ghost use Rattle.fm_store.specs.StoreOf.{StoreStandsFor};
ghost use Rattle.fm_store.specs.StoreReading.{IsNoDamage};

use fm_bytes::NoMemory;
use fm_entry::Spoken;
use fm_outer::Disk;
use fm_status::Status;
use fm_store::{Store, StoreFault};
use std::alloc::Global;

/// The rows of the words of records, in the order of these.
fn status_from(alloc: Global, records: Vec<Spoken>) -> Result<Status, NoMemory>
    ensures { IfOk result (AreRows (words_in records.items)) }
{
    let mut status = Status::new(alloc);
    'records: for record in records {
        status.take(record)?;
    }
    Ok(status)
}

/// The rows of all words that the fault log has, which is read once. The store stands for the same
/// book. `Damaged` never comes while it stands for one; a closed store answers `Closed`.
pub fn read_status<D: Disk, M>(store: &mut Store<D, M>, alloc: Global) -> Result<Status, StoreFault>
    ensures reads { ReadsSpoken D.Disk store.old.logs store.new.logs }
    ensures base_same { store.new.base ≡ store.old.base }
    ensures rows { IfOk result (StatusWasRead D.Disk store.old.logs store.new.logs) }
    ensures refused { IfErr result (UnreadLog D.Disk Flt store.old.logs store.new.logs
        store.old.logs.flt.disk store.new.logs.flt.disk) }
    ensures book { (fresh : List ModuleState) (k : StoreBook)
        → StoreStandsFor D.Disk fresh store.old k → StoreStandsFor D.Disk fresh store.new k }
    ensures status { (fresh : List ModuleState) (k : StoreBook)
        → StoreStandsFor D.Disk fresh store.old k → IfOk result (IsStatusOfBook k.book) }
    ensures undamaged { (fresh : List ModuleState) (k : StoreBook)
        → StoreStandsFor D.Disk fresh store.old k → IfErr result IsNoDamage }
    ensures same_disks { AreSameStore D.Disk store.old store.new }
{
    let records = store.spoken(alloc)?;
    Ok(status_from(alloc, records)?)
}
