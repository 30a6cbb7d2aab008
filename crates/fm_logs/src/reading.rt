//! The values of a log, read from its disk.

ghost use Rattle.std.specs.Prelude.{◌≡◌, ℕ, List, None, IfOk, IfErr, OnOk};
ghost use Rattle.fm_outer.specs.Moments.{OnlyRead};
ghost use Rattle.fm_entry.specs.declared.spoken.Spoken.{Spoken};
ghost use Rattle.fm_journal.specs.Keeps.{Keeps};
ghost use Rattle.fm_logs.specs.LogReads.{AreOrdered, ValuesCause};
ghost use Rattle.fm_payloads.specs.Spelling.{EachSpells};
ghost use Rattle.fm_logs.specs.ReadsAsBook.{SpellsEntry, SpellsSpoken};
ghost use Rattle.fm_logs.specs.declared.disks.DiskName.TheVariants.{Flt};

use crate::disks::DiskName;
use crate::fault::StoreFault;
use fm_bytes::NoMemory;
use fm_entry::{Entry, Spoken, read_entry, read_spoken};
use fm_journal::Journal;
use fm_outer::Disk;
use fm_payloads::{PayloadCodec, ReadingFault, read_values};
use std::alloc::Global;

/// The spelling of entries.
#[derive(Drop)]
pub(crate) struct EntrySpelling;

impl PayloadCodec<Entry> for EntrySpelling {
    ghost spells = { λ payload entry. SpellsEntry payload entry };

    fn read(&self, alloc: Global, payload: &[u8]) -> Result<Option<Entry>, NoMemory> {
        read_entry(alloc, payload)
    }
}

/// The spelling of records.
#[derive(Drop)]
struct RecordSpelling;

impl PayloadCodec<Spoken> for RecordSpelling {
    ghost spells = { λ payload spoken. SpellsSpoken payload spoken };

    fn read(&self, alloc: Global, payload: &[u8]) -> Result<Option<Spoken>, NoMemory> {
        read_spoken(alloc, payload)
    }
}

/// The values that the payloads of an open log on this disk spell, in order.
pub(crate) fn read_log<D: Disk, T: Drop, C: PayloadCodec<T> + Drop>(
    alloc: Global,
    disk: DiskName,
    journal: &mut Journal<D>,
    codec: C,
) -> Result<Vec<T>, StoreFault>
    requires is_open { journal.old.closed ≡ None }
    ensures read { IfOk result (λ values. (payloads : List (List ℕ))
        → Keeps D.Disk journal.old payloads → EachSpells C.spells payloads values.items) }
    ensures same { journal.new ≡ record journal.old { disk = journal.new.disk } }
    ensures still { OnlyRead D.Disk journal.old.disk journal.new.disk }
    ensures cause { IfErr result
        (ValuesCause D.Disk C.spells «disk» journal.old journal.new) }
    ensures count_kept { OnOk result (D.failures journal.new.disk ≡ D.failures journal.old.disk) }
{
    match read_values(alloc, journal, codec) {
        Ok(read) => match read.stop {
            None => Ok(read.values),
            Some(place) => Err(StoreFault::Damaged { disk, place }),
        },
        Err(ReadingFault::Disk) => Err(StoreFault::Disk),
        Err(ReadingFault::Changed { place }) => Err(StoreFault::Damaged { disk, place }),
        Err(ReadingFault::NoMemory) => Err(StoreFault::NoMemory),
    }
}

/// The records of an open fault log, by number and those of one number by module.
pub(crate) fn read_records<D: Disk>(
    alloc: Global,
    flt: &mut Journal<D>,
) -> Result<Vec<Spoken>, StoreFault>
    requires is_open { flt.old.closed ≡ None }
    ensures read { IfOk result (λ found. (payloads : List (List ℕ)) (records : List Spoken)
        → Keeps D.Disk flt.old payloads → EachSpells SpellsSpoken payloads records
        → AreOrdered records found.items) }
    ensures same { flt.new ≡ record flt.old { disk = flt.new.disk } }
    ensures still { OnlyRead D.Disk flt.old.disk flt.new.disk }
    ensures cause { IfErr result (ValuesCause D.Disk SpellsSpoken Flt flt.old flt.new) }
    ensures count_kept { OnOk result (D.failures flt.new.disk ≡ D.failures flt.old.disk) }
{
    let mut records = read_log(alloc, DiskName::Flt, flt, RecordSpelling)?;
    records.sort_by_key(|record| (record.number, record.module))?;
    Ok(records)
}
