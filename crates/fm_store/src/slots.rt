//! The two slots of a store, and the disk of the error journal that is not active.

ghost use Rattle.std.specs.Prelude.{◌≡◌, ◌≢◌, ◌<◌, ◌^◌, Some, None, not, IfErr};
ghost use Rattle.std.specs.Option.{ForSome};
ghost use Rattle.fm_logs.specs.LogsOf.{name_of_two};
ghost use Rattle.fm_store.specs.Rotating.{BeginsJournal};
ghost use Rattle.fm_store.specs.Slots.{Replaces};
ghost use Rattle.fm_store.specs.StoreOf.{of_two};

use fm_journal::Journal;
use fm_logs::DiskName;
use fm_outer::{Disk, Failed};
use fm_slots::{SlotFrame, replace};
use std::mem;

/// Puts the frame into the second of two slots, or into the first.
pub(crate) fn replace_of_two<D: Disk>(
    second: bool,
    slot_a: &mut D,
    slot_b: &mut D,
    frame: &SlotFrame,
) -> Result<(), Failed>
    ensures replaces { Replaces D.Disk (of_two second slot_a.old slot_b.old)
        (of_two second slot_a.new slot_b.new) frame.now result }
    ensures kept_same { of_two second slot_b.new slot_a.new ≡ of_two second slot_b.old slot_a.old }
{
    if second {
        replace(slot_b, frame)
    } else {
        replace(slot_a, frame)
    }
}

/// The name of the error journal's disk that is not active, where the second is, or the first.
pub(crate) fn spare_name(second: bool) -> DiskName
    ensures { result ≡ name_of_two (not second) }
{
    if second {
        DiskName::ErrA
    } else {
        DiskName::ErrB
    }
}

/// Puts the disk where none is.
pub(crate) fn put_back<D>(spare: &mut Option<D>, disk: D)
    requires { spare.old ≡ None }
    ensures { spare.new ≡ Some disk }
{
    match mem::replace(spare, Some(disk)) {
        None => {}
        Some(_other) => unreachable!(),
    }
}

/// Makes the disk a journal without payloads, whose first number will be `first`, and takes it
/// away. Where that fails the disk stays, and its count of failures is answered.
pub(crate) fn begin_journal<D: Disk>(spare: &mut Option<D>, first: u64) -> Result<Journal<D>, u64>
    requires there { spare.old ≢ None }
    requires small { first < 2 ^ 46 }
    ensures begins { BeginsJournal D.Disk spare.old spare.new first result }
    ensures faults { IfErr result (λ faults. ForSome spare.new (λ disk.
        faults ≡ D.failures disk)) }
{
    let Some(disk) = spare.take() else {
        unreachable!();
    };
    match Journal::create(disk, first) {
        Ok(journal) => Ok(journal),
        Err(refused) => {
            let disk = refused.into_disk();
            let faults = disk.faults();
            put_back(spare, disk);
            Err(faults)
        }
    }
}
