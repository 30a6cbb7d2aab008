//! The making of a store.

ghost use Rattle.std.specs.Prelude.{◌≡◌, ℕ, ◌∷◌, [], ◌≤◌, ◌<◌, ◌^◌, List, length, Some, IfOk};
ghost use Rattle.std.specs.Prelude.{IfErr, ◌⊎◌, true, false, OnOk, OnErr};
ghost use Rattle.fm_outer.specs.Failures.{HasCause, Rose};
ghost use Rattle.fm_outer.specs.Moments.{LeavesOnly, OnlyRead};
ghost use Rattle.fm_journal.specs.Crash.{IsEmptyOrNone, IsOldOrNew};
ghost use Rattle.fm_journal.specs.Format.{IsJournal};
ghost use Rattle.fm_journal.specs.JournalOf.{blank_journal};
ghost use Rattle.fm_journal.specs.Keeps.{Keeps};
ghost use Rattle.fm_saved.specs.Confs.{IsSpelledConf, conf_bytes};
ghost use Rattle.fm_logs.specs.Contents.{Contents, AreSameDisks, AreTold};
ghost use Rattle.fm_logs.specs.declared.fault.StoreFault.TheVariants.{Disk as DiskFailed};
ghost use Rattle.fm_logs.specs.LogsOf.{FrameRefused};
ghost use Rattle.fm_slots.specs.Format.{IsClosedSlot};
ghost use Rattle.fm_init.specs.Making.{HasStore, IsNoneOrConf, LookRefused};
ghost use Rattle.fm_init.specs.Making.{InitDoes, disks_back, OnlyLooked, AreReady, RoseOnOne};
ghost use Rattle.fm_init.specs.Making.{counts_on};

use crate::refused::StoreRefused;
use fm_journal::{Frame, FrameFault, FullKind, Journal, JournalFault};
use fm_logs::{Disks, StoreFault};
use fm_outer::{Disk, Failed};
use fm_saved::{Conf, write_conf};
use fm_slots::clear;
use std::alloc::Global;

/// The frame of a configuration.
fn conf_frame(alloc: Global, conf: &Conf) -> Result<Frame, StoreFault>
    requires { IsSpelledConf conf.now }
    ensures ok { IfOk result (λ frame. frame ≡ conf_bytes conf.now) }
    ensures short { OnOk result (length (conf_bytes conf.now) ≤ 2 ^ 28) }
    ensures err { IfErr result (FrameRefused (conf_bytes conf.now)) }
{
    let mut bytes = Vec::new(alloc);
    write_conf(conf, &mut bytes)?;
    match Frame::new(alloc, &bytes) {
        Ok(frame) => Ok(frame),
        Err(FrameFault::TooLong) => Err(StoreFault::Full(FullKind::Payload)),
        Err(FrameFault::NoMemory) => Err(StoreFault::NoMemory),
    }
}

/// Whether a store is on the configurations' disk.
fn has_store<D: Disk>(disk: D) -> (D, Result<bool, Failed>)
    ensures there { IfOk result.1 (λ there. there ≡ true → (bytes : List ℕ)
        → D.seen disk ≡ Some bytes → HasStore bytes) }
    ensures none { IfOk result.1 (λ there. there ≡ false → (bytes : List ℕ)
        → D.seen disk ≡ Some bytes → IsEmptyOrNone bytes) }
    ensures still { OnlyRead D.Disk disk result.0 }
    ensures cause { HasCause (D.failures disk) (D.failures result.0) result.1 }
{
    match Journal::open(disk) {
        Ok(journal) => {
            let there = journal.count() > 0;
            (journal.into_disk(), Ok(there))
        }
        Err(refused) => match refused.fault {
            JournalFault::Damaged { place: _ } => (refused.into_disk(), Ok(false)),
            JournalFault::Disk => (refused.into_disk(), Err(Failed)),
            _ => unreachable!(),
        },
    }
}

/// Makes the disk a journal without payloads, from the number 0 on.
fn make_log<D: Disk>(disk: D) -> (D, Result<(), Failed>)
    ensures made { OnOk result.1 ((bytes c : List ℕ) → D.seen disk ≡ Some bytes
        → D.images result.0 c → IsJournal c 0 []) }
    ensures same_disk { D.name result.0 ≡ D.name disk }
    ensures cause { HasCause (D.failures disk) (D.failures result.0) result.1 }
{
    match Journal::create(disk, 0) {
        Ok(journal) => (journal.into_disk(), Ok(())),
        Err(refused) => (refused.into_disk(), Err(Failed)),
    }
}

/// Adds the payload to the journal, which is empty, and gives its disk.
fn put_first<D: Disk>(journal: Journal<D>, frame: &Frame) -> (D, Result<(), Failed>)
    requires empty { journal ≡ blank_journal journal.disk 0 }
    requires short { length frame.now ≤ 2 ^ 28 }
    ensures made { OnOk result.1 (Keeps D.Disk journal [] → (c : List ℕ)
        → D.images result.0 c → IsJournal c 0 (frame.now ∷ [])) }
    ensures any_moment { Keeps D.Disk journal []
        → LeavesOnly D.Disk journal.disk result.0 (IsOldOrNew 0 [] frame.now) }
    ensures same_disk { D.name result.0 ≡ D.name journal.disk }
    ensures cause { HasCause (D.failures journal.disk) (D.failures result.0) result.1 }
{
    let mut journal = journal;
    let done = journal.append(frame);
    let disk = journal.into_disk();
    match done {
        Ok(_) => (disk, Ok(())),
        Err(JournalFault::Disk) => (disk, Err(Failed)),
        Err(_) => unreachable!(),
    }
}

/// Makes the disk a journal of the payload alone, where none of its images has a store.
fn put_conf<D: Disk>(disk: D, frame: &Frame) -> (D, Result<(), Failed>)
    requires none { (c : List ℕ) → D.images disk c → IsEmptyOrNone c }
    requires short { length frame.now ≤ 2 ^ 28 }
    ensures made { OnOk result.1 ((bytes c : List ℕ) → D.seen disk ≡ Some bytes
        → D.images result.0 c → IsJournal c 0 (frame.now ∷ [])) }
    ensures any_moment { (bytes : List ℕ) → D.seen disk ≡ Some bytes
        → LeavesOnly D.Disk disk result.0 (IsNoneOrConf frame.now) }
    ensures same_disk { D.name result.0 ≡ D.name disk }
    ensures cause { HasCause (D.failures disk) (D.failures result.0) result.1 }
{
    match Journal::create(disk, 0) {
        Ok(journal) => put_first(journal, frame),
        Err(refused) => (refused.into_disk(), Err(Failed)),
    }
}

/// Syncs the configurations' disk, and refuses where there is a store.
fn refuse_store<D: Disk>(disk: D) -> (D, Result<(), StoreFault>)
    ensures none { OnOk result.1 ((c : List ℕ) → D.images result.0 c → IsEmptyOrNone c) }
    ensures none_told { OnOk result.1 ((bytes : List ℕ) → D.seen disk ≡ Some bytes
        → IsEmptyOrNone bytes) }
    ensures still { OnlyRead D.Disk disk result.0 }
    ensures cause { IfErr result.1 (LookRefused D.Disk disk result.0) }
    ensures kept { OnOk result.1 (D.failures result.0 ≡ D.failures disk) }
{
    let mut disk = disk;
    let Ok(()) = disk.sync() else {
        return (disk, Err(StoreFault::Disk));
    };
    let (disk, there) = has_store(disk);
    match there {
        Ok(true) => (disk, Err(StoreFault::Exists)),
        Ok(false) => (disk, Ok(())),
        Err(Failed) => (disk, Err(StoreFault::Disk)),
    }
}

/// Closes both slots.
fn close_slots<D: Disk>(slot_a: &mut D, slot_b: &mut D) -> Result<(), Failed>
    ensures first { OnOk result ((c : List ℕ) → D.images slot_a.new c → IsClosedSlot c) }
    ensures second { OnOk result ((c : List ℕ) → D.images slot_b.new c → IsClosedSlot c) }
    ensures same_disks { (D.name slot_a.new ≡ D.name slot_a.old)
        × (D.name slot_b.new ≡ D.name slot_b.old) }
    ensures kept { OnOk result ((D.failures slot_a.new ≡ D.failures slot_a.old)
        × (D.failures slot_b.new ≡ D.failures slot_b.old)) }
    ensures rose { OnErr result (Rose (D.failures slot_a.old) (D.failures slot_a.new)
        ⊎ Rose (D.failures slot_b.old) (D.failures slot_b.new)) }
{
    clear(slot_a)?;
    clear(slot_b)
}

/// Closes the slots, and makes both logs journals without payloads.
fn make_others<D: Disk>(disks: Disks<D>) -> Result<Disks<D>, StoreRefused<D>>
    ensures ready { IfOk result (λ made. (c : Contents) → AreTold D.Disk disks c
        → AreReady D.Disk made) }
    ensures conf_same { (disks_back result).conf ≡ disks.conf }
    ensures second_same { (disks_back result).err_b ≡ disks.err_b }
    ensures same_disks { AreSameDisks D.Disk disks (disks_back result) }
    ensures rose { IfErr result (λ refused. (refused.fault ≡ DiskFailed)
        × RoseOnOne D.Disk disks refused.disks) }
    ensures kept { IfOk result (λ made. counts_on D.Disk made ≡ counts_on D.Disk disks) }
{
    let fault = StoreFault::Disk;
    let mut disks = disks;
    let Ok(()) = close_slots(&mut disks.slot_a, &mut disks.slot_b) else {
        return Err(StoreRefused { disks, fault });
    };
    let (err_a, made) = make_log(disks.err_a);
    let disks = Disks { err_a, ..disks };
    let Ok(()) = made else {
        return Err(StoreRefused { disks, fault });
    };
    let (flt, made) = make_log(disks.flt);
    let disks = Disks { flt, ..disks };
    match made {
        Ok(()) => Ok(disks),
        Err(Failed) => Err(StoreRefused { disks, fault }),
    }
}

/// Syncs the configurations' disk, and refuses the disks where there is a store.
fn look<D: Disk>(disks: Disks<D>) -> Result<Disks<D>, StoreRefused<D>>
    ensures only { OnlyLooked D.Disk disks (disks_back result) }
    ensures none { IfOk result (λ looked. (c : List ℕ) → D.images looked.conf c
        → IsEmptyOrNone c) }
    ensures none_told { OnOk result ((c : List ℕ) → D.seen disks.conf ≡ Some c
        → IsEmptyOrNone c) }
    ensures refused { IfErr result (λ refused.
        LookRefused D.Disk disks.conf refused.disks.conf refused.fault) }
    ensures kept { IfOk result (λ looked. D.failures looked.conf ≡ D.failures disks.conf) }
{
    let (conf, looked) = refuse_store(disks.conf);
    let disks = Disks { conf, ..disks };
    match looked {
        Ok(()) => Ok(disks),
        Err(fault) => Err(StoreRefused { disks, fault }),
    }
}

/// Writes the configuration, once all else is ready.
fn finish<D: Disk>(disks: Disks<D>, frame: &Frame) -> Result<Disks<D>, StoreRefused<D>>
    requires none { (c : List ℕ) → D.images disks.conf c → IsEmptyOrNone c }
    requires short { length frame.now ≤ 2 ^ 28 }
    ensures made { IfOk result (λ made. (bytes c : List ℕ) → D.seen disks.conf ≡ Some bytes
        → D.images made.conf c → IsJournal c 0 (frame.now ∷ [])) }
    ensures any_moment { (bytes : List ℕ) → D.seen disks.conf ≡ Some bytes
        → LeavesOnly D.Disk disks.conf (disks_back result).conf (IsNoneOrConf frame.now) }
    ensures others { disks_back result ≡ record disks { conf = (disks_back result).conf } }
    ensures same_disk { D.name (disks_back result).conf ≡ D.name disks.conf }
    ensures rose { IfErr result (λ refused. (refused.fault ≡ DiskFailed)
        × Rose (D.failures disks.conf) (D.failures refused.disks.conf)) }
    ensures kept { IfOk result (λ made. D.failures made.conf ≡ D.failures disks.conf) }
{
    let (conf, done) = put_conf(disks.conf, frame);
    let disks = Disks { conf, ..disks };
    match done {
        Ok(()) => Ok(disks),
        Err(Failed) => Err(StoreRefused {
            disks,
            fault: StoreFault::Disk,
        }),
    }
}

/// Makes a store of the configuration, where there is none: closed slots, two empty logs, and last
/// the configuration. `Exists` exactly where the configurations' disk is a journal with a payload.
pub fn init<D: Disk>(
    alloc: Global,
    disks: Disks<D>,
    conf: &Conf,
) -> Result<Disks<D>, StoreRefused<D>>
    requires { IsSpelledConf conf.now }
    ensures does { InitDoes D.Disk disks conf.now result }
    ensures quiet { IfOk result (λ made. counts_on D.Disk made ≡ counts_on D.Disk disks) }
    ensures same_disks { AreSameDisks D.Disk disks (disks_back result) }
{
    let disks = look(disks)?;
    let frame = match conf_frame(alloc, conf) {
        Ok(frame) => frame,
        Err(fault) => return Err(StoreRefused { disks, fault }),
    };
    match make_others(disks) {
        Ok(disks) => finish(disks, &frame),
        Err(refused) => Err(refused),
    }
}
