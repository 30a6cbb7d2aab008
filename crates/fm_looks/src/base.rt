//! What is known at the base of a store, read from its slots.

ghost use Rattle.std.specs.Prelude.{◌≡◌, ◌<◌, ◌≤◌, ◌^◌, ℕ, List, Some, None, IfOk, IfErr, OnOk};
ghost use Rattle.std.specs.Option.{option_map};
ghost use Rattle.fm_outer.specs.Moments.{OnlyRead};
ghost use Rattle.fm_slots.specs.Pair.{found_slot};
ghost use Rattle.fm_looks.specs.Bases.{AreSlotsRead, SlotsKept, SlotsCause, BaseCause, newest_of};
ghost use Rattle.fm_looks.specs.Bases.{fault_of_slots};
ghost use Rattle.fm_looks.specs.Opening.{SaysCheckpoint, first_checkpoint, slot_name};

use fm_bytes::{Items, NoMemory};
use fm_logs::{DiskName, StoreFault};
use fm_outer::Disk;
use fm_saved::{Checkpoint, read_checkpoint};
use fm_slots::{Found, SlotFault, newest};
use std::alloc::Global;

/// Whether the slot in force is the second and its sequence, if a slot is open, and what is known
/// at the base.
#[derive(Drop)]
pub struct BaseRead {
    pub newest: Option<(bool, u64)>,
    pub checkpoint: Checkpoint,
}

/// The name of a slot's disk.
pub fn slot_disk(second: bool) -> DiskName
    ensures { result ≡ slot_name second }
{
    if second {
        DiskName::SlotB
    } else {
        DiskName::SlotA
    }
}

/// What a fault of the slots is to the store.
fn slot_fault(fault: SlotFault) -> StoreFault
    ensures { result ≡ fault_of_slots fault }
{
    match fault {
        SlotFault::Disk => StoreFault::Disk,
        SlotFault::Damaged { second, place } => StoreFault::Damaged {
            disk: slot_disk(second),
            place,
        },
        SlotFault::NoMemory => StoreFault::NoMemory,
    }
}

/// What is known before any slot is open.
fn start_of(alloc: Global) -> Checkpoint
    ensures { result ≡ first_checkpoint }
{
    Checkpoint {
        second: false,
        base: 0,
        moment: 0,
        conf: 0,
        states: Items::new(Vec::new(alloc)),
    }
}

/// What the slot that was found says, in a store of so many configurations.
fn base_of(alloc: Global, found: Option<Found>, known: u64) -> Result<BaseRead, StoreFault>
    requires some { 1 ≤ known }
    ensures says { IfOk result (λ read. SaysCheckpoint known (found_slot found) read.checkpoint) }
    ensures newest { IfOk result (λ read. read.newest ≡ newest_of (found_slot found)) }
    ensures fits { IfOk result (λ read. read.checkpoint.moment < 2 ^ 62) }
    ensures known { IfOk result (λ read. read.checkpoint.conf < known) }
    ensures cause { IfErr result (BaseCause known (found_slot found)) }
{
    let Some(found) = found else {
        return Ok(BaseRead {
            newest: None,
            checkpoint: start_of(alloc),
        });
    };
    let Found {
        second,
        sequence,
        payload,
    } = found;
    let damaged = StoreFault::Damaged {
        disk: slot_disk(second),
        place: 13,
    };
    let Some(checkpoint) = read_checkpoint(alloc, &payload)? else {
        return Err(damaged);
    };
    if u64::from(checkpoint.conf) >= known {
        return Err(damaged);
    }
    Ok(BaseRead {
        newest: Some((second, sequence)),
        checkpoint,
    })
}

/// Reads what the slots say of the base of a store that has so many configurations. Both are synced
/// first.
pub fn read_base<D: Disk>(
    alloc: Global,
    slot_a: &mut D,
    slot_b: &mut D,
    known: u64,
) -> Result<BaseRead, StoreFault>
    requires some { 1 ≤ known }
    ensures passes { IfOk result (λ read. (x y : List ℕ) → D.seen slot_a.old ≡ Some x
        → D.seen slot_b.old ≡ Some y → SlotsKept x y known read.newest read.checkpoint) }
    ensures fits { IfOk result (λ read. read.checkpoint.moment < 2 ^ 62) }
    ensures known { IfOk result (λ read. read.checkpoint.conf < known) }
    ensures read { OnOk result
        (AreSlotsRead D.Disk slot_a.old slot_b.old slot_a.new slot_b.new) }
    ensures still_a { OnlyRead D.Disk slot_a.old slot_a.new }
    ensures still_b { OnlyRead D.Disk slot_b.old slot_b.new }
    ensures cause { IfErr result
        (SlotsCause D.Disk known slot_a.old slot_b.old slot_a.new slot_b.new) }
{
    match newest(alloc, slot_a, slot_b) {
        Ok(found) => base_of(alloc, found, known),
        Err(fault) => Err(slot_fault(fault)),
    }
}
