// The newest slot of a pair.
ghost use Rattle.std.specs.Prelude.{◌≡◌, ◌⊎◌, ◌+◌, ◌≤◌, ℕ, List, length, Some, IfOk, IfErr, OnOk};
ghost use Rattle.std.specs.Prelude.{IfSome};
ghost use Rattle.fm_outer.specs.Bytes.{range, InsideRange};
ghost use Rattle.fm_outer.specs.Moments.{IsSettled, OnlyRead};
ghost use Rattle.fm_slots.specs.InForce.{InForce};
ghost use Rattle.fm_slots.specs.Pair.{IsUndamaged, pick_at, later_pick, which};
ghost use Rattle.fm_slots.specs.Pair.{found_slot, NoCallFailed};
ghost use Rattle.fm_slots.specs.Pair.{ReadCause, PickCause, NewestCause};
ghost use Rattle.fm_slots.specs.declared.fault.SlotFault.TheVariants.{Damaged as IsDamagedAt};
ghost use Rattle.fm_slots.specs.declared.standing.Standing.TheVariants.{Bad as IsBad};

use crate::SlotFault;
use crate::standing::{Standing, peek};
use fm_outer::Disk;
use std::alloc::Global;

/// The newest open slot of a pair: whether it is the second, its sequence and its payload.
#[derive(Drop)]
pub struct Found {
    pub second: bool,
    pub sequence: u64,
    pub payload: Vec<u8>,
}

/// An open slot: on which disk, its sequence, and how many bytes its payload has.
#[derive(Clone, Copy, Drop)]
pub(crate) struct Pick {
    pub(crate) second: bool,
    pub(crate) sequence: u64,
    pub(crate) count: u32,
}

/// The open slot of one disk, if there is one.
fn pick_of(standing: Standing, second: bool) -> Result<Option<Pick>, SlotFault>
    ensures found { IfOk result (λ pick. pick ≡ pick_at second standing) }
    ensures whole { OnOk result (IsUndamaged standing) }
    ensures damaged { IfErr result (λ fault. (fault ≡ IsDamagedAt second 0) × (standing ≡ IsBad)) }
{
    match standing {
        Standing::Closed => Ok(None),
        Standing::Open { sequence, count } => Ok(Some(Pick {
            second,
            sequence,
            count,
        })),
        Standing::Bad => Err(SlotFault::Damaged { second, place: 0 }),
    }
}

/// The one of the greater sequence; of equals the first.
fn later_of(first: Option<Pick>, second: Option<Pick>) -> Option<Pick>
    ensures { result ≡ later_pick first second }
{
    let Some(one) = first else {
        return second;
    };
    let Some(other) = second else {
        return Some(one);
    };
    if one.sequence < other.sequence {
        Some(other)
    } else {
        Some(one)
    }
}

/// The payload of a slot, which has so many bytes.
fn payload_of<D: Disk>(alloc: Global, disk: &mut D, count: u32) -> Result<Vec<u8>, SlotFault>
    requires { InsideRange 13 count (D.seen disk.old) }
    ensures payload { IfOk result (λ payload. (bytes : List ℕ) → D.seen disk.old ≡ Some bytes
        → payload.items ≡ range 13 count bytes) }
    ensures still { OnlyRead D.Disk disk.old disk.new }
    ensures cause { IfErr result (ReadCause (D.failures disk.old) (D.failures disk.new)) }
    ensures count_kept { OnOk result (D.failures disk.new ≡ D.failures disk.old) }
{
    let mut payload = vec![in alloc; 0; count as usize]?;
    disk.read(13, &mut payload)?;
    Ok(payload)
}

/// The payload of the slot that was picked.
fn picked_payload<D: Disk>(
    alloc: Global,
    a: &mut D,
    b: &mut D,
    pick: Pick,
) -> Result<Vec<u8>, SlotFault>
    requires { InsideRange 13 pick.count (D.seen (which pick.second a.old b.old)) }
    ensures payload { IfOk result (λ payload. (bytes : List ℕ)
        → D.seen (which pick.second a.old b.old) ≡ Some bytes
        → payload.items ≡ range 13 pick.count bytes) }
    ensures still_a { OnlyRead D.Disk a.old a.new }
    ensures still_b { OnlyRead D.Disk b.old b.new }
    ensures cause { IfErr result (PickCause D.Disk a.old b.old a.new b.new) }
    ensures count_kept { OnOk result (NoCallFailed D.Disk a.old b.old a.new b.new) }
{
    if pick.second {
        payload_of(alloc, b, pick.count)
    } else {
        payload_of(alloc, a, pick.count)
    }
}

/// Syncs both disks, and gives the open slot of the greater sequence, of equals the first; `None`
/// where neither is open.
pub fn newest<D: Disk>(alloc: Global, a: &mut D, b: &mut D) -> Result<Option<Found>, SlotFault>
    ensures found { IfOk result (λ found. (x y : List ℕ) → D.seen a.old ≡ Some x
        → D.seen b.old ≡ Some y → InForce x y (found_slot found)) }
    ensures settled { OnOk result (IsSettled D.Disk a.new × IsSettled D.Disk b.new) }
    ensures still_a { OnlyRead D.Disk a.old a.new }
    ensures still_b { OnlyRead D.Disk b.old b.new }
    ensures cause { IfErr result (NewestCause D.Disk a.old b.old a.new b.new) }
    ensures count_kept { OnOk result (NoCallFailed D.Disk a.old b.old a.new b.new) }
{
    let first = peek(a)?;
    let second = peek(b)?;
    let one = pick_of(first, false)?;
    let other = pick_of(second, true)?;
    let Some(pick) = later_of(one, other) else {
        return Ok(None);
    };
    let payload = picked_payload(alloc, a, b, pick)?;
    Ok(Some(Found {
        second: pick.second,
        sequence: pick.sequence,
        payload,
    }))
}
