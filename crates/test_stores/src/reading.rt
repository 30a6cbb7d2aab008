// What an opening of six disks finds, from their bytes alone: the first place at which they are
// damaged, in the order in which it looks at them (the configurations, the slots, what the one in
// force says, the active error journal, the states in the slot, the fault log), or what the store
// tells.

use crate::bases::{BaseFound, base_in, reports_of, slot_in, state_in};
use crate::configurations::configuration_fault;
use crate::entries::entry_fault;
use crate::gates::{Walked, walk_gates};
use crate::modules::{CountedSoFar, Logged, behind_records};
use crate::numbers::spelled_at;
use crate::openings::OpeningAnswer;
use crate::store_bytes::StoreBytes;
use fm_logs::{DiskName, StoreFault};
use fm_outer::NoMemory;
use std::alloc::Global;

/// The damage at this place of the disk.
fn damaged(disk: DiskName, place: u64) -> OpeningAnswer {
    OpeningAnswer::Refused(StoreFault::Damaged { disk, place })
}

/// The damage of the configurations.
fn confs_fault(bytes: &[u8], walked: &Walked) -> Option<u64> {
    if walked.is_damaged {
        return Some(walked.place as u64);
    }
    configuration_fault(bytes, walked.payloads.as_slice())
}

/// The slot in force: whether it is the second, and its payload, none where both are closed.
#[derive(Clone, Copy, Drop)]
struct InForceFound<'a> {
    is_second: bool,
    payload: Option<&'a [u8]>,
}

/// The slot in force of two with these sequences and ends.
fn in_force_of(bytes: &StoreBytes, first: (u64, usize), second: (u64, usize)) -> InForceFound<'_> {
    let is_second = first.0 < second.0;
    if is_second {
        return InForceFound {
            is_second,
            payload: bytes.of(DiskName::SlotB).get(13..second.1),
        };
    }
    let payload = if first.0 == 0 {
        None
    } else {
        bytes.of(DiskName::SlotA).get(13..first.1)
    };
    InForceFound { is_second, payload }
}

/// What is said of the base, with no slot in force that the history begins there.
fn base_found(in_force: InForceFound<'_>, confs: u64) -> Option<BaseFound> {
    match in_force.payload {
        Some(payload) => base_in(payload, confs),
        None => Some(BaseFound {
            base: 0,
            is_second: false,
            states_at: 0,
        }),
    }
}

/// The damage of the active error journal.
fn entries_fault(bytes: &[u8], walked: &Walked, base: u64) -> Option<u64> {
    let count = walked.payloads.len() as u64;
    if walked.is_damaged || walked.first.saturating_add(count) < base {
        return Some(walked.place as u64);
    }
    if walked.first > base {
        return Some(0);
    }
    entry_fault(bytes, walked.payloads.as_slice())
}

/// A module at the base, as the slot in force has it.
fn module_found(in_force: InForceFound<'_>, base: BaseFound, own: u64) -> Option<CountedSoFar> {
    let reports = match in_force.payload {
        Some(payload) => reports_of(state_in(payload, base.states_at, own)?)?,
        None => 0,
    };
    Some(CountedSoFar {
        next: base.base,
        reports,
        least: 0,
    })
}

/// Whether the slot in force has the states of two modules.
fn has_two_states(in_force: InForceFound<'_>, base: BaseFound) -> bool {
    let Some(payload) = in_force.payload else {
        return true;
    };
    spelled_at(payload, base.states_at, 4) == Some(2)
}

/// Both modules at the base.
fn modules_found(
    in_force: InForceFound<'_>,
    base: BaseFound,
) -> Option<(CountedSoFar, CountedSoFar)> {
    if !has_two_states(in_force, base) {
        return None;
    }
    let first = module_found(in_force, base, 0)?;
    Some((first, module_found(in_force, base, 1)?))
}

fn slot_name(is_second: bool) -> DiskName {
    if is_second {
        DiskName::SlotB
    } else {
        DiskName::SlotA
    }
}

fn journal_name(is_second: bool) -> DiskName {
    if is_second {
        DiskName::ErrB
    } else {
        DiskName::ErrA
    }
}

/// What is found in the fault log, behind these entries and modules.
fn found_in_records(
    alloc: Global,
    flt: &[u8],
    base: u64,
    logged: Logged<'_>,
    both: (CountedSoFar, CountedSoFar),
) -> Result<OpeningAnswer, NoMemory> {
    let walked = walk_gates(alloc, flt)?;
    if walked.is_damaged {
        return Ok(damaged(DiskName::Flt, walked.place as u64));
    }
    match behind_records(flt, walked.payloads.as_slice(), logged, base, both) {
        Ok((first, second)) => {
            let next = logged.first.saturating_add(logged.payloads.len() as u64);
            Ok(OpeningAnswer::Tells((base, next, first.next, second.next)))
        }
        Err(place) => Ok(damaged(DiskName::Flt, place)),
    }
}

/// What is found from the states in the slot on, behind the entries of this journal.
fn found_in_states(
    alloc: Global,
    flt: &[u8],
    in_force: InForceFound<'_>,
    base: BaseFound,
    logged: Logged<'_>,
) -> Result<OpeningAnswer, NoMemory> {
    match modules_found(in_force, base) {
        Some(both) => found_in_records(alloc, flt, base.base, logged, both),
        None => Ok(damaged(slot_name(in_force.is_second), 13)),
    }
}

/// What is found from the active error journal on.
fn found_in_journal(
    alloc: Global,
    bytes: &StoreBytes,
    in_force: InForceFound<'_>,
    base: BaseFound,
) -> Result<OpeningAnswer, NoMemory> {
    let name = journal_name(base.is_second);
    let journal = bytes.of(name);
    let walked = walk_gates(alloc, journal)?;
    if let Some(place) = entries_fault(journal, &walked, base.base) {
        return Ok(damaged(name, place));
    }
    let logged = Logged {
        bytes: journal,
        payloads: walked.payloads.as_slice(),
        first: walked.first,
    };
    found_in_states(alloc, bytes.of(DiskName::Flt), in_force, base, logged)
}

/// What is found from the slots on, where there are so many configurations.
fn found_in_slots(
    alloc: Global,
    bytes: &StoreBytes,
    confs: u64,
) -> Result<OpeningAnswer, NoMemory> {
    let Some(first) = slot_in(bytes.of(DiskName::SlotA)) else {
        return Ok(damaged(DiskName::SlotA, 0));
    };
    let Some(second) = slot_in(bytes.of(DiskName::SlotB)) else {
        return Ok(damaged(DiskName::SlotB, 0));
    };
    let in_force = in_force_of(bytes, first, second);
    match base_found(in_force, confs) {
        Some(base) => found_in_journal(alloc, bytes, in_force, base),
        None => Ok(damaged(slot_name(in_force.is_second), 13)),
    }
}

/// What an opening finds.
pub fn read_store(alloc: Global, bytes: &StoreBytes) -> Result<OpeningAnswer, NoMemory> {
    let conf = bytes.of(DiskName::Conf);
    let walked = walk_gates(alloc, conf)?;
    match confs_fault(conf, &walked) {
        Some(place) => Ok(damaged(DiskName::Conf, place)),
        None => found_in_slots(alloc, bytes, walked.payloads.len() as u64),
    }
}
