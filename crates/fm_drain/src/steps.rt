//! One step of a module, and its commit.

ghost use Rattle.std.specs.Prelude.{◌≡◌, ◌+◌, ◌-◌, ◌<◌, ◌≤◌, ◌^◌, List, length, All, IfOk, IfErr};
ghost use Rattle.std.specs.Prelude.{OnOk, Some, slice_get};
ghost use Rattle.std.specs.Option.{option_map, ForSome};
ghost use Rattle.fm_entry.specs.Entries.{IsSpelled};
ghost use Rattle.fm_entry.specs.WordBytes.{spoken_bytes};
ghost use Rattle.fm_entry.specs.Words.{IsWordOf};
ghost use Rattle.fm_core.specs.Book.{ModuleState};
ghost use Rattle.fm_core.specs.Hands.{shown};
ghost use Rattle.fm_core.specs.Outcome.{kept_record};
ghost use Rattle.fm_core.specs.Seen.{FollowsAs};
ghost use Rattle.fm_logs.specs.LogsOf.{FrameRefused, Frames};
ghost use Rattle.fm_logs.specs.StoreBook.{StoreBook};
ghost use Rattle.fm_store.specs.Cursors.{IsAtCursor};
ghost use Rattle.fm_store.specs.StoreCalls.{next_entry};
ghost use Rattle.fm_store.specs.StoreLeft.{AreSameStore};
ghost use Rattle.fm_store.specs.StoreOf.{StoreStandsFor};
ghost use Rattle.fm_drain.specs.DrainSteps.{HandDoes, HandOnBook};

use fm_core::{Hand, Module};
use fm_entry::{Entry, Spoken, write_spoken};
use fm_journal::{Frame, FrameFault, FullKind};
use fm_outer::Disk;
use fm_store::{Committed, Store, StoreFault};
use std::alloc::Global;

/// The most bytes of a record, and so the most words.
const MAX_PAYLOAD: usize = 1 << 28;

/// The frame of what was said; `None` where nothing was.
#[tactic(auto, using(crate::proofs::Lengths::record_long))]
fn words_frame(alloc: Global, spoken: &Spoken) -> Result<Option<Frame>, StoreFault>
    requires module_fits { spoken.now.module < 8 }
    requires number_fits { spoken.now.number < 2 ^ 46 }
    requires words_are { All (IsWordOf spoken.now.module) spoken.now.events }
    ensures ok { IfOk result (λ frame. Frames frame (kept_record spoken.now)) }
    ensures short { IfOk result (λ frame. ForSome frame (λ payload.
        (payload ≡ spoken_bytes spoken.now) × (length payload ≤ 2 ^ 28))) }
    ensures err { IfErr result (FrameRefused (spoken_bytes spoken.now)) }
{
    let words = spoken.events.as_slice().len();
    if words == 0 {
        return Ok(None);
    }
    if words > MAX_PAYLOAD {
        return Err(StoreFault::Full(FullKind::Payload));
    }
    let mut bytes = Vec::new(alloc);
    write_spoken(spoken, &mut bytes)?;
    match Frame::new(alloc, &bytes) {
        Ok(frame) => Ok(Some(frame)),
        Err(FrameFault::TooLong) => Err(StoreFault::Full(FullKind::Payload)),
        Err(FrameFault::NoMemory) => Err(StoreFault::NoMemory),
    }
}

/// The entry with this number, which is in memory.
fn entry_at<D: Disk, M>(store: &Store<D, M>, number: u64) -> &Entry
    requires from_base { store.now.logs.base ≤ number }
    requires before_end { number < next_entry store.now.logs }
    ensures entry { slice_get store.now.logs.entries (number - store.now.logs.base)
        ≡ Some result.now }
    ensures spelled { IsSpelled result.now }
{
    &store.entries()[(number - store.base()) as usize]
}

/// Lets the hand take the entry at its cursor, and commits what it says. The hand may be a step
/// past its module's cursor after a refusal.
pub(crate) fn step_hand<D: Disk, M: Module>(
    store: &mut Store<D, M>,
    alloc: Global,
    hand: Hand<M>,
) -> (Hand<M>, Result<(), StoreFault>)
    requires few { hand.number < 8 }
    requires at_cursor { IsAtCursor M.Module store.old.logs hand.number hand }
    requires more { hand.cursor < next_entry store.old.logs }
    requires fits { next_entry store.old.logs ≤ 2 ^ 46 }
    ensures does { HandDoes D.Disk M.Module store.old store.new hand result.0 result.1 }
    ensures next { OnOk result.1 (result.0.cursor ≡ hand.cursor + 1) }
    ensures book { (fresh : List ModuleState) (k : StoreBook)
        → StoreStandsFor D.Disk fresh store.old k
        → FollowsAs k.book hand.number (shown M.Module hand)
        → HandOnBook D.Disk fresh store.old store.new k result.1 }
    ensures same_disks { AreSameStore D.Disk store.old store.new }
{
    if let Some((disk, faults)) = store.closed() {
        return (hand, Err(StoreFault::Closed { disk, faults }));
    }
    let own = hand.module();
    let number = hand.cursor();
    match hand.step(alloc, entry_at(store, number)) {
        Ok((hand, spoken)) => match words_frame(alloc, &spoken) {
            Ok(frame) => match store.commit(own, number, frame.as_ref()) {
                Ok(Committed::Done) => (hand, Ok(())),
                Ok(Committed::Stale { cursor: _ }) => unreachable!(),
                Err(fault) => (hand, Err(fault)),
            },
            Err(fault) => (hand, Err(fault)),
        },
        Err((hand, _)) => (hand, Err(StoreFault::NoMemory)),
    }
}

/// Lets the hand take all entries that it has not taken, and commits each step.
pub(crate) fn drain_hand<D: Disk, M: Module>(
    store: &mut Store<D, M>,
    alloc: Global,
    hand: Hand<M>,
) -> (Hand<M>, Result<(), StoreFault>)
    requires few { hand.number < 8 }
    requires at_cursor { IsAtCursor M.Module store.old.logs hand.number hand }
    ensures does { HandDoes D.Disk M.Module store.old store.new hand result.0 result.1 }
    ensures at_end { OnOk result.1 (result.0.cursor ≡ next_entry store.old.logs) }
    ensures book { (fresh : List ModuleState) (k : StoreBook)
        → StoreStandsFor D.Disk fresh store.old k
        → FollowsAs k.book hand.number (shown M.Module hand)
        → HandOnBook D.Disk fresh store.old store.new k result.1 }
    ensures same_disks { AreSameStore D.Disk store.old store.new }
{
    let mut now = hand;
    'entries: for _number in now.cursor()..store.next_entry() {
        let (next, done) = step_hand(store, alloc, now);
        now = next;
        if let Err(fault) = done {
            return (now, Err(fault));
        }
    }
    (now, Ok(()))
}
