//! Checkpoints of a store, and rotations, which begin a new journal too.

ghost use Rattle.std.specs.Prelude.{◌≡◌, ◌+◌, ◌<◌, ◌≤◌, ◌^◌, List, length, IfOk, IfErr, OnOk};
ghost use Rattle.std.specs.Prelude.{Some, None, nat_le, []};
ghost use Rattle.std.specs.List.{list_all};
ghost use Rattle.fm_core.specs.Book.{ModuleState};
ghost use Rattle.fm_logs.specs.LogsOf.{FrameRefused};
ghost use Rattle.fm_logs.specs.declared.fault.StoreFault.TheVariants.{Disk as DiskFailed};
ghost use Rattle.fm_logs.specs.StoreBook.{StoreBook};
ghost use Rattle.fm_saved.specs.Checkpoints.{IsSpelledCheckpoint, checkpoint_bytes};
ghost use Rattle.fm_store.specs.Rotating.{RotateDoes, RotatesOnBook};
ghost use Rattle.fm_store.specs.Slots.{next_slot, kept_slot, Replaces};
ghost use Rattle.fm_store.specs.StoreCalls.{AreAtEnd, AreLawful, saves_of, checkpoint_at};
ghost use Rattle.fm_store.specs.StoreCalls.{IsNextFrame, NextRefused, HandsAreDone, next_entry};
ghost use Rattle.fm_store.specs.StoreCalls.{CheckpointDoes, CheckpointsOnBook};
ghost use Rattle.fm_store.specs.StoreLeft.{AreSameStore};
ghost use Rattle.fm_looks.specs.Opening.{slot_name};
ghost use Rattle.fm_store.specs.StoreOf.{StoreStandsFor, fills_second, newest_sequence};
ghost use Rattle.fm_store.specs.StoreOf.{greatest_at, force_at};

use crate::store::Store;
use fm_bytes::{Items, NoMemory};
use fm_core::{Hand, Module};
use fm_journal::{FrameFault, FullKind};
use fm_logs::StoreFault;
use fm_looks::slot_disk;
use fm_outer::{Disk, Failed};
use fm_saved::{Checkpoint, SavedBytes, SavedStates, write_checkpoint};
use fm_slots::SlotFrame;
use std::alloc::Global;

/// The most bytes of a slot's payload.
const MAX_PAYLOAD: usize = 1 << 28;

/// The saves of the hands' states, in their order.
fn save_states<M: Module>(alloc: Global, hands: &[Hand<M>]) -> Result<SavedStates, NoMemory>
    ensures saves { IfOk result (λ states. states ≡ saves_of M.Module hands.now) }
    ensures lawful { OnOk result (AreLawful M.Module hands.now) }
{
    let mut states = Vec::new(alloc);
    'hands: for hand in hands {
        let mut bytes = Vec::new(alloc);
        hand.state().save(&mut bytes)?;
        states.push(SavedBytes::new(alloc, &bytes)?)?;
    }
    Ok(Items::new(states))
}

/// Whether no state is longer than a slot's payload may be.
fn are_short(states: &[SavedBytes]) -> bool
    ensures { result ≡ list_all (λ state. nat_le (length state) (2 ^ 28)) states.now }
{
    states.iter().all(|state| state.get().len() <= MAX_PAYLOAD)
}

/// The frame of a checkpoint under a sequence.
fn checkpoint_frame(
    alloc: Global,
    sequence: u64,
    checkpoint: &Checkpoint,
) -> Result<SlotFrame, StoreFault>
    requires positive { 1 ≤ sequence }
    requires fits { sequence < 2 ^ 62 }
    requires base_fits { checkpoint.now.base ≤ 2 ^ 46 }
    requires moment_fits { checkpoint.now.moment < 2 ^ 62 }
    requires conf_fits { checkpoint.now.conf < 2 ^ 32 }
    requires few { length checkpoint.now.states < 2 ^ 32 }
    ensures ok { IfOk result (λ frame. frame ≡ record {
      sequence = sequence;
      payload = checkpoint_bytes checkpoint.now;
    }) }
    ensures short { OnOk result (length (checkpoint_bytes checkpoint.now) ≤ 2 ^ 28) }
    ensures spelled { OnOk result (IsSpelledCheckpoint checkpoint.now) }
    ensures err { IfErr result (FrameRefused (checkpoint_bytes checkpoint.now)) }
{
    if !are_short(checkpoint.states.as_slice()) {
        return Err(StoreFault::Full(FullKind::Payload));
    }
    let mut bytes = Vec::new(alloc);
    write_checkpoint(checkpoint, &mut bytes)?;
    match SlotFrame::new(alloc, sequence, &bytes) {
        Ok(frame) => Ok(frame),
        Err(FrameFault::TooLong) => Err(StoreFault::Full(FullKind::Payload)),
        Err(FrameFault::NoMemory) => Err(StoreFault::NoMemory),
    }
}

impl<D: Disk, M> Store<D, M> {
    /// Puts the frame into the slot that is not in force. After `Disk` the store is closed.
    fn write_slot(&mut self, frame: &SlotFrame) -> Result<(), StoreFault>
        ensures replaces { Replaces D.Disk (next_slot self.old.base self.old.base.newest)
            (next_slot self.new.base self.old.base.newest) frame.now result }
        ensures base_is { self.new.base ≡ record self.old.base {
          slot_a = self.new.base.slot_a;
          slot_b = self.new.base.slot_b;
        } }
        ensures kept_same { kept_slot self.new.base self.old.base.newest
            ≡ kept_slot self.old.base self.old.base.newest }
        ensures ok { OnOk result (self.new.logs ≡ self.old.logs) }
        ensures err { IfErr result (λ fault. (fault ≡ DiskFailed)
            × (self.new.logs ≡ record self.old.logs {
              closed = Some (
                slot_name (fills_second self.old.base.newest),
                D.failures (next_slot self.new.base self.old.base.newest),
              );
            })) }
    {
        match self.base.replace_slot(frame) {
            Ok(()) => Ok(()),
            Err(Failed) => {
                let disk = slot_disk(self.base.fills_second());
                self.logs.close(disk, self.base.slot_faults());
                Err(StoreFault::Disk)
            }
        }
    }

    /// The base is at the end of the entries, where the slot that was just written says.
    fn move_base(&mut self, states: SavedStates)
        requires few { newest_sequence self.old.base.newest + 1 < 2 ^ 62 }
        ensures logs { self.new.logs ≡ record self.old.logs {
          base = next_entry self.old.logs;
          entries = [];
        } }
        ensures base { self.new.base ≡ record self.old.base {
          newest = Some (
            fills_second self.old.base.newest,
            newest_sequence self.old.base.newest + 1,
          );
          moment = greatest_at self.old;
          in_force = force_at self.old;
          states = states;
        } }
    {
        self.base.move_on(self.greatest, self.in_force, states);
        self.logs.rebase();
    }
}

impl<D: Disk, M: Module> Store<D, M> {
    /// The frame of the next checkpoint, with the saves that it has: of the active journal, the
    /// second or the first, and of hands that have come to the end.
    fn next_frame(
        &self,
        alloc: Global,
        second: bool,
        hands: &[Hand<M>],
    ) -> Result<(SlotFrame, SavedStates), StoreFault>
        requires as_many { length hands.now ≡ length self.now.logs.cursors }
        requires conf_fits { force_at self.now < 2 ^ 32 }
        ensures frame { IfOk result (λ (frame, _).
            IsNextFrame self.now second (saves_of M.Module hands.now) frame) }
        ensures states { IfOk result (λ (_, states). states ≡ saves_of M.Module hands.now) }
        ensures lawful { OnOk result (AreLawful M.Module hands.now) }
        ensures refused { IfErr result
            (NextRefused self.now second (saves_of M.Module hands.now)) }
    {
        if let Some((disk, faults)) = self.logs.closed() {
            return Err(StoreFault::Closed { disk, faults });
        }
        let sequence = self.base.sequence();
        if sequence >= (1 << 62) - 1 {
            return Err(StoreFault::Full(FullKind::Numbers));
        }
        let checkpoint = Checkpoint {
            second,
            base: self.logs.next_entry(),
            moment: self.greatest,
            conf: self.in_force,
            states: save_states(alloc, hands)?,
        };
        let frame = checkpoint_frame(alloc, sequence + 1, &checkpoint)?;
        Ok((frame, checkpoint.states))
    }

    /// Writes a checkpoint at the end of the entries: the states of the hands, which are one a
    /// module and have come to the end as the modules have. The entries are no longer in memory.
    /// It takes time for the states, and for dropping the entries.
    pub fn checkpoint(&mut self, alloc: Global, hands: &[Hand<M>]) -> Result<(), StoreFault>
        requires as_many { length hands.now ≡ length self.old.logs.cursors }
        requires at_end { AreAtEnd self.old.logs }
        ensures does { CheckpointDoes D.Disk self.old self.new (saves_of M.Module hands.now)
            result }
        ensures book { (fresh : List ModuleState) (k : StoreBook)
            → StoreStandsFor D.Disk fresh self.old k
            → HandsAreDone M.Module k.book hands.now
            → CheckpointsOnBook D.Disk fresh self.old self.new k result }
        ensures same_disks { AreSameStore D.Disk self.old self.new }
    {
        match self.next_frame(alloc, self.logs.is_second(), hands) {
            Ok((frame, states)) => match self.write_slot(&frame) {
                Ok(()) => {
                    self.move_base(states);
                    Ok(())
                }
                Err(fault) => Err(fault),
            },
            Err(fault) => Err(fault),
        }
    }

    /// Begins a journal on the other of two disks, for the entries to come, and writes a checkpoint
    /// that names it, as `checkpoint` does. The number of the next entry, which is the first of
    /// that journal.
    pub fn rotate(&mut self, alloc: Global, hands: &[Hand<M>]) -> Result<u64, StoreFault>
        requires as_many { length hands.now ≡ length self.old.logs.cursors }
        requires at_end { AreAtEnd self.old.logs }
        ensures does { RotateDoes D.Disk self.old self.new (saves_of M.Module hands.now) result }
        ensures book { (fresh : List ModuleState) (k : StoreBook)
            → StoreStandsFor D.Disk fresh self.old k
            → HandsAreDone M.Module k.book hands.now
            → RotatesOnBook D.Disk fresh self.old self.new k result }
        ensures same_disks { AreSameStore D.Disk self.old self.new }
    {
        let number = self.logs.next_entry();
        if number == 1 << 46 && self.logs.closed().is_none() {
            return Err(StoreFault::Full(FullKind::Numbers));
        }
        match self.next_frame(alloc, !self.logs.is_second(), hands) {
            Ok((frame, states)) => match self.base.change_journal(&mut self.logs, &frame) {
                Ok(()) => {
                    self.move_base(states);
                    Ok(number)
                }
                Err((disk, faults)) => {
                    self.logs.close(disk, faults);
                    Err(StoreFault::Disk)
                }
            },
            Err(fault) => Err(fault),
        }
    }
}
