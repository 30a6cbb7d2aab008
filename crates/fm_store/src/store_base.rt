//! What a store has beside its logs.

ghost use Rattle.std.specs.Prelude.{◌≡◌, ◌+◌, ◌<◌, ◌^◌, Some};
ghost use Rattle.fm_store.specs.Rotating.{ChangeDoes};
ghost use Rattle.fm_store.specs.StoreCalls.{next_entry};
ghost use Rattle.fm_store.specs.Slots.{next_slot, kept_slot, Replaces};
ghost use Rattle.fm_store.specs.StoreLeft.{AreDisksOf};
ghost use Rattle.fm_store.specs.StoreLimits.{store_of};
ghost use Rattle.fm_store.specs.StoreOf.{fills_second, newest_sequence, of_two};

use crate::slots::{begin_journal, put_back, replace_of_two, spare_name};
use fm_journal::Journal;
use fm_logs::{DiskName, Disks, Logs, LogsParts};
use fm_looks::slot_disk;
use fm_outer::{Disk, Failed};
use fm_saved::SavedStates;
use fm_slots::SlotFrame;
use std::marker::Model;

/// The second of two before the first, where it is so.
fn in_order<D>(second: bool, first: D, other: D) -> (D, D)
    ensures { result ≡ (of_two second first other, of_two second other first) }
{
    if second {
        (other, first)
    } else {
        (first, other)
    }
}

/// The disks of a store beside its logs, what is known at its base, and its modules as they were
/// made, with the saves of their states at the base. Contracts see `StoreBaseOf`.
#[derive(Drop)]
pub struct StoreBase<D: Disk, M> {
    /// The configurations' journal.
    pub(crate) conf: Journal<D>,
    /// The disk of the error journal that is not active; it is away only while a rotation makes a
    /// journal of it.
    pub(crate) spare: Option<D>,
    pub(crate) slot_a: D,
    pub(crate) slot_b: D,
    /// Of the slot in force whether it is the second, and its sequence.
    pub(crate) newest: Option<(bool, u64)>,
    pub(crate) moment: u64,
    pub(crate) in_force: u32,
    pub(crate) kept: Vec<M>,
    pub(crate) states: SavedStates,
}

impl<D: Disk, M> Model for StoreBase<D, M> {
    ghost use Rattle.fm_store.specs.StoreOf.{StoreBaseOf};
    ghost use Rattle.fm_store.specs.StoreLimits.{IsStoreBase, base_of, spare_of};
    ghost use Rattle.std.specs.Coded.{codes};

    ghost Value = { StoreBaseOf D M };

    ghost coded = { Prim.hlevel (codes, M.code) };

    ghost view = { λ b. base_of b.conf (spare_of b.spare b.conf.disk) b.slot_a b.slot_b b.newest
        b.moment b.in_force b.kept.items b.states };

    ghost invariant = { λ b. IsStoreBase b.spare b.moment };
}

impl<D: Disk, M> StoreBase<D, M> {
    /// The greatest moment at the base.
    pub(crate) fn moment(&self) -> u64
        ensures value { result ≡ self.now.moment }
        ensures fits { result < 2 ^ 62 }
    {
        self.moment
    }

    /// The number of the configuration in force at the base.
    pub(crate) fn in_force(&self) -> u32
        ensures { result ≡ self.now.in_force }
    {
        self.in_force
    }

    /// Whether the next checkpoint is written into the second slot.
    pub(crate) fn fills_second(&self) -> bool
        ensures { result ≡ fills_second self.now.newest }
    {
        match self.newest {
            Some((second, _)) => !second,
            None => false,
        }
    }

    /// The sequence of the slot in force, or 0.
    pub(crate) fn sequence(&self) -> u64
        ensures { result ≡ newest_sequence self.now.newest }
    {
        match self.newest {
            Some((_, sequence)) => sequence,
            None => 0,
        }
    }

    /// How often the disk of the slot has failed that the next checkpoint is written into.
    pub(crate) fn slot_faults(&self) -> u64
        ensures { result ≡ D.failures (next_slot self.now self.now.newest) }
    {
        if self.fills_second() {
            self.slot_b.faults()
        } else {
            self.slot_a.faults()
        }
    }

    /// Puts the frame into the slot that is not in force.
    pub(crate) fn replace_slot(&mut self, frame: &SlotFrame) -> Result<(), Failed>
        ensures replaces { Replaces D.Disk (next_slot self.old self.old.newest)
            (next_slot self.new self.old.newest) frame.now result }
        ensures same { self.new ≡ record self.old {
          slot_a = self.new.slot_a;
          slot_b = self.new.slot_b;
        } }
        ensures kept_same { kept_slot self.new self.old.newest
            ≡ kept_slot self.old self.old.newest }
    {
        let second = self.fills_second();
        replace_of_two(second, &mut self.slot_a, &mut self.slot_b, frame)
    }

    /// Makes a journal on the spare disk, and puts the frame, which names it, into the slot that is
    /// not in force. Then it is the active one, and the disk of the one before is spare. The disk
    /// that failed, and its count.
    pub(crate) fn change_journal(
        &mut self,
        logs: &mut Logs<D>,
        frame: &SlotFrame,
    ) -> Result<(), (DiskName, u64)>
        requires { next_entry logs.old < 2 ^ 46 }
        ensures { ChangeDoes D.Disk (store_of logs.old self.old) (store_of logs.new self.new)
            frame.now result }
    {
        let second = self.fills_second();
        match begin_journal(&mut self.spare, logs.next_entry()) {
            Ok(journal) => {
                match replace_of_two(second, &mut self.slot_a, &mut self.slot_b, frame) {
                    Ok(()) => {
                        let before = logs.change_active(journal);
                        put_back(&mut self.spare, before.into_disk());
                        Ok(())
                    }
                    Err(Failed) => {
                        put_back(&mut self.spare, journal.into_disk());
                        Err((slot_disk(second), self.slot_faults()))
                    }
                }
            }
            Err(faults) => Err((spare_name(logs.is_second()), faults)),
        }
    }

    /// The base is where the slot that was just written says.
    pub(crate) fn move_on(&mut self, moment: u64, in_force: u32, states: SavedStates)
        requires fits { moment < 2 ^ 62 }
        requires few { newest_sequence self.old.newest + 1 < 2 ^ 62 }
        ensures { self.new ≡ record self.old {
          newest = Some (fills_second self.old.newest, newest_sequence self.old.newest + 1);
          moment = moment;
          in_force = in_force;
          states = states;
        } }
    {
        self.newest = Some((self.fills_second(), self.sequence() + 1));
        self.moment = moment;
        self.in_force = in_force;
        self.states = states;
    }
}

impl<D: Disk, M: Drop> StoreBase<D, M> {
    /// All disks, with those of the logs.
    pub(crate) fn into_disks(self, logs: Logs<D>) -> Disks<D>
        ensures { AreDisksOf (store_of logs self) result }
    {
        let LogsParts {
            active,
            flt,
            second,
            base: _,
            entries: _,
            cursors: _,
        } = logs.into_parts();
        let StoreBase {
            conf,
            spare,
            slot_a,
            slot_b,
            newest: _,
            moment: _,
            in_force: _,
            kept: _,
            states: _,
        } = self;
        let Some(spare) = spare else {
            unreachable!();
        };
        let (err_a, err_b) = in_order(second, active.into_disk(), spare);
        Disks {
            conf: conf.into_disk(),
            err_a,
            err_b,
            slot_a,
            slot_b,
            flt: flt.into_disk(),
        }
    }
}
