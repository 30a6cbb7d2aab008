// A disk in memory.
ghost use Rattle.std.specs.Prelude.{◌≡◌, ◌&&◌, ℕ, ◌+◌, ◌≤◌, List, length, take, not, is_ok, Some};
ghost use Rattle.std.specs.Prelude.{OnOk, IfOk, IfErr, IfSome, [], vec_capacity, nat_le};
ghost use Rattle.std.specs.Option.{option_map};
ghost use Rattle.fm_outer.specs.Failures.{HasCause};
ghost use Rattle.fm_outer.specs.Bytes.{range, written, Inside, InsideRange};
ghost use Rattle.fm_outer.specs.Crash.{Torn, Shorter, StepsFrom, NoMore, OnlySeen, Elapses};
ghost use Rattle.fm_outer.specs.FailPlan.{is_due};
ghost use Rattle.fm_outer.specs.Record.{Wrote, CutTo, Synced};
ghost use Rattle.fm_outer.specs.Image.{image_of};
ghost use Rattle.fm_outer.specs.MemDisk.{disk_name, content, Images, LeftSince, fresh_disk, does};
ghost use Rattle.fm_outer.specs.MemDisk.{does_write, asked, called};
ghost use Rattle.fm_outer.specs.MemDiskLaws.{counts_now_lem, only_now_lem, seen_is_image_lem};

use crate::bytes::{cut_if, write_if};
use crate::fail_plan::FailPlan;
use crate::record::Record;
use crate::{Disk, Failed, Image, NoMemory};
use std::alloc::Global;
use std::marker::Model;

/// A disk in memory. Its calls are numbered from 0; one fails where its number is among those that
/// it was told, from the stop on, where it would pass the room, or where its record has no place
/// left, and in no other case.
///
/// A call for which the record has no place changes nothing but the counts. Any other call that
/// fails changes nothing that a read gives, and a crash may leave what it wrote.
#[derive(Drop)]
pub struct MemDisk {
    base: Vec<u8>,
    bytes: Vec<u8>,
    room: u64,
    tape: Record,
    plan: FailPlan,
}

impl Model for MemDisk {
    ghost use Rattle.std.specs.Prelude.{◌≡◌, ◌≤◌, vec_capacity};
    ghost use Rattle.fm_outer.specs.Record.{content_after};
    ghost use Rattle.fm_outer.specs.MemDisk.{DiskState};

    ghost Value = { DiskState };

    ghost view = { λ d.
        record { base = d.base.items; tape = d.tape; room = d.room; plan = d.plan } };

    ghost invariant = { λ d. (d.bytes.items ≡ content_after d.tape.ops d.base.items)
        × (d.room ≤ vec_capacity d.bytes) };
}

impl MemDisk {
    /// A disk with these bytes, all of them synced. It has room for `room` bytes, and for a record
    /// of `tape` places: a write takes one and one for each byte, a cut or a sync takes one. All of
    /// it is taken from the allocator now.
    pub fn new(
        alloc: Global,
        bytes: &[u8],
        room: u64,
        tape: u64,
        fails: Vec<u64>,
    ) -> Result<MemDisk, NoMemory>
        ensures disk { IfOk result (λ disk. disk ≡ fresh_disk bytes.now room tape fails.items) }
        ensures synced { IfOk result (λ disk. OnlySeen (Some (content disk)) (Images disk)) }
    {
        let base = bytes.to_vec(alloc)?;
        let copy = with_room(alloc, bytes, room as usize)?;
        Ok(MemDisk {
            base,
            bytes: copy,
            room,
            tape: Record::new(alloc, tape as usize)?,
            plan: FailPlan::new(fails),
        })
    }

    /// From this call on, each fails.
    pub fn stop_at(&mut self, call: u64)
        ensures { self.new ≡ record self.old { plan = record self.old.plan { stop = Some call } } }
    {
        self.plan.stop_at(call);
    }

    /// How many calls were made.
    pub fn calls(&self) -> u64
        ensures { result ≡ self.now.plan.calls }
    {
        self.plan.calls()
    }

    /// A crash: the disk that it leaves, with this of what was written since the last sync. Its
    /// calls start at 0, its record is empty, no call is to fail and no stop is set; its room and
    /// its tape are as before. With no memory for it, the disk comes back unchanged.
    pub fn crash(self, alloc: Global, how: Image) -> Result<MemDisk, (MemDisk, NoMemory)>
        ensures disk { IfOk result
            (λ disk. disk ≡ fresh_disk (image_of how self.tape.ops self.base) self.room
            self.tape.size []) }
        // What it reads as is one of the images of the disk before.
        ensures image { IfOk result (λ disk. Images self (content disk)) }
        ensures synced { IfOk result (λ disk. OnlySeen (Some (content disk)) (Images disk)) }
        ensures err { IfErr result (λ back. back.0 ≡ self) }
    {
        match self.left_by(alloc, how) {
            Ok(disk) => Ok(disk),
            Err(none) => Err((self, none)),
        }
    }

    // The disk that a crash leaves.
    fn left_by(&self, alloc: Global, how: Image) -> Result<MemDisk, NoMemory>
        ensures synced { IfOk result (λ disk. OnlySeen (Some (content disk)) (Images disk)) }
        ensures disk { IfOk result (λ disk. disk
            ≡ fresh_disk (image_of how self.now.tape.ops self.now.base) self.now.room
            self.now.tape.size []) }
    {
        let image = self.tape.image(alloc, &self.base, how)?;
        let size = self.tape.size() as u64;
        MemDisk::new(alloc, &image, self.room, size, Vec::new(alloc))
    }

    // Whether a write of `count` bytes is done now.
    fn does_write(&self, at: u64, bytes: &[u8]) -> bool
        ensures { result ≡ does_write at (length bytes.now) self.now }
    {
        self.does(1 + bytes.len()) && fits(at, bytes.len() as u64, self.room)
    }

    // Whether a call that takes so many places is done now.
    fn does(&self, places: usize) -> bool
        ensures { result ≡ does places self.now }
    {
        self.tape.has_place(places) && !self.plan.is_due()
    }
}

// Whether so many bytes from the place on lie within the room.
fn fits(at: u64, count: u64, room: u64) -> bool
    ensures { result ≡ nat_le (at + count) room }
{
    at <= room && count <= room - at
}

// A copy of the bytes, with room for so many at least.
fn with_room(alloc: Global, bytes: &[u8], room: usize) -> Result<Vec<u8>, NoMemory>
    ensures items { IfOk result (λ copy. copy.items ≡ bytes.now) }
    ensures room { IfOk result (λ copy. room ≤ vec_capacity copy) }
{
    let mut copy = Vec::with_capacity(alloc, room)?;
    copy.extend_from_slice(bytes)?;
    Ok(copy)
}

// Fills the buffer from the place on. The range lies inside.
fn fill_from(buf: &mut [u8], bytes: &[u8], at: usize)
    requires { at + length buf.old ≤ length bytes.now }
    ensures { buf.new ≡ range at (length buf.old) bytes.now }
{
    buf.copy_from_slice(&bytes[at..at + buf.len()]);
}

impl Disk for MemDisk {
    ghost seen = { λ d. Some (content d) };

    ghost failures = { λ d. d.plan.failures };

    ghost name = { disk_name };

    ghost images = { Images };

    ghost moment = { λ d. length d.tape.ops };

    ghost left_since = { LeftSince };

    ghost counts_now = { counts_now_lem };

    ghost only_now = { only_now_lem };

    ghost seen_is_image = { seen_is_image_lem };

    fn len(&mut self) -> Result<u64, Failed>
        ensures length { IfOk result
            (λ count. IfSome (Some (content self.old)) (λ xs. count ≡ length xs)) }
        ensures same { Some (content self.new) ≡ Some (content self.old) }
        ensures crash { NoMore (Images self.old) (Images self.new) }
        ensures time { Elapses (length self.old.tape.ops) (length self.new.tape.ops)
            (LeftSince self.old) (LeftSince self.new) (Images self.new) }
        ensures same_disk { disk_name self.new ≡ disk_name self.old }
        ensures cause { HasCause self.old.plan.failures self.new.plan.failures result }
        ensures done { is_ok result ≡ not (is_due self.old.plan) }
        ensures state { self.new ≡ asked (is_ok result) self.old }
    {
        let done = !self.plan.is_due();
        self.plan.answer(done)?;
        Ok(self.bytes.len() as u64)
    }

    fn read(&mut self, at: u64, buf: &mut [u8]) -> Result<(), Failed>
        requires { InsideRange at (length buf.old) (Some (content self.old)) }
        ensures bytes { OnOk result
            (IfSome (Some (content self.old)) (λ xs. buf.new ≡ range at (length buf.old) xs)) }
        ensures same { Some (content self.new) ≡ Some (content self.old) }
        ensures crash { NoMore (Images self.old) (Images self.new) }
        ensures time { Elapses (length self.old.tape.ops) (length self.new.tape.ops)
            (LeftSince self.old) (LeftSince self.new) (Images self.new) }
        ensures same_disk { disk_name self.new ≡ disk_name self.old }
        ensures cause { HasCause self.old.plan.failures self.new.plan.failures result }
        ensures done { is_ok result ≡ not (is_due self.old.plan) }
        ensures state { self.new ≡ asked (is_ok result) self.old }
    {
        let done = !self.plan.is_due();
        self.plan.answer(done)?;
        fill_from(buf, &self.bytes, at as usize);
        Ok(())
    }

    fn write_at(&mut self, at: u64, bytes: &[u8]) -> Result<(), Failed>
        requires { Inside at (Some (content self.old)) }
        ensures written { OnOk result
            (Some (content self.new)
            ≡ option_map (written at bytes.now) (Some (content self.old))) }
        ensures crash { StepsFrom (Torn at (length bytes.now)) (Images self.old) (Images self.new) }
        ensures time { Elapses (length self.old.tape.ops) (length self.new.tape.ops)
            (LeftSince self.old) (LeftSince self.new) (Images self.new) }
        ensures same_disk { disk_name self.new ≡ disk_name self.old }
        ensures cause { HasCause self.old.plan.failures self.new.plan.failures result }
        ensures done { is_ok result ≡ does_write at (length bytes.now) self.old }
        ensures state { self.new ≡ called (Wrote at bytes.now (is_ok result)) (is_ok result)
            self.old }
    {
        let done = self.does_write(at, bytes);
        self.tape.note_write(at, bytes, done);
        write_if(&mut self.bytes, done, at as usize, bytes);
        self.plan.answer(done)
    }

    fn cut(&mut self, len: u64) -> Result<(), Failed>
        requires { Inside len (Some (content self.old)) }
        ensures shorter { OnOk result
            (Some (content self.new) ≡ option_map (take len) (Some (content self.old))) }
        ensures crash { StepsFrom (Shorter len) (Images self.old) (Images self.new) }
        ensures time { Elapses (length self.old.tape.ops) (length self.new.tape.ops)
            (LeftSince self.old) (LeftSince self.new) (Images self.new) }
        ensures same_disk { disk_name self.new ≡ disk_name self.old }
        ensures cause { HasCause self.old.plan.failures self.new.plan.failures result }
        ensures done { is_ok result ≡ does 1 self.old }
        ensures state { self.new ≡ called (CutTo len (is_ok result)) (is_ok result) self.old }
    {
        let done = self.does(1);
        self.tape.note_cut(len, done);
        cut_if(&mut self.bytes, len, done);
        self.plan.answer(done)
    }

    fn sync(&mut self) -> Result<(), Failed>
        ensures durable { OnOk result (OnlySeen (Some (content self.old)) (Images self.new)) }
        ensures same { Some (content self.new) ≡ Some (content self.old) }
        ensures crash { NoMore (Images self.old) (Images self.new) }
        ensures time { Elapses (length self.old.tape.ops) (length self.new.tape.ops)
            (LeftSince self.old) (LeftSince self.new) (Images self.new) }
        ensures same_disk { disk_name self.new ≡ disk_name self.old }
        ensures cause { HasCause self.old.plan.failures self.new.plan.failures result }
        ensures done { is_ok result ≡ does 1 self.old }
        ensures state { self.new ≡ called (Synced (is_ok result)) (is_ok result) self.old }
    {
        let done = self.does(1);
        self.tape.note_sync(done);
        self.plan.answer(done)
    }

    fn faults(&self) -> u64 {
        self.plan.failures()
    }
}
