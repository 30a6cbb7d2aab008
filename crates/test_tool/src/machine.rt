// Machines in memory: six disks and some actuators.
use crate::acts::ActPaths;
use crate::disks::{ALL, bytes_of, crash, disk_of, empty_disks, made};
use crate::undone::Undone;
use fm_outer::{Image, MemDisk, NoMemory};
use fm_top::{DiskName, Disks};
use std::alloc::Global;

/// Six disks with so much room each, and what some actuators hold.
#[derive(Drop)]
pub struct Machine<'a> {
    pub disks: Disks<MemDisk>,
    pub acts: Vec<ActPaths<'a>>,
    room: u64,
}

impl<'a> Machine<'a> {
    /// A machine without a store, whose disks have no room, and without actuators.
    pub fn new(alloc: Global) -> Result<Machine<'a>, NoMemory> {
        let disks = empty_disks(alloc)?;
        let acts = Vec::new(alloc);
        Ok(Machine {
            disks,
            acts,
            room: 0,
        })
    }

    /// Has each disk be without bytes, with so much room.
    fn clear_disks(&mut self, alloc: Global, room: u64) -> Result<(), NoMemory> {
        self.room = room;
        for name in ALL {
            self.put_disk(alloc, name, b"", None)?;
        }
        Ok(())
    }

    /// Makes it one without a store, with an actuator of each of these kinds.
    pub fn clear(&mut self, alloc: Global, room: u64, kinds: &'a str) -> Result<(), Undone> {
        self.clear_disks(alloc, room)?;
        self.acts = ActPaths::of_kinds(alloc, kinds)?;
        Ok(())
    }

    /// Has the disks of another read as these do.
    fn copy_disks(&mut self, alloc: Global, to: &mut Machine<'a>) -> Result<(), Undone> {
        to.room = self.room;
        for name in ALL {
            let bytes = bytes_of(alloc, self.disk(name))?;
            to.put_disk(alloc, name, &bytes, None)?;
        }
        Ok(())
    }

    /// Adds actuators to another, that hold what these do.
    fn copy_acts(&self, alloc: Global, to: &mut Machine<'a>) -> Result<(), Undone> {
        for held in &self.acts {
            to.acts.push(held.copy(alloc)?)?;
        }
        Ok(())
    }

    /// A machine whose disks read as these do, and whose actuators hold the same.
    pub fn copy(&mut self, alloc: Global) -> Result<Machine<'a>, Undone> {
        let mut to = Machine::new(alloc)?;
        match self.copy_into(alloc, &mut to) {
            Ok(()) => Ok(to),
            Err(fault) => Err(fault),
        }
    }

    /// Has another, without actuators, be the same.
    fn copy_into(&mut self, alloc: Global, to: &mut Machine<'a>) -> Result<(), Undone> {
        self.copy_disks(alloc, to)?;
        self.copy_acts(alloc, to)
    }

    /// One of the disks.
    pub fn disk(&mut self, name: DiskName) -> &mut MemDisk {
        disk_of(&mut self.disks, name)
    }

    /// Puts a disk of these bytes in the place of one, of which this call fails.
    pub fn put_disk(
        &mut self,
        alloc: Global,
        name: DiskName,
        bytes: &[u8],
        fails: Option<u64>,
    ) -> Result<(), NoMemory> {
        *disk_of(&mut self.disks, name) = made(alloc, bytes, self.room, fails)?;
        Ok(())
    }

    /// Has this call of a disk fail and no other, counted from here on.
    pub fn fail(&mut self, alloc: Global, name: DiskName, call: u64) -> Result<(), Undone> {
        let bytes = bytes_of(alloc, self.disk(name))?;
        self.put_disk(alloc, name, &bytes, Some(call))?;
        Ok(())
    }

    /// Has each call of a disk fail from this one on, counted from here on.
    pub fn stop(&mut self, alloc: Global, name: DiskName, call: u64) -> Result<(), Undone> {
        let bytes = bytes_of(alloc, self.disk(name))?;
        self.put_disk(alloc, name, &bytes, None)?;
        self.disk(name).stop_at(call);
        Ok(())
    }

    /// The machine crashes, with this left of each range that was written since the last sync of
    /// its disk.
    pub fn crash(&mut self, alloc: Global, image: Image) -> Result<(), NoMemory> {
        for name in ALL {
            crash(alloc, self.disk(name), image)?;
        }
        Ok(())
    }
}
