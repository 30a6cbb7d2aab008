// The disk of the next lines: its bytes, its limits, which calls fail, and what a crash leaves.
ghost use Rattle.std.specs.Prelude.{◌≡◌, true};
ghost use Rattle.fm_outer.specs.Bytes.{Inside};

use fm_outer::{Disk, Failed, Image, MemDisk};
use std::alloc::Global;
use test_words::{ScriptFault, number_in, show_count};

/// What the disk of a line is made of.
#[derive(Drop)]
pub struct Setting {
    /// Its bytes, and those of the disk beside it.
    pub bytes: Vec<u8>,
    pub beside: Vec<u8>,
    /// The most bytes that it has, and the places of its record.
    pub room: u64,
    pub record: u64,
    /// The calls that fail, and the one from which on each fails.
    pub fails: Vec<u64>,
    pub stop: Option<u64>,
    /// What a crash leaves of it, where the power fails.
    pub image: Option<Image>,
}

/// The room of a disk, and the places of its record, where the script says nothing of them.
const PLENTY: u64 = 4096;

impl Setting {
    /// A disk without bytes.
    pub fn new(alloc: Global) -> Setting {
        Setting {
            bytes: Vec::new(alloc),
            beside: Vec::new(alloc),
            room: PLENTY,
            record: PLENTY,
            fails: Vec::new(alloc),
            stop: None,
            image: None,
        }
    }

    /// Has the disk have these bytes, with plenty of room, and no call fail.
    pub fn begin(&mut self, bytes: Vec<u8>) {
        self.bytes = bytes;
        self.room = PLENTY;
        self.record = PLENTY;
        self.fails.clear();
        self.stop = None;
        self.image = None;
    }

    /// Has these calls fail.
    pub fn set_fails(&mut self, words: &str) -> Result<(), ScriptFault> {
        self.fails.clear();
        for word in words.split_whitespace() {
            self.fails.push(number_in(word)?)?;
        }
        Ok(())
    }

    /// The disk.
    pub fn disk(&self, alloc: Global) -> Result<MemDisk, ScriptFault> {
        let fails = self.fails.to_vec(alloc)?;
        let mut disk = MemDisk::new(alloc, &self.bytes, self.room, self.record, fails)?;
        if let Some(call) = self.stop {
            disk.stop_at(call);
        }
        Ok(disk)
    }

    /// Appends how often the disk was called and failed, and keeps what it reads as, or what a
    /// crash leaves of it.
    pub fn leave(
        &mut self,
        alloc: Global,
        disk: MemDisk,
        out: &mut String,
    ) -> Result<(), ScriptFault> {
        show_calls(&disk, out)?;
        self.bytes = match self.image {
            Some(image) => bytes_left(alloc, disk, image)?,
            None => bytes_as_read(alloc, disk)?,
        };
        Ok(())
    }
}

/// The image that a word says: the old bytes, the new ones, or one byte throughout.
pub fn image_in(word: &str) -> Result<Image, ScriptFault> {
    match word {
        "old" => Ok(Image::Old),
        "new" => Ok(Image::New),
        _ => match word.parse::<u8>() {
            Ok(byte) => Ok(Image::Fill(byte)),
            Err(_) => Err(ScriptFault::Words),
        },
    }
}

/// Appends how often a disk was called and failed.
fn show_calls(disk: &MemDisk, out: &mut String) -> Result<(), ScriptFault> {
    show_count("; calls", disk.calls() as usize, out)?;
    show_count(" faults", disk.faults() as usize, out)
}

/// The bytes that a disk reads as.
pub fn bytes_of(alloc: Global, disk: &mut MemDisk) -> Result<Vec<u8>, ScriptFault> {
    match read_all(alloc, disk) {
        Some(bytes) => Ok(bytes),
        None => Err(ScriptFault::NoSpelling),
    }
}

fn read_all(alloc: Global, disk: &mut MemDisk) -> Option<Vec<u8>> {
    let count = disk.len().ok()?;
    let mut bytes = vec![in alloc; 0; count as usize].ok()?;
    disk.read(0, &mut bytes).ok()?;
    Some(bytes)
}

/// The bytes that a disk reads as, which is let go.
fn bytes_as_read(alloc: Global, disk: MemDisk) -> Result<Vec<u8>, ScriptFault> {
    let mut disk = disk;
    bytes_of(alloc, &mut disk)
}

/// The bytes that a crash leaves of a disk.
pub fn bytes_left(alloc: Global, disk: MemDisk, image: Image) -> Result<Vec<u8>, ScriptFault> {
    match disk.crash(alloc, image) {
        Ok(mut left) => bytes_of(alloc, &mut left),
        Err(_both) => Err(ScriptFault::NoMemory),
    }
}

/// Whether the place is within the bytes, which takes a call.
pub fn is_within<D: Disk>(disk: &mut D, place: u64) -> bool
    ensures { result ≡ true → Inside place (D.seen disk.new) }
{
    match disk.len() {
        Ok(count) => place <= count,
        Err(_) => false,
    }
}

/// How a call ended.
pub fn ending(answer: Result<(), Failed>) -> &'static str {
    match answer {
        Ok(()) => "done",
        Err(Failed) => "failed",
    }
}
