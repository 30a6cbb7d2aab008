// A disk over a file of the store.
ghost use Rattle.std.specs.Prelude.{ℕ, List, None};
ghost use Rattle.std.specs.declared.option.Option.{Option};
ghost use Rattle.fm_outer.specs.Untold.{none_not_some};

use crate::failures::Failures;
use crate::folder::StoreFolder;
use crate::trouble::{Trouble, of};
use fm_outer::{Disk, Failed};
use std::fs::File;
use std::io;
use std::io::ErrorKind;
use std::os::unix::fs::FileExt;

/// A byte of a file before it was written over.
#[derive(Clone, Copy)]
struct OldByte {
    at: u64,
    byte: u8,
}

/// The byte at a place of the file, if there is one.
fn byte_in(file: &File, at: u64) -> Option<OldByte> {
    let mut buf = [0];
    file.read_exact_at(&mut buf, at).ok()?;
    Some(OldByte { at, byte: buf[0] })
}

/// What is done with a file that was written to and couldn't be synced. The byte is put back, and
/// written to the device, if it takes it, so that whoever reads the file next reads what stood
/// there before.
fn fall_back(file: &File, old: Option<OldByte>) {
    if let Some(OldByte { at, byte }) = old {
        let _ = file.write_all_at(&[byte], at);
        let _ = file.sync_data();
    }
}

/// The file of a disk.
#[derive(Drop)]
struct Backing {
    name: &'static str,
    // the folder, up to the first call
    folder: Option<StoreFolder>,
    // the file, once it was opened
    file: Option<File>,
    // why there is no file
    closed: Trouble,
    // the locked file of the folder, where this disk was the first that was called
    lock: Option<File>,
    // what stood in the place of the last write of a single byte, as all are that open or close a
    // gate, up to the next sync
    old: Option<OldByte>,
}

impl Backing {
    /// Opens the file where that was not tried yet.
    fn open(&mut self) {
        if let Some(folder) = self.folder.take() {
            match folder.open(self.name, &mut self.lock) {
                Ok(file) => self.file = Some(file),
                Err(trouble) => self.closed = trouble,
            }
        }
    }

    /// Syncs. Where that fails the file falls back, and every later call fails.
    fn sync(&mut self) -> Result<(), Trouble> {
        self.open();
        let file = self.file.as_ref().ok_or(self.closed)?;
        match of(self.name, file.sync_data()) {
            Ok(()) => {
                self.old = None;
                Ok(())
            }
            Err(trouble) => {
                fall_back(file, self.old);
                self.file = None;
                self.closed = trouble;
                Err(trouble)
            }
        }
    }

    /// Syncs where an old byte is kept, so that there is never more than one.
    fn settle(&mut self) -> Result<(), Trouble> {
        match self.old {
            Some(_) => self.sync(),
            None => Ok(()),
        }
    }

    fn len(&mut self) -> Result<u64, Trouble> {
        self.open();
        let file = self.file.as_ref().ok_or(self.closed)?;
        let metadata = of(self.name, file.metadata())?;
        Ok(metadata.len())
    }

    fn read(&mut self, at: u64, buf: &mut [u8]) -> Result<(), Trouble> {
        self.open();
        let file = self.file.as_ref().ok_or(self.closed)?;
        of(self.name, file.read_exact_at(buf, at))
    }

    fn write_at(&mut self, at: u64, bytes: &[u8]) -> Result<(), Trouble> {
        self.open();
        self.settle()?;
        let file = self.file.as_ref().ok_or(self.closed)?;
        if bytes.len() == 1 {
            self.old = byte_in(file, at);
        }
        of(self.name, file.write_all_at(bytes, at))
    }

    fn cut(&mut self, len: u64) -> Result<(), Trouble> {
        self.open();
        self.settle()?;
        let file = self.file.as_ref().ok_or(self.closed)?;
        of(self.name, file.set_len(len))
    }
}

/// A disk over a file of the store. It tells no content. It fails exactly where the folder can't be
/// had, the file can't be opened or std answers an error, and from a sync that failed on.
#[derive(Drop)]
pub struct StoreFile {
    backing: Backing,
    failures: Failures,
}

impl StoreFile {
    /// The disk over the file of that name, which begins with that of the folder.
    pub fn new(folder: StoreFolder, name: &'static str) -> StoreFile {
        let fault = io::Error::from(ErrorKind::NotFound);
        StoreFile {
            backing: Backing {
                name,
                folder: Some(folder),
                file: None,
                closed: Trouble { name, fault },
                lock: None,
                old: None,
            },
            failures: Failures::new(),
        }
    }

    /// A disk of which every call fails, for this reason.
    pub fn closed(trouble: Trouble) -> StoreFile {
        StoreFile {
            backing: Backing {
                name: trouble.name,
                folder: None,
                file: None,
                closed: trouble,
                lock: None,
                old: None,
            },
            failures: Failures::new(),
        }
    }

    /// Why it first failed, if it did.
    pub fn trouble(&self) -> Option<Trouble> {
        self.failures.first()
    }
}

impl Disk for StoreFile {
    ghost seen = { λ _. None };

    ghost failures = { λ d. d.failures.count };

    ghost name = { λ _. 0 };

    ghost images = { λ _ _. ⊥ };

    ghost moment = { λ _. 0 };

    ghost left_since = { λ _ _ _. ⊥ };

    ghost counts_now = { λ d t c le now. now };

    ghost only_now = { λ d c left. left };

    ghost seen_is_image = { λ d c is. none_not_some c is };

    fn len(&mut self) -> Result<u64, Failed> {
        let answer = self.backing.len();
        self.failures.told(answer)
    }

    fn read(&mut self, at: u64, buf: &mut [u8]) -> Result<(), Failed> {
        let answer = self.backing.read(at, buf);
        self.failures.told(answer)
    }

    fn write_at(&mut self, at: u64, bytes: &[u8]) -> Result<(), Failed> {
        let answer = self.backing.write_at(at, bytes);
        self.failures.told(answer)
    }

    fn cut(&mut self, len: u64) -> Result<(), Failed> {
        let answer = self.backing.cut(len);
        self.failures.told(answer)
    }

    fn sync(&mut self) -> Result<(), Failed> {
        let answer = self.backing.sync();
        self.failures.told(answer)
    }

    fn faults(&self) -> u64 {
        self.failures.count
    }
}
