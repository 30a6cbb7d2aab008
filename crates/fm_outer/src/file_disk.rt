// A disk over a file.
ghost use Rattle.std.specs.Prelude.{ℕ, List, None};
ghost use Rattle.std.specs.declared.option.Option.{Option};
ghost use Rattle.fm_outer.specs.Untold.{none_not_some};

use crate::told::told;
use crate::{Disk, Failed};
use std::fs::File;
use std::os::unix::fs::FileExt;

/// A file. It tells no content, and fails exactly where std answers an error.
#[derive(Drop)]
pub struct FileDisk {
    file: Option<File>,
    failures: u64,
}

impl FileDisk {
    /// A disk over the file, which is open for reading and writing. With no file every call fails.
    pub fn new(file: Option<File>) -> FileDisk {
        FileDisk { file, failures: 0 }
    }
}

fn length_of(file: &Option<File>) -> Option<u64> {
    Some(file.as_ref()?.metadata().ok()?.len())
}

fn read_from(file: &Option<File>, at: u64, buf: &mut [u8]) -> Option<()> {
    file.as_ref()?.read_exact_at(buf, at).ok()
}

fn write_to(file: &Option<File>, at: u64, bytes: &[u8]) -> Option<()> {
    file.as_ref()?.write_all_at(bytes, at).ok()
}

fn cut_to(file: &Option<File>, len: u64) -> Option<()> {
    file.as_ref()?.set_len(len).ok()
}

fn synced(file: &Option<File>) -> Option<()> {
    file.as_ref()?.sync_all().ok()
}

impl Disk for FileDisk {
    ghost seen = { λ _. None };

    ghost failures = { λ d. d.failures };

    ghost name = { λ _. 0 };

    ghost images = { λ _ _. ⊥ };

    ghost moment = { λ _. 0 };

    ghost left_since = { λ _ _ _. ⊥ };

    ghost counts_now = { λ d t c le now. now };

    ghost only_now = { λ d c left. left };

    ghost seen_is_image = { λ d c is. none_not_some c is };

    fn len(&mut self) -> Result<u64, Failed> {
        told(&mut self.failures, length_of(&self.file))
    }

    fn read(&mut self, at: u64, buf: &mut [u8]) -> Result<(), Failed> {
        told(&mut self.failures, read_from(&self.file, at, buf))
    }

    fn write_at(&mut self, at: u64, bytes: &[u8]) -> Result<(), Failed> {
        told(&mut self.failures, write_to(&self.file, at, bytes))
    }

    fn cut(&mut self, len: u64) -> Result<(), Failed> {
        told(&mut self.failures, cut_to(&self.file, len))
    }

    fn sync(&mut self) -> Result<(), Failed> {
        told(&mut self.failures, synced(&self.file))
    }

    fn faults(&self) -> u64 {
        self.failures
    }
}
