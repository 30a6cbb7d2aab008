// A disk that is lent, and keeps its own name.
ghost use Rattle.std.specs.Prelude.{◌≡◌, ℕ, ◌+◌, ◌≤◌, List, length, take, Some, OnOk, IfOk, IfSome};
ghost use Rattle.std.specs.Option.{option_map};
ghost use Rattle.std.specs.declared.option.Option.{Option};
ghost use Rattle.fm_outer.specs.Failures.{HasCause};
ghost use Rattle.fm_outer.specs.Bytes.{range, written, Inside, InsideRange};
ghost use Rattle.fm_outer.specs.Crash.{Torn, Shorter, StepsFrom, NoMore, OnlySeen, Elapses};

use fm_outer::{Disk, Failed};

/// A disk that is lent. Its name tells which reference it is and which disk, so that who lends it
/// knows that the disk came back, and that it is still that disk.
#[derive(Drop)]
pub struct Lent<'a, D: Disk> {
    pub disk: &'a mut D,
}

impl<D: Disk> Disk for Lent<'_, D> {
    ghost use Rattle.fm_lent.specs.Lending.{paired};

    ghost seen = { λ d. D.seen d.disk.now };

    ghost failures = { λ d. D.failures d.disk.now };

    ghost name = { λ d. paired d.disk.ghost_name (D.name d.disk.now) };

    ghost images = { λ d c. D.images d.disk.now c };

    ghost moment = { λ d. D.moment d.disk.now };

    ghost left_since = { λ d t c. D.left_since d.disk.now t c };

    ghost counts_now = { λ d t c le now. D.counts_now d.disk.now t c le now };

    ghost only_now = { λ d c left. D.only_now d.disk.now c left };

    ghost seen_is_image = { λ d c is. D.seen_is_image d.disk.now c is };

    fn len(&mut self) -> Result<u64, Failed> {
        (*self.disk).len()
    }

    fn read(&mut self, at: u64, buf: &mut [u8]) -> Result<(), Failed> {
        (*self.disk).read(at, buf)
    }

    fn write_at(&mut self, at: u64, bytes: &[u8]) -> Result<(), Failed> {
        (*self.disk).write_at(at, bytes)
    }

    fn cut(&mut self, len: u64) -> Result<(), Failed> {
        (*self.disk).cut(len)
    }

    fn sync(&mut self) -> Result<(), Failed> {
        (*self.disk).sync()
    }

    fn faults(&self) -> u64 {
        (*self.disk).faults()
    }
}
