// Where bytes are kept.
ghost use Rattle.std.specs.Prelude.{◌≡◌, ℕ, ◌+◌, ◌≤◌, List, length, take, Some, OnOk, IfOk, IfSome};
ghost use Rattle.std.specs.Option.{option_map};
ghost use Rattle.std.specs.declared.option.Option.{Option};
ghost use Rattle.fm_outer.specs.Failures.{HasCause};
ghost use Rattle.fm_outer.specs.Bytes.{range, written, Inside, InsideRange};
ghost use Rattle.fm_outer.specs.Crash.{Torn, Shorter, StepsFrom, NoMore, OnlySeen, Elapses};

use crate::Failed;

/// Bytes that are kept. They are read and written at any place, and only a sync makes sure that a
/// crash leaves what a read gives. A call that writes and fails may have written in part: a crash
/// may leave what it wrote, or not.
pub trait Disk {
    /// The bytes that a read gives, where the disk tells them.
    ghost seen: { Self → Option (List ℕ) };

    /// How often the disk has failed.
    ghost failures: { Self → ℕ };

    /// Which disk it is. Each call keeps it, so that who lends a disk knows what came back.
    ghost name: { Self → ℕ };

    /// The images that a crash at this moment may leave. A disk that tells nothing of them has none
    /// here.
    ghost images: { Self → List ℕ → Type 0 };

    /// The moment, as a number that doesn't fall.
    ghost moment: { Self → ℕ };

    /// The images that a crash at some moment from that one on might have left, within a call or
    /// between two.
    ghost left_since: { Self → ℕ → List ℕ → Type 0 };

    /// How many bytes there are.
    fn len(&mut self) -> Result<u64, Failed>
        ensures length { IfOk result (λ count. IfSome (seen self.old) (λ xs. count ≡ length xs)) }
        ensures same { seen self.new ≡ seen self.old }
        ensures crash { NoMore (images self.old) (images self.new) }
        ensures time { Elapses (moment self.old) (moment self.new) (left_since self.old)
            (left_since self.new) (images self.new) }
        ensures same_disk { name self.new ≡ name self.old }
        ensures cause { HasCause (failures self.old) (failures self.new) result };

    /// Fills the buffer with the bytes from the place `at` on. The range lies inside the disk.
    fn read(&mut self, at: u64, buf: &mut [u8]) -> Result<(), Failed>
        requires { InsideRange at (length buf.old) (seen self.old) }
        ensures bytes { OnOk result
            (IfSome (seen self.old) (λ xs. buf.new ≡ range at (length buf.old) xs)) }
        ensures same { seen self.new ≡ seen self.old }
        ensures crash { NoMore (images self.old) (images self.new) }
        ensures time { Elapses (moment self.old) (moment self.new) (left_since self.old)
            (left_since self.new) (images self.new) }
        ensures same_disk { name self.new ≡ name self.old }
        ensures cause { HasCause (failures self.old) (failures self.new) result };

    /// Writes over what is there from the place `at` on, and past the end. The place is not past
    /// the end.
    fn write_at(&mut self, at: u64, bytes: &[u8]) -> Result<(), Failed>
        requires { Inside at (seen self.old) }
        ensures written { OnOk result
            (seen self.new ≡ option_map (written at bytes.now) (seen self.old)) }
        ensures crash { StepsFrom (Torn at (length bytes.now)) (images self.old) (images self.new) }
        ensures time { Elapses (moment self.old) (moment self.new) (left_since self.old)
            (left_since self.new) (images self.new) }
        ensures same_disk { name self.new ≡ name self.old }
        ensures cause { HasCause (failures self.old) (failures self.new) result };

    /// Cuts the disk to `len` bytes, which are not more than it has.
    fn cut(&mut self, len: u64) -> Result<(), Failed>
        requires { Inside len (seen self.old) }
        ensures shorter { OnOk result (seen self.new ≡ option_map (take len) (seen self.old)) }
        ensures crash { StepsFrom (Shorter len) (images self.old) (images self.new) }
        ensures time { Elapses (moment self.old) (moment self.new) (left_since self.old)
            (left_since self.new) (images self.new) }
        ensures same_disk { name self.new ≡ name self.old }
        ensures cause { HasCause (failures self.old) (failures self.new) result };

    /// After it, a crash leaves what a read gives.
    fn sync(&mut self) -> Result<(), Failed>
        ensures durable { OnOk result (OnlySeen (seen self.old) (images self.new)) }
        ensures same { seen self.new ≡ seen self.old }
        ensures crash { NoMore (images self.old) (images self.new) }
        ensures time { Elapses (moment self.old) (moment self.new) (left_since self.old)
            (left_since self.new) (images self.new) }
        ensures same_disk { name self.new ≡ name self.old }
        ensures cause { HasCause (failures self.old) (failures self.new) result };

    /// How often the disk has failed. It asks nothing of the device.
    fn faults(&self) -> u64
        ensures { result ≡ failures self.now };

    /// This moment is one of those since an earlier one.
    ghost counts_now: { (disk : Self) (t : ℕ) (c : List ℕ) → t ≤ moment disk → images disk c
        → left_since disk t c };

    /// Since this moment there is no other.
    ghost only_now: { (disk : Self) (c : List ℕ) → left_since disk (moment disk) c
        → images disk c };

    /// A disk as it reads is one of its images, where it tells images.
    ghost seen_is_image: { (disk : Self) (c : List ℕ) → seen disk ≡ Some c → images disk c };
}

/// A disk that is lent is the disk.
impl<D: Disk> Disk for &mut D {
    ghost seen = { λ d. D.seen d.now };

    ghost failures = { λ d. D.failures d.now };

    ghost name = { λ d. d.ghost_name };

    ghost images = { λ d c. D.images d.now c };

    ghost moment = { λ d. D.moment d.now };

    ghost left_since = { λ d t c. D.left_since d.now t c };

    ghost counts_now = { λ d t c le now. D.counts_now d.now t c le now };

    ghost only_now = { λ d c left. D.only_now d.now c left };

    ghost seen_is_image = { λ d c is. D.seen_is_image d.now c is };

    fn len(&mut self) -> Result<u64, Failed> {
        (**self).len()
    }

    fn read(&mut self, at: u64, buf: &mut [u8]) -> Result<(), Failed> {
        (**self).read(at, buf)
    }

    fn write_at(&mut self, at: u64, bytes: &[u8]) -> Result<(), Failed> {
        (**self).write_at(at, bytes)
    }

    fn cut(&mut self, len: u64) -> Result<(), Failed> {
        (**self).cut(len)
    }

    fn sync(&mut self) -> Result<(), Failed> {
        (**self).sync()
    }

    fn faults(&self) -> u64 {
        (**self).faults()
    }
}
