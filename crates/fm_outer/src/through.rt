// Writes that begin and end with a synced disk. Every layer above writes by these.
ghost use Rattle.std.specs.Prelude.{◌≡◌, ◌⊎◌, ℕ, ◌+◌, ◌<◌, ◌≤◌, ◌^◌, [], ◌∷◌, length, OnOk};
ghost use Rattle.std.specs.Option.{option_map};
ghost use Rattle.fm_outer.specs.Failures.{HasCause};
ghost use Rattle.fm_outer.specs.Bytes.{written, Inside};
ghost use Rattle.fm_outer.specs.Crash.{TornFrom, AddedFrom};
ghost use Rattle.fm_outer.specs.Moments.{IsSettled, LeavesOnly};

use crate::{Disk, Failed};

/// Writes, and syncs. What stands on the disk before is synced, and so is what stands there after
/// `Ok`. A crash at any moment of the call leaves what was there, with anything in the range that
/// is written.
pub fn write_through<D: Disk>(disk: &mut D, at: u64, bytes: &[u8]) -> Result<(), Failed>
    requires settled { IsSettled D.Disk disk.old }
    requires inside { Inside at (D.seen disk.old) }
    ensures written { OnOk result (D.seen disk.new
        ≡ option_map (written at bytes.now) (D.seen disk.old)) }
    ensures settled { OnOk result (IsSettled D.Disk disk.new) }
    ensures any_moment { LeavesOnly D.Disk disk.old disk.new
        (TornFrom (D.seen disk.old) at (length bytes.now)) }
    ensures same_disk { D.name disk.new ≡ D.name disk.old }
    ensures cause { HasCause (D.failures disk.old) (D.failures disk.new) result }
{
    disk.write_at(at, bytes)?;
    disk.sync()
}

/// Writes the body behind the byte at `end`, syncs, writes a 1 at `end`, and syncs again: the two
/// steps by which a record goes behind a gate and the gate is opened. A crash at any moment of the
/// call leaves what was there with anything behind the gate, or what was there with the body behind
/// the gate and anything in the gate.
pub fn add<D: Disk>(disk: &mut D, end: u64, body: &[u8]) -> Result<(), Failed>
    requires settled { IsSettled D.Disk disk.old }
    requires inside { Inside (end + 1) (D.seen disk.old) }
    requires small { end < 2 ^ 63 }
    ensures written { OnOk result (D.seen disk.new ≡ option_map (written end (1 ∷ []))
        (option_map (written (end + 1) body.now) (D.seen disk.old))) }
    ensures settled { OnOk result (IsSettled D.Disk disk.new) }
    ensures any_moment { LeavesOnly D.Disk disk.old disk.new
        (AddedFrom (D.seen disk.old) end body.now) }
    ensures same_disk { D.name disk.new ≡ D.name disk.old }
    ensures cause { HasCause (D.failures disk.old) (D.failures disk.new) result }
{
    write_through(disk, end + 1, body)?;
    write_through(disk, end, &[1])
}
